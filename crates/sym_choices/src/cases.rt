// The cases of a switch: which constants its test equals.
ghost use Rattle.std.specs.Prelude.{◌≡◌, ◌+◌, ◌*◌, ◌<◌, ◌^◌, IfOk, IsTrue, length};
ghost use Rattle.std.specs.List.{list_all};
ghost use Rattle.std.specs.Ordering.{int_eq};
ghost use Rattle.c_core.specs.Types.{in_range, width_of, IsPromoted};
ghost use Rattle.c_core.specs.Typing.{label_fits, labels_in};
ghost use Rattle.c_core.specs.View.{program_view, switch_view};
ghost use Rattle.c_meaning.specs.Run.{is_case};
ghost use Rattle.circuits.specs.Numbers.{typed, AreTyped};
ghost use Rattle.sym_state.specs.Standing.{IsState};
ghost use Rattle.sym_values.specs.Valuing.{Decided};
ghost use Rattle.sym_choices.specs.Cases.{equality_cost, case_cost, cases_cost, AreCases};

use c_core::{Arm, BinOp, IntType, Label, Program};
use circuits::{Bit, Bits, apply_bits, const_bits, not};
use std::alloc::Global;
use sym_state::Sym;
use sym_values::test;
use wv_base::OutOfMemory;

// Does a value equal a constant of its type?
fn equals(
    alloc: Global,
    program: &Program,
    sym: &mut Sym,
    ty: IntType,
    x: &Bits,
    constant: i128,
) -> Result<Bit, OutOfMemory>
    requires fits { IsState (program_view program.now) sym.old }
    requires promoted { IsPromoted ty }
    requires x_in { AreTyped program.now.model ty sym.old.net x.now.bits }
    requires constant_in { IsTrue (in_range program.now.model ty constant) }
    requires room { length sym.old.net + equality_cost program.now.model ty < 2 ^ 28 }
    ensures { IfOk result (λ r. Decided (program_view program.now) (equality_cost program.now.model ty) sym.old sym.new
        r (λ v. int_eq (typed program.now.model ty v sym.old.net x.now.bits) constant)) }
{
    let other = const_bits(alloc, &sym.net, program.model, ty, constant)?;
    let same = apply_bits(
        alloc,
        &mut sym.net,
        program.model,
        BinOp::Eq,
        ty,
        x,
        ty,
        &other,
    )?;
    let bit = test(alloc, program, sym, IntType::Int, &same.value)?;
    Ok(bit)
}

// Is a value that of a case? No value is that of `default`.
fn case_bit(
    alloc: Global,
    program: &Program,
    sym: &mut Sym,
    ty: IntType,
    x: &Bits,
    label: Label,
) -> Result<Bit, OutOfMemory>
    requires fits { IsState (program_view program.now) sym.old }
    requires promoted { IsPromoted ty }
    requires x_in { AreTyped program.now.model ty sym.old.net x.now.bits }
    requires label_in { IsTrue (label_fits program.now.model ty label) }
    requires room { length sym.old.net + case_cost program.now.model ty label < 2 ^ 28 }
    ensures { IfOk result (λ r. Decided (program_view program.now) (case_cost program.now.model ty label) sym.old
        sym.new r (λ v. is_case (typed program.now.model ty v sym.old.net x.now.bits) label)) }
{
    match label {
        Label::Case(constant) => {
            let bit = equals(alloc, program, sym, ty, x, constant)?;
            Ok(bit)
        }
        Label::Default => Ok(not(sym.net.yes())),
    }
}

/// For each arm of a switch: does a value of its promoted type equal the arm's constant?
pub fn case_bits(
    alloc: Global,
    program: &Program,
    sym: &mut Sym,
    ty: IntType,
    x: &Bits,
    arms: &[Arm],
) -> Result<Vec<Bit>, OutOfMemory>
    requires fits { IsState (program_view program.now) sym.old }
    requires promoted { IsPromoted ty }
    requires x_in { AreTyped program.now.model ty sym.old.net x.now.bits }
    requires labels_in { IsTrue (list_all (label_fits program.now.model ty) (labels_in (switch_view arms.now))) }
    requires room { length sym.old.net + cases_cost program.now.model ty (labels_in (switch_view arms.now)) < 2 ^ 28 }
    ensures { IfOk result (λ r. AreCases (program_view program.now) ty x.now.bits (labels_in (switch_view arms.now))
        sym.old sym.new r.items) }
{
    let mut out = Vec::new(alloc);
    for arm in arms {
        let bit = case_bit(alloc, program, sym, ty, x, arm.label)?;
        out.push(bit)?;
    }
    Ok(out)
}
