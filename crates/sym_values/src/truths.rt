// Conversions, tests against zero, truth values, and one of two values.
ghost use Rattle.std.specs.Prelude.{◌≡◌, ◌*◌, ◌<◌, ◌^◌, IfOk, cond, not, length};
ghost use Rattle.c_core.specs.Types.{fit, is_zero, number_of, width_of};
ghost use Rattle.c_core.specs.View.{program_view};
ghost use Rattle.c_core.specs.declared.number.IntType.TheVariants.{Int};
ghost use Rattle.c_core.specs.declared.number.IntType.TheVariants.{Bool as BoolType};
ghost use Rattle.circuits.specs.Net.{holds, IsIn};
ghost use Rattle.circuits.specs.Numbers.{typed, AreTyped};
ghost use Rattle.circuits.specs.Outcome.{conversion_cost};
ghost use Rattle.sym_state.specs.Standing.{IsState};
ghost use Rattle.sym_values.specs.Valuing.{Reckoned, Decided};

use c_core::{IntType, Program};
use circuits::{Bit, Bits, choose_bits, convert_bits};
use std::alloc::Global;
use sym_state::Sym;
use wv_base::{OutOfMemory, Seq};

/// A value converted to a type.
pub fn convert(
    alloc: Global,
    program: &Program,
    sym: &mut Sym,
    from: IntType,
    to: IntType,
    x: &Bits,
) -> Result<Bits, OutOfMemory>
    requires fits { IsState (program_view program.now) sym.old }
    requires x_in { AreTyped program.now.model from sym.old.net x.now.bits }
    requires room { length sym.old.net < 2 ^ 28 }
    ensures { IfOk result (λ r. Reckoned (program_view program.now) (conversion_cost program.now.model from to) sym.old
        sym.new to r.bits (λ v. fit program.now.model to (typed program.now.model from v sym.old.net x.now.bits))) }
{
    let bits = convert_bits(alloc, &mut sym.net, program.model, from, to, x)?;
    Ok(bits)
}

/// Is a value other than zero?
pub fn test(
    alloc: Global,
    program: &Program,
    sym: &mut Sym,
    ty: IntType,
    x: &Bits,
) -> Result<Bit, OutOfMemory>
    requires fits { IsState (program_view program.now) sym.old }
    requires x_in { AreTyped program.now.model ty sym.old.net x.now.bits }
    requires room { length sym.old.net < 2 ^ 28 }
    ensures { IfOk result (λ r. Decided (program_view program.now) (conversion_cost program.now.model ty BoolType)
        sym.old sym.new r (λ v. not (is_zero (typed program.now.model ty v sym.old.net x.now.bits)))) }
{
    let truth = convert_bits(alloc, &mut sym.net, program.model, ty, IntType::Bool, x)?;
    Ok(truth.bits.as_slice()[0])
}

/// 1 where the bit is true, else 0.
pub fn truth(alloc: Global, program: &Program, sym: &mut Sym, bit: Bit) -> Result<Bits, OutOfMemory>
    requires fits { IsState (program_view program.now) sym.old }
    requires bit_in { IsIn sym.old.net bit }
    requires room { length sym.old.net < 2 ^ 28 }
    ensures { IfOk result (λ r. Reckoned (program_view program.now) 0 sym.old sym.new Int r.bits
        (λ v. number_of (holds v sym.old.net bit))) }
{
    let mut digit = Vec::new(alloc);
    digit.push(bit)?;
    let narrow = Bits {
        bits: Seq::from_vec(digit),
    };
    let bits = convert_bits(
        alloc,
        &mut sym.net,
        program.model,
        IntType::Bool,
        IntType::Int,
        &narrow,
    )?;
    Ok(bits)
}

/// `yes` where the test is true, else `no`.
pub fn choose(
    alloc: Global,
    program: &Program,
    sym: &mut Sym,
    ty: IntType,
    test: Bit,
    yes: &Bits,
    no: &Bits,
) -> Result<Bits, OutOfMemory>
    requires fits { IsState (program_view program.now) sym.old }
    requires test_in { IsIn sym.old.net test }
    requires yes_in { AreTyped program.now.model ty sym.old.net yes.now.bits }
    requires no_in { AreTyped program.now.model ty sym.old.net no.now.bits }
    requires room { length sym.old.net < 2 ^ 28 }
    ensures { IfOk result (λ r. Reckoned (program_view program.now) (4 * width_of program.now.model ty) sym.old sym.new
        ty r.bits (λ v. cond (holds v sym.old.net test) (typed program.now.model ty v sym.old.net yes.now.bits)
        (typed program.now.model ty v sym.old.net no.now.bits))) }
{
    let bits = choose_bits(alloc, &mut sym.net, test, yes, no)?;
    Ok(bits)
}
