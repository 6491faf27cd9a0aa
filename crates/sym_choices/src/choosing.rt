// Which arms of a switch are done: the chosen one, and those after it.
ghost use Rattle.std.specs.Prelude.{◌≡◌, ◌+◌, ◌*◌, ◌<◌, ◌^◌, ◌||◌, IfOk, ℕ, ℤ, Bool, length, map, not as negated};
ghost use Rattle.std.specs.List.{list_any};
ghost use Rattle.c_core.specs.Typing.{labels_in};
ghost use Rattle.c_core.specs.View.{program_view, switch_view};
ghost use Rattle.c_meaning.specs.Run.{is_case};
ghost use Rattle.circuits.specs.Net.{holds, Grown, IsIn, Means};
ghost use Rattle.circuits.specs.Numbers.{AreIn};
ghost use Rattle.sym_state.specs.Standing.{IsState};
ghost use Rattle.sym_values.specs.Valuing.{Decided};
ghost use Rattle.sym_choices.specs.Choosing.{entry_of, AreEntries, Entered};

use c_core::{Arm, Label, Program};
use circuits::{Bit, Net, not};
use std::alloc::Global;
use sym_state::Sym;
use wv_base::OutOfMemory;

// Is one of the bits true?
fn any_of(net: &mut Net, bits: &[Bit]) -> Result<Bit, OutOfMemory>
    requires bits_in { AreIn net.old bits.now }
    requires room { length net.old + length bits.now < 2 ^ 28 }
    ensures { IfOk result (λ r. Grown (length bits.now) net.old net.new
        × Means net.new r (λ v. list_any (λ b. holds v net.old b) bits.now)) }
{
    let mut any = not(net.yes());
    for bit in bits {
        any = net.together(any, *bit)?;
    }
    Ok(any)
}

// Where an arm is entered: at its constant, or as the default of a value that is none of the constants.
fn entry(label: Label, case: Bit, none: Bit) -> Bit
    ensures { result ≡ entry_of label case none }
{
    match label {
        Label::Case(_) => case,
        Label::Default => none,
    }
}

// Arm by arm: is it or one before it the one that is entered?
fn entries(
    alloc: Global,
    net: &mut Net,
    cases: &[Bit],
    none: Bit,
    arms: &[Arm],
) -> Result<Vec<Bit>, OutOfMemory>
    requires many { length cases.now ≡ length arms.now }
    requires cases_in { AreIn net.old cases.now }
    requires none_in { IsIn net.old none }
    requires room { length net.old + length arms.now < 2 ^ 28 }
    ensures { IfOk result (λ r. AreEntries (length arms.now) (labels_in (switch_view arms.now)) cases.now none net.old
        net.new r.items) }
{
    let mut entered = not(net.yes());
    let mut out = Vec::new(alloc);
    for (index, arm) in arms.iter().enumerate() {
        entered = net.together(entered, entry(arm.label, cases[index], none))?;
        out.push(entered)?;
    }
    Ok(out)
}

/// Is the value of a switch none of the constants? The bits are those of the cases, arm by arm.
pub fn no_case(program: &Program, sym: &mut Sym, cases: &[Bit]) -> Result<Bit, OutOfMemory>
    requires fits { IsState (program_view program.now) sym.old }
    requires cases_in { AreIn sym.old.net cases.now }
    requires room { length sym.old.net + length cases.now < 2 ^ 28 }
    ensures { IfOk result (λ r. Decided (program_view program.now) (length cases.now) sym.old sym.new r
        (λ v. negated (list_any (λ b. holds v sym.old.net b) cases.now))) }
{
    let any = any_of(&mut sym.net, cases)?;
    Ok(not(any))
}

/// For each arm of a switch: is it or one before it the chosen one? The bits are those of the cases, arm by arm.
pub fn enter_arms(
    alloc: Global,
    program: &Program,
    sym: &mut Sym,
    cases: &[Bit],
    arms: &[Arm],
) -> Result<Vec<Bit>, OutOfMemory>
    requires fits { IsState (program_view program.now) sym.old }
    requires many { length cases.now ≡ length arms.now }
    requires cases_in { AreIn sym.old.net cases.now }
    requires room { length sym.old.net + 2 * length arms.now < 2 ^ 28 }
    ensures { IfOk result (λ r. (w : (ℕ → Bool) → ℤ)
        → ((v : ℕ → Bool) → map (holds v sym.old.net) cases.now
        ≡ map (is_case (w v)) (labels_in (switch_view arms.now)))
        → Entered (program_view program.now) (2 * length arms.now) (labels_in (switch_view arms.now)) w sym.old sym.new
        r.items) }
{
    let any = any_of(&mut sym.net, cases)?;
    let bits = entries(alloc, &mut sym.net, cases, not(any), arms)?;
    Ok(bits)
}
