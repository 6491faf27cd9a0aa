// The arms of a `switch`, chosen by their labels.
ghost use Rattle.std.specs.Prelude.{◌≡◌, MatchOption, false};
ghost use Rattle.std.specs.List.{list_any};
ghost use Rattle.c_core.specs.Typing.{is_default, labels_in};
ghost use Rattle.c_core.specs.View.{program_view, switch_view};
ghost use Rattle.c_meaning.specs.Run.{arm_for as arm_for_of, first_label, is_case};
ghost use Rattle.run_state.specs.Choosing.{IsFirstCase};
ghost use Rattle.run_state.specs.Interpreting.{Gives, same, state_of, selecting};

use crate::machine::{Halt, Machine};
use crate::steps::tell;
use c_core::{Arm, Label, Program, Spot};
use c_meaning::{Event, Watcher, Way};

fn has_constant(label: Label, value: i128) -> bool
    ensures { result ≡ is_case value label }
{
    match label {
        Label::Case(constant) => value == constant,
        Label::Default => false,
    }
}

fn is_other(label: Label) -> bool
    ensures { result ≡ is_default label }
{
    match label {
        Label::Case(_) => false,
        Label::Default => true,
    }
}

// The number of the first arm whose constant is the value, if any.
fn case_arm(value: i128, arms: &[Arm]) -> Option<usize>
    ensures { MatchOption result (list_any (is_case value) (labels_in (switch_view arms.now)) ≡ false)
        (IsFirstCase value (labels_in (switch_view arms.now))) }
{
    for (number, arm) in arms.iter().enumerate() {
        if has_constant(arm.label, value) {
            return Some(number);
        }
    }
    None
}

// The number of the `default` arm, or of the arms where there is none.
fn default_arm(arms: &[Arm]) -> usize
    ensures { result ≡ first_label is_default (labels_in (switch_view arms.now)) }
{
    for (number, arm) in arms.iter().enumerate() {
        if is_other(arm.label) {
            return number;
        }
    }
    arms.len()
}

/// The number of the arm that a value chooses, or of the arms where it chooses none.
pub fn arm_for(value: i128, arms: &[Arm]) -> usize
    ensures { result ≡ arm_for_of value (labels_in (switch_view arms.now)) }
{
    match case_arm(value, arms) {
        Some(number) => number,
        None => default_arm(arms),
    }
}

/// The number of the arm that a value chooses, reported as a branching.
pub fn select<W: Watcher>(
    program: &Program,
    machine: &Machine,
    watcher: &mut W,
    spot: Spot,
    value: i128,
    arms: &[Arm],
) -> Result<usize, Halt>
    ensures gives { Gives same result (state_of machine.now (W.seen watcher.new))
        (selecting (program_view program.now) W.Seen W.after spot value (labels_in (switch_view arms.now))
        (state_of machine.now (W.seen watcher.old))) }
{
    match case_arm(value, arms) {
        Some(number) => {
            tell(machine, watcher, Event::Branch(spot, Way::Case(value)))?;
            Ok(number)
        }
        None => {
            tell(machine, watcher, Event::Branch(spot, Way::Default))?;
            Ok(default_arm(arms))
        }
    }
}
