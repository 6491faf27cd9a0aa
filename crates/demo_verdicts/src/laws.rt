// Laws, each the contract of a function that says nothing else.
ghost use Rattle.std.specs.Prelude.{◌≤◌, ℕ};
ghost use Rattle.c_core.specs.declared.number.DataModel.TheVariants.{Ilp32};
ghost use Rattle.c_core.specs.declared.number.Property.TheVariants.{UnreachCall};
ghost use Rattle.demo_verdicts.specs.Confirming.{ConfirmsDemo, IsConfirmed, IsVerdict};
ghost use Rattle.witval.specs.Demos.{IsDemonstration};
ghost use Rattle.witval.specs.declared.demonstration.Demonstration.{Demonstration};
ghost use Rattle.witval.specs.Purposes.{ToJudge};
ghost use Rattle.witval.specs.declared.output.Output.TheVariants.{Report};
ghost use Rattle.witval.specs.inside.Rests.{RightOnText};
ghost use Rattle.wv_arguments.specs.Words.{Budgets};
ghost use Rattle.wv_author.specs.Demo.{AreWithin, demo_of};
ghost use Rattle.wv_author.specs.Programs.{correct_program, faulty_program};
ghost use Rattle.wv_author.specs.Witnesses.{invariants, violation};
ghost use Rattle.wv_report.specs.declared.reply.Reply.{Reply};

use c_tokens::one_outcome;
use demo_binding::{sets_are_bound, sets_can_be_judged, violations_are_bound};
use demo_checks::demos_are_checked;
use demo_laws::{demos_are_parsed, demos_are_tokens, demos_have_bounds};
use demo_run::{demos_are_confirmed, demos_are_typed};

/// From the tokens on no stage refuses a demo: the reply to the correct program of a number, with its invariants, is a
/// verdict.
pub fn correct_demos_are_judged()
    ensures { (n : ℕ) (budgets : Budgets) (reply : Reply) → AreWithin (demo_of n) →
        RightOnText (ToJudge budgets) UnreachCall (correct_program n) (invariants n (correct_program n)) Ilp32
        (Report reply) → IsVerdict reply }
{
    one_outcome();
    demos_have_bounds();
    demos_are_tokens();
    demos_are_parsed();
    demos_are_checked();
    demos_are_typed();
    sets_are_bound();
    sets_can_be_judged();
}

/// So is the reply to the faulty program, with its violation witness. With 100,000 steps or more it confirms the
/// violation, and the number is the one value that is drawn.
pub fn faulty_demos_are_confirmed()
    ensures judged { (n : ℕ) (budgets : Budgets) (reply : Reply) → n ≤ 999999 → AreWithin (demo_of n) →
        RightOnText (ToJudge budgets) UnreachCall (faulty_program n) (violation n (faulty_program n)) Ilp32
        (Report reply) → IsVerdict reply }
    ensures confirmed { (n : ℕ) (budgets : Budgets) (reply : Reply) → n ≤ 999999 → AreWithin (demo_of n) → 100000
        ≤ budgets.steps →
        RightOnText (ToJudge budgets) UnreachCall (faulty_program n) (violation n (faulty_program n)) Ilp32
        (Report reply) → ConfirmsDemo n reply }
{
    one_outcome();
    demos_have_bounds();
    demos_are_tokens();
    demos_are_parsed();
    demos_are_checked();
    demos_are_typed();
    violations_are_bound();
    demos_are_confirmed();
}

/// So what the mode `demo` prints of a number is two verdicts: no refusal applies to its programs and witnesses, and
/// with 100,000 steps or more the second confirms the violation.
pub fn demonstrations_are_confirmed()
    ensures { (n : ℕ) (budgets : Budgets) (demo : Demonstration) → n ≤ 999999 → IsDemonstration n budgets demo
        → IsConfirmed n budgets demo }
{
    demos_have_bounds();
    correct_demos_are_judged();
    faulty_demos_are_confirmed();
}
