// Events: at a statement, at a call, at a branching.
ghost use Rattle.std.specs.Prelude.{◌≡◌, ◌+◌, ◌<◌, ◌^◌, IfOk, Some, length};
ghost use Rattle.std.specs.List.{All};
ghost use Rattle.c_core.specs.Typing.{labels_in};
ghost use Rattle.c_core.specs.View.{switch_view};
ghost use Rattle.c_meaning.specs.declared.run.Event.TheVariants as event;
ghost use Rattle.c_meaning.specs.declared.run.Way.TheVariants.{Truth};
ghost use Rattle.c_meaning.specs.Run.{way_for};
ghost use Rattle.circuits.specs.Net.{holds, Means, IsIn};
ghost use Rattle.circuits.specs.Numbers.{typed, AreIn, AreTyped};
ghost use Rattle.seek_passes.specs.Charges.{told_weight};
ghost use Rattle.seek_passes.specs.Event.{AreCasesOf};
ghost use Rattle.seek_passes.specs.Passing.{IsSegment, CanTell};
ghost use Rattle.seek_passes.specs.Telling.{Tells};
ghost use Rattle.sym_state.specs.Standing.{IsState, Turned};
ghost use Rattle.sym_state.specs.Telling.{telling};
ghost use Rattle.way_match.specs.View.{each_segment_view};
ghost use Rattle.sym_walk.specs.Hooks.{Begins, IsReady, IsTold, ComesBack, has_given};
ghost use Rattle.sym_walk.specs.Walking.{program_of, mode_of, IsWalk};

use crate::walk::{Judging, Walk};
use c_core::{Arm, IntType, Spot};
use c_meaning::DutyKind;
use circuits::{Bit, Bits, Net, not};
use seek_passes::SymEvent;
use sym_choices::no_case;
use sym_invariants::{Obliged, test_all};
use sym_state::Sym;
use way_match::BoundSegment;
use wv_base::OutOfMemory;

// An event is told to the segments of a witness. There is a bit for each from the start on; were there not, it would be
// answered as out of memory.
fn follow(
    walk: &Walk,
    sym: &mut Sym,
    segments: &[BoundSegment],
    event: &SymEvent,
) -> Result<(), OutOfMemory>
    requires segments { All (IsSegment (program_of walk.now)) (each_segment_view segments.now) }
    requires ready { CanTell (program_of walk.now) event.now sym.old
        (told_weight (program_of walk.now) event.now (each_segment_view segments.now)) }
    ensures { IfOk result (λ r. Tells (program_of walk.now) (each_segment_view segments.now) event.now sym.old
        sym.new) }
{
    if sym.completed.len() != segments.len() {
        return Err(OutOfMemory);
    }
    seek_passes::tell(walk.alloc, walk.program, sym, segments, event)?;
    Ok(())
}

/// A statement at a place is about to be done: its invariants are tested, or its event is told.
pub fn begin(walk: &Walk, sym: &mut Sym, spot: Spot) -> Result<(), OutOfMemory>
    requires walk { IsWalk walk.now }
    requires fits { IsState (program_of walk.now) sym.old }
    requires room { length sym.old.net + (mode_of walk.now).scale.statement spot < 2 ^ 27 }
    ensures { IfOk result (λ r. Begins (program_of walk.now) (mode_of walk.now) spot sym.old sym.new) }
{
    match walk.mode {
        Judging::Obliges(mode) => {
            let obliged = Obliged {
                alloc: walk.alloc,
                program: walk.program,
                mode,
            };
            test_all(&obliged, sym, false, spot, DutyKind::Location)?;
            Ok(())
        }
        Judging::Seeks(mode) => {
            let event = SymEvent::At(spot);
            follow(walk, sym, mode.segments, &event)?;
            Ok(())
        }
    }
}

// An event of all runs that are here. Obligations follow none.
fn tell(walk: &Walk, sym: &mut Sym, event: &SymEvent) -> Result<(), OutOfMemory>
    requires walk { IsWalk walk.now }
    requires ready { IsReady (program_of walk.now) (mode_of walk.now) event.now sym.old }
    ensures { IfOk result (λ r. IsTold (program_of walk.now) (mode_of walk.now) event.now sym.old sym.new) }
{
    match walk.mode {
        Judging::Obliges(mode) => Ok(()),
        Judging::Seeks(mode) => {
            follow(walk, sym, mode.segments, event)?;
            Ok(())
        }
    }
}

/// A call begins, at its closing parenthesis.
pub fn tell_enter(walk: &Walk, sym: &mut Sym, close: Spot) -> Result<(), OutOfMemory>
    requires walk { IsWalk walk.now }
    requires fits { IsState (program_of walk.now) sym.old }
    requires room { length sym.old.net + (mode_of walk.now).scale.enters close < 2 ^ 27 }
    ensures { IfOk result (λ r. Turned (program_of walk.now) ((mode_of walk.now).scale.enters close) 0 sym.old sym.new
        (λ v. telling (mode_of walk.now) (event.Enter close))) }
{
    let event = SymEvent::Enter(close);
    tell(walk, sym, &event)?;
    Ok(())
}

/// A controlling expression, or the test of `?:`, has this truth value.
pub fn tell_branch(walk: &Walk, sym: &mut Sym, spot: Spot, truth: Bit) -> Result<(), OutOfMemory>
    requires walk { IsWalk walk.now }
    requires fits { IsState (program_of walk.now) sym.old }
    requires truth_in { IsIn sym.old.net truth }
    requires room { length sym.old.net + (mode_of walk.now).scale.test spot < 2 ^ 27 }
    ensures { IfOk result (λ r. Turned (program_of walk.now) ((mode_of walk.now).scale.test spot) 0 sym.old sym.new
        (λ v. telling (mode_of walk.now) (event.Branch spot (Truth (holds v sym.old.net truth))))) }
{
    let event = SymEvent::Branch(spot, truth);
    tell(walk, sym, &event)?;
    Ok(())
}

/// A call came back with the value of the bits, in their type.
pub fn tell_value(
    walk: &Walk,
    sym: &mut Sym,
    close: Spot,
    ty: IntType,
    bits: &Bits,
) -> Result<(), OutOfMemory>
    requires walk { IsWalk walk.now }
    requires fits { IsState (program_of walk.now) sym.old }
    requires bits_in { AreTyped walk.now.program.now.model ty sym.old.net bits.now.bits }
    requires room { length sym.old.net + (mode_of walk.now).scale.returns close < 2 ^ 27 }
    ensures { IfOk result (λ r. Turned (program_of walk.now) ((mode_of walk.now).scale.returns close) 0 sym.old sym.new
        (λ v. telling (mode_of walk.now)
        (event.Return close (Some (typed walk.now.program.now.model ty v sym.old.net bits.now.bits))))) }
{
    let gave = sym.net.yes();
    let event = SymEvent::Return {
        close,
        ty,
        bits,
        gave,
    };
    tell(walk, sym, &event)?;
    Ok(())
}

// Where a function of this result gave a value: a void one gives none.
fn given(net: &Net, gives: Option<IntType>, gave: Bit) -> Bit
    requires { IsIn net.now gave }
    ensures { Means net.now result (λ v. has_given gives (holds v net.now gave)) }
{
    match gives {
        Some(_) => gave,
        None => not(net.yes()),
    }
}

/// A call of a function of this result came back: where `gave` is true with the value of the bits, in their type, if it
/// isn't a void one.
pub fn tell_return(
    walk: &Walk,
    sym: &mut Sym,
    close: Spot,
    gives: Option<IntType>,
    ty: IntType,
    bits: &Bits,
    gave: Bit,
) -> Result<(), OutOfMemory>
    requires walk { IsWalk walk.now }
    requires fits { IsState (program_of walk.now) sym.old }
    requires bits_in { AreTyped walk.now.program.now.model ty sym.old.net bits.now.bits }
    requires gave_in { IsIn sym.old.net gave }
    requires room { length sym.old.net + (mode_of walk.now).scale.returns close < 2 ^ 27 }
    ensures { IfOk result (λ r. ComesBack (program_of walk.now) (mode_of walk.now) close gives ty bits.now.bits gave
        sym.old sym.new) }
{
    let gave = given(&sym.net, gives, gave);
    let event = SymEvent::Return {
        close,
        ty,
        bits,
        gave,
    };
    tell(walk, sym, &event)?;
    Ok(())
}

/// A `switch` has the value of the bits, in its promoted type. The bits of the cases say arm by arm whether it is the
/// arm's constant. Whether it is none of them costs a node for each arm, where that is asked.
pub fn tell_choice(
    walk: &Walk,
    sym: &mut Sym,
    spot: Spot,
    ty: IntType,
    value: &Bits,
    arms: &[Arm],
    cases: &[Bit],
) -> Result<(), OutOfMemory>
    requires walk { IsWalk walk.now }
    requires fits { IsState (program_of walk.now) sym.old }
    requires value_in { AreTyped walk.now.program.now.model ty sym.old.net value.now.bits }
    requires cases_in { AreIn sym.old.net cases.now }
    requires are_cases { AreCasesOf sym.old.net cases.now arms.now
        (λ v. typed walk.now.program.now.model ty v sym.old.net value.now.bits) }
    requires room { length sym.old.net + (length cases.now + (mode_of walk.now).scale.test spot) < 2 ^ 27 }
    ensures { IfOk result (λ r. Turned (program_of walk.now) (length cases.now + (mode_of walk.now).scale.test spot) 0
        sym.old sym.new (λ v. telling (mode_of walk.now) (event.Branch spot (way_for
        (typed walk.now.program.now.model ty v sym.old.net value.now.bits) (labels_in (switch_view arms.now)))))) }
{
    match walk.mode {
        Judging::Obliges(mode) => Ok(()),
        Judging::Seeks(mode) => {
            let none = no_case(walk.program, sym, cases)?;
            let event = SymEvent::Select {
                spot,
                ty,
                value,
                arms,
                cases,
                none,
            };
            follow(walk, sym, mode.segments, &event)?;
            Ok(())
        }
    }
}
