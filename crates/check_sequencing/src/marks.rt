ghost use Rattle.std.specs.Prelude.{◌≡◌, ◌≤◌, ◌<◌, ℕ, Bool, true, false, length, IfOk, Some, slice_get};
ghost use Rattle.std.specs.List.{list_any};
ghost use Rattle.check_sequencing.specs.Effects.{AreMarks, AreSound, AreClosed, IsClosedAt, unmarked, Does, IsBody, calls_marked, changes, does_by, is_marked, touches, wanted};

use crate::effect::Effect;
use std::alloc::Global;
use wv_base::{OutOfMemory, Seq};

/// Whether an effect changes an object.
pub fn changes(effect: Effect, object: u32) -> bool
    ensures { result ≡ changes object effect }
{
    match effect {
        Effect::Changes(changed) => changed == object,
        _ => false,
    }
}

/// Whether an effect reads or changes an object.
pub fn touches(effect: Effect, object: u32) -> bool
    ensures { result ≡ touches object effect }
{
    match effect {
        Effect::Reads(read) => read == object,
        _ => changes(effect, object),
    }
}

/// Whether an effect changes an object, or touches it where reads count too.
fn is_wanted(effect: Effect, only_changes: bool, object: u32) -> bool
    ensures { result ≡ wanted only_changes object effect }
{
    if only_changes {
        changes(effect, object)
    } else {
        touches(effect, object)
    }
}

/// Whether a function is marked.
pub fn is_marked(marks: &[bool], function: u32) -> bool
    ensures { result ≡ is_marked marks.now function }
{
    marks.get(function as usize).copied().unwrap_or(false)
}

fn calls_marked(marks: &[bool], effect: Effect) -> bool
    ensures { result ≡ calls_marked marks.now effect }
{
    match effect {
        Effect::Calls(function) => is_marked(marks, function),
        _ => false,
    }
}

/// Whether a body does so by itself, or by a call of a marked function.
fn does_by(marks: &[bool], body: &[Effect], only_changes: bool, object: u32) -> bool
    ensures { result ≡ does_by marks.now (wanted only_changes object) body.now }
{
    body.iter().any(|effect| is_wanted(*effect, only_changes, object)
        || calls_marked(marks, *effect))
}

/// Marks a function that does so by the marks so far; says whether it was added.
fn visit(
    bodies: &[Seq<Effect>],
    marks: &mut [bool],
    function: usize,
    only_changes: bool,
    object: u32,
) -> bool
    requires function { function < length bodies.now }
    requires length { length marks.old ≡ length bodies.now }
    ensures length { length marks.new ≡ length marks.old }
    ensures sound { AreSound bodies.now (wanted only_changes object) marks.old
        → AreSound bodies.now (wanted only_changes object) marks.new }
    ensures same { result ≡ false → marks.new ≡ marks.old }
    ensures closed { result ≡ false → IsClosedAt bodies.now (wanted only_changes object) marks.old function }
    ensures fewer { unmarked marks.new ≤ unmarked marks.old }
    ensures fewer_yet { result ≡ true → unmarked marks.new < unmarked marks.old }
{
    if marks[function] || !does_by(marks, bodies[function].as_slice(), only_changes, object) {
        return false;
    }
    marks[function] = true;
    true
}

/// Visits the functions in their order; says whether a mark was added.
fn sweep_up(bodies: &[Seq<Effect>], marks: &mut [bool], only_changes: bool, object: u32) -> bool
    requires { length marks.old ≡ length bodies.now }
    ensures length { length marks.new ≡ length marks.old }
    ensures sound { AreSound bodies.now (wanted only_changes object) marks.old
        → AreSound bodies.now (wanted only_changes object) marks.new }
    ensures closed { result ≡ false → AreClosed bodies.now (wanted only_changes object) marks.new }
    ensures fewer { result ≡ true → unmarked marks.new < unmarked marks.old }
{
    let mut is_more = false;
    for function in 0..bodies.len() {
        if visit(bodies, marks, function, only_changes, object) {
            is_more = true;
        }
    }
    is_more
}

/// The same in the reverse order, for functions that call later ones.
fn sweep_down(bodies: &[Seq<Effect>], marks: &mut [bool], only_changes: bool, object: u32)
    requires { length marks.old ≡ length bodies.now }
    ensures length { length marks.new ≡ length marks.old }
    ensures sound { AreSound bodies.now (wanted only_changes object) marks.old
        → AreSound bodies.now (wanted only_changes object) marks.new }
    ensures fewer { unmarked marks.new ≤ unmarked marks.old }
{
    for function in (0..bodies.len()).rev() {
        visit(bodies, marks, function, only_changes, object);
    }
}

/// Adds marks until nothing more is to be added.
fn mark_all(bodies: &[Seq<Effect>], marks: &mut [bool], only_changes: bool, object: u32)
    requires length { length marks.old ≡ length bodies.now }
    requires sound { AreSound bodies.now (wanted only_changes object) marks.old }
    ensures length { length marks.new ≡ length marks.old }
    ensures marks { AreMarks bodies.now (wanted only_changes object) marks.new }
{
    while sweep_up(bodies, marks, only_changes, object) {
        sweep_down(bodies, marks, only_changes, object);
    }
}

/// The marks of the functions that change an object, themselves or through calls, or that touch it.
#[tactic(auto, using(crate::proofs::MarkLaws::written_back, crate::proofs::MarkLaws::none_marked))]
pub fn marks_of(
    alloc: Global,
    bodies: &[Seq<Effect>],
    only_changes: bool,
    object: u32,
) -> Result<Vec<bool>, OutOfMemory>
    ensures { IfOk result (λ marks. AreMarks bodies.now (wanted only_changes object) marks.items) }
{
    let mut marks = Vec::new(alloc);
    marks.resize(bodies.len(), false)?;
    mark_all(bodies, &mut marks, only_changes, object);
    Ok(marks)
}
