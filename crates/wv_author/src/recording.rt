// What is kept of a run's events: the inputs that come back, and where the property is violated.
ghost use Rattle.std.specs.Prelude.{◌≡◌, ◌++◌, OnOk, OnErr, is_some};
ghost use Rattle.c_core.specs.Places.{input_at};
ghost use Rattle.c_core.specs.View.{program_view};
ghost use Rattle.author_runs.specs.Returning.{back_at, back_by, violated_in};
ghost use Rattle.wv_author.specs.inside.Recording.{kept_if};

use c_core::Spot;
use c_meaning::{Event, Memory, Watcher};
use way_places::{Index, input_of};
use wv_base::OutOfMemory;

/// An input came back: the closing parenthesis of its call, and the value.
#[derive(Clone, Copy, Debug)]
pub struct Returned {
    pub close: Spot,
    pub value: i128,
}

/// Keeps what a violation witness fixes of a run.
#[derive(Drop)]
pub struct Recorder<'a> {
    pub places: Index<'a>,
    pub returned: Vec<Returned>,
    /// Of the last violation.
    pub statement: Option<Spot>,
}

/// Whether an input call ends there.
fn is_input_end(places: &Index<'_>, close: Spot) -> bool
    ensures { result ≡ is_some (input_at (program_view places.now) close) }
{
    match places.call_at(close) {
        Some(call) => input_of(call).is_some(),
        None => false,
    }
}

/// The input that comes back there, if it is one.
#[tactic(auto, using(crate::proofs::Recorded::pushed, crate::proofs::Recorded::passed))]
fn push_input(
    places: &Index<'_>,
    list: &mut Vec<Returned>,
    close: Spot,
    value: i128,
) -> Result<(), OutOfMemory>
    ensures pushed { OnOk result (list.new.items
        ≡ list.old.items ++ kept_if (back_at close value (input_at (program_view places.now) close))) }
    ensures refused { OnErr result (list.new.items ≡ list.old.items) }
{
    if is_input_end(places, close) {
        list.push(Returned { close, value })?;
    }
    Ok(())
}

/// The input that an event brings back, if it does.
fn push_returned(
    places: &Index<'_>,
    list: &mut Vec<Returned>,
    event: Event,
) -> Result<(), OutOfMemory>
    ensures pushed { OnOk result (list.new.items
        ≡ list.old.items ++ kept_if (back_by (program_view places.now) event)) }
    ensures refused { OnErr result (list.new.items ≡ list.old.items) }
{
    match event {
        Event::Return(close, Some(value)) => push_input(places, list, close, value),
        Event::Return(_, None) => Ok(()),
        Event::At(_) => Ok(()),
        Event::Branch(_, _) => Ok(()),
        Event::Enter(_) => Ok(()),
        Event::Fail { .. } => Ok(()),
    }
}

/// The statement of the violation that an event reports, or else of one before.
fn violated_in(event: Event, before: Option<Spot>) -> Option<Spot>
    ensures { result ≡ violated_in event before }
{
    match event {
        Event::Fail { statement, .. } => Some(statement),
        _ => before,
    }
}

impl<'a> Watcher for Recorder<'a> {
    ghost use Rattle.wv_author.specs.inside.Recording.{Recorded, after_event};

    ghost Seen = { Recorded };

    ghost seen = { λ r. record { program = r.places; returned = r.returned.items; statement = r.statement } };

    ghost after = { after_event };

    // it takes memory
    ghost sure = { ⊥ };

    fn see(&mut self, event: Event, _memory: &Memory) -> Result<(), OutOfMemory> {
        push_returned(&self.places, &mut self.returned, event)?;
        self.statement = violated_in(event, self.statement);
        Ok(())
    }

    // no event is left out
    fn skips(&mut self, _spot: Spot) -> bool {
        false
    }
}
