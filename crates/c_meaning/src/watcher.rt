ghost use Rattle.std.specs.Prelude.{◌≡◌, true, false, List, Some, IsOk, OnOk, OnErr};
ghost use Rattle.c_meaning.specs.Watching.{event_spot};

use crate::memory::Memory;
use crate::run::Event;
use c_core::Spot;
use wv_base::OutOfMemory;

/// The place of an event; a failure has none of its own.
#[inline(always)]
pub fn event_spot(event: &Event) -> Option<Spot>
    ensures { result ≡ event_spot event.now }
{
    match event {
        Event::At(spot) => Some(*spot),
        Event::Branch(spot, _) => Some(*spot),
        Event::Enter(close) => Some(*close),
        Event::Return(close, _) => Some(*close),
        Event::Fail { .. } => None,
    }
}

/// Whoever sees the events of a run.
pub trait Watcher {
    ghost use Rattle.std.specs.Prelude.{List};
    ghost use Rattle.c_core.specs.declared.number.Spot.{Spot};
    ghost use Rattle.c_meaning.specs.Cells.{Cell};
    ghost use Rattle.c_meaning.specs.declared.run.Event.{Event};

    /// What contracts see of a watcher.
    ghost Seen: { Type 0 };

    ghost seen: { Self → Seen };

    /// What follows at an event with the live cells of that moment.
    ghost after: { Event → List Cell → Seen → Seen };

    /// A proposition under which `see` of this type never wants memory: `Unit {0}` where it never does, `⊥` where it
    /// may.
    ghost sure: { Type 0 };

    fn see(&mut self, event: Event, memory: &Memory) -> Result<(), OutOfMemory>
        ensures ok { OnOk result (seen self.new ≡ after event memory.now.cells (seen self.old)) }
        ensures refused { OnErr result (seen self.new ≡ seen self.old) }
        ensures succeeds { sure → IsOk result };

    /// Takes an event by its place alone, where whatever else the event is, and whichever cells are live, makes no
    /// difference; `false` where it may, and then nothing has changed.
    fn skips(&mut self, spot: Spot) -> bool
        ensures taken { result ≡ true → (event : Event) (cells : List Cell) → event_spot event ≡ Some spot
            → seen self.new ≡ after event cells (seen self.old) }
        ensures kept { result ≡ false → seen self.new ≡ seen self.old };
}
