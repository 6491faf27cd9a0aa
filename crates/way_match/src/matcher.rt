ghost use Rattle.std.specs.Prelude.{◌≡◌, List, IfOk};
ghost use Rattle.c_core.specs.View.{program_view};
ghost use Rattle.c_core.specs.declared.program.Program.{Program};
ghost use Rattle.way_match.specs.Matching.{Seen, Finds};
ghost use Rattle.way_match.specs.inside.Steps.{Matching, begun, after, after_all, last_way, positions_of};
ghost use Rattle.way_match.specs.View.{segments_view};
ghost use Rattle.way_match.specs.declared.point.Bound.{Bound};

use crate::avoided::Avoids;
use crate::by_place::ByPlace;
use crate::point::{Bound, BoundSegment};
use crate::prepared::{Prepared, prepare};
use crate::states::{States, fill};
use c_core::{Program, Spot};
use c_meaning::{Event, Memory, Watcher};
use std::alloc::Global;
use std::marker::Model;
use way_places::Index;
use wv_base::{OutOfMemory, Seq};

// No segment is completed at first, so the first one's waypoints to avoid are asked about.
fn first_avoids(segments: &[BoundSegment]) -> usize {
    match segments.get(0) {
        Some(segment) => segment.avoids.len(),
        None => 0,
    }
}

/// Sees the events of a run and keeps which segments some fitting positions among them have completed.
#[derive(Drop)]
pub struct Matcher<'a> {
    program: &'a Program,
    bound: &'a Bound,
    prepared: Seq<Prepared>,
    by_place: ByPlace,
    avoids: Avoids,
    states: States,
    room: Vec<u64>,
    count: u64,
}

impl<'a> Model for Matcher<'a> {
    ghost use Rattle.c_core.specs.View.{program_view};
    ghost use Rattle.way_match.specs.inside.Arena.{ways_of};
    ghost use Rattle.way_match.specs.inside.Shape.{Shaped};
    ghost use Rattle.way_match.specs.inside.Steps.{Matching};
    ghost use Rattle.std.specs.Coded.{codes};
    ghost use Rattle.c_core.specs.contracts.tree.Expr as expression;
    ghost use Rattle.c_core.specs.contracts.tree.Stmt as statement;

    ghost Value = { Matching };

    ghost coded = { Prim.hlevel (codes, expression.the_row.coded, statement.the_row.coded) };

    ghost view = { λ m. record { program = m.program.now; bound = m.bound.now; count = m.count; ways = ways_of m.states.nodes.items 0 m.states.live.items } };

    ghost invariant = { λ m. Shaped (program_view m.program.now) m.bound.now.segments m.prepared m.by_place m.avoids m.states m.room.items };
}

impl<'a> Matcher<'a> {
    /// Before all events of an indexed program.
    pub fn new(
        alloc: Global,
        bound: &'a Bound,
        places: &Index<'a>,
    ) -> Result<Matcher<'a>, OutOfMemory>
        ensures { IfOk result (λ m. m ≡ begun places.now bound.now) }
    {
        let segments = bound.segments.as_slice();
        let mut room = Vec::new(alloc);
        for _ in segments {
            room.push(0)?;
        }
        Ok(Matcher {
            program: places.program(),
            bound,
            prepared: prepare(alloc, places, segments)?,
            by_place: ByPlace::of(alloc, segments)?,
            avoids: Avoids::of(alloc, segments)?,
            states: States::new(alloc, segments.len(), first_avoids(segments))?,
            room,
            count: 0,
        })
    }

    /// Positions that match the events seen, exactly where some do. It takes no memory.
    pub fn done(self) -> Option<Seq<u64>>
        ensures answer { result ≡ positions_of (last_way self.entry.ways) }
        ensures exact { (p : Program) (b : Bound) (es : List Seen) → self.entry ≡ after_all (begun p b) es
            → Finds (program_view p) (segments_view b) es result }
    {
        let Matcher {
            states,
            mut room,
            ..
        } = self;
        match states.live[room.len()] {
            Some(last) => {
                fill(states.nodes.as_slice(), last, room.as_mut_slice());
                Some(Seq::from_vec(room))
            }
            None => None,
        }
    }
}

impl<'a> Watcher for Matcher<'a> {
    ghost Seen = { Matching };

    ghost seen = { λ m. m };

    ghost after = { after };

    // it takes memory
    ghost sure = { ⊥ };

    fn see(&mut self, event: Event, memory: &Memory) -> Result<(), OutOfMemory> {
        // A number that no u64 holds can't be kept.
        let Some(count) = self.count.checked_add(1) else {
            return Err(OutOfMemory);
        };
        self.states.pass(
            self.program,
            self.bound.segments.as_slice(),
            self.prepared.as_slice(),
            &self.by_place,
            &self.avoids,
            event,
            memory,
            self.count,
        )?;
        self.count = count;
        Ok(())
    }

    #[inline]
    fn skips(&mut self, spot: Spot) -> bool {
        let Some(count) = self.count.checked_add(1) else {
            return false;
        };
        if self.by_place.is_watched(spot) {
            return false;
        }
        self.states.pass_by();
        self.count = count;
        true
    }
}
