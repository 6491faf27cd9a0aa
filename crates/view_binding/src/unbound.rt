// Waypoints and invariants that aren't bound to the program: the one that the reply tells, and those behind it.
use crate::binding::{explain_claim, number_in};
use crate::claim::{claim_of_invariant, claim_of_waypoint};
use crate::faults::Faults;
use crate::few::segments_of;
use crate::invariants::invariant_numbered;
use c_core::Program;
use std::alloc::Global;
use view_paths::{invariant_path, places_in, waypoint_path};
use view_runs::{Numbered, waypoint_at};
use view_text::{File, Files, Messages};
use way_bind::{BindFault, Lookup};
use wv_base::OutOfMemory;
use wv_schema::{Content, Invariant, Segment, Waypoint, Witness};

/// So many claims are shown beside the first.
const MOST: usize = 49;

/// For how many claims beside the first a place is looked for in a witness.
fn sought_in(text: &[u8]) -> usize {
    places_in(text).saturating_sub(1)
}

/// The path of a claim whose place is looked for; empty else.
fn path_if(is_sought: bool, path: &str) -> &str {
    if is_sought { path } else { "" }
}

/// What there is to say of the waypoint in a fault.
fn explain_waypoint(
    alloc: Global,
    files: &Files<'_>,
    lookup: &Lookup,
    witness: &Witness,
    fault: BindFault,
    is_sought: bool,
    out: &mut Messages,
) -> Result<(), OutOfMemory> {
    let number = number_in(fault)?;
    let Some(path) = waypoint_path(alloc, witness, number)? else {
        return Ok(());
    };
    match waypoint_at(segments_of(witness), number) {
        Some(found) => {
            let path = path_if(is_sought, path.as_str());
            let claim = claim_of_waypoint(number, found, path);
            explain_claim(alloc, files, &lookup.index, fault, &claim, out)
        }
        None => Ok(()),
    }
}

/// What there is to say of the invariant in a fault.
fn explain_invariant(
    alloc: Global,
    files: &Files<'_>,
    lookup: &Lookup,
    witness: &Witness,
    fault: BindFault,
    is_sought: bool,
    out: &mut Messages,
) -> Result<(), OutOfMemory> {
    let number = number_in(fault)?;
    let Some(path) = invariant_path(alloc, witness, number)? else {
        return Ok(());
    };
    let Some(invariant) = invariant_numbered(witness, number) else {
        return Ok(());
    };
    let path = path_if(is_sought, path.as_str());
    let claim = claim_of_invariant(number, invariant, path);
    explain_claim(alloc, files, &lookup.index, fault, &claim, out)
}

/// Claims in their order, of which those behind a number are looked at.
#[derive(Drop)]
struct Walk<'l, 'p> {
    alloc: Global,
    lookup: &'l Lookup<'p>,
    /// The number of the claim that is told by the reply.
    told: u32,
    number: u32,
    faults: Faults,
}

impl<'l, 'p> Walk<'l, 'p> {
    fn pass_waypoint(&mut self, waypoint: &Waypoint, is_follow: bool) -> Result<(), OutOfMemory> {
        self.number = self.number.saturating_add(1);
        if self.number <= self.told {
            return Ok(());
        }
        let found = Numbered {
            waypoint,
            is_follow,
        };
        let claim = claim_of_waypoint(self.number, found, "");
        self.faults.look(self.alloc, self.lookup, &claim)
    }

    fn pass_segment(&mut self, segment: &Segment) -> Result<(), OutOfMemory> {
        for waypoint in segment.avoids.as_slice() {
            self.pass_waypoint(waypoint, false)?;
        }
        self.pass_waypoint(&segment.follow, true)
    }

    fn pass_segments(&mut self, segments: &[Segment]) -> Result<(), OutOfMemory> {
        for segment in segments {
            self.pass_segment(segment)?;
        }
        Ok(())
    }

    fn pass_invariants(&mut self, set: &[Invariant]) -> Result<(), OutOfMemory> {
        for invariant in set {
            self.number = self.number.saturating_add(1);
            if self.number > self.told {
                let claim = claim_of_invariant(self.number, invariant, "");
                self.faults.look(self.alloc, self.lookup, &claim)?;
            }
        }
        Ok(())
    }
}

/// The claims behind the one of a number that aren't bound either.
fn faults_behind(
    alloc: Global,
    lookup: &Lookup,
    witness: &Witness,
    told: u32,
) -> Result<Faults, OutOfMemory> {
    let mut walk = Walk {
        alloc,
        lookup,
        told,
        number: 0,
        faults: Faults::new(alloc, MOST),
    };
    for entry in witness.entries.as_slice() {
        match &entry.content {
            Content::Violation(segments) => walk.pass_segments(segments.as_slice())?,
            Content::Invariants(set) => walk.pass_invariants(set.as_slice())?,
        }
    }
    Ok(walk.faults)
}

fn note_rest(
    alloc: Global,
    faults: &Faults,
    noun: &str,
    out: &mut Messages,
) -> Result<(), OutOfMemory> {
    let rest = faults.count.saturating_sub(faults.first.len());
    if rest == 0 {
        return Ok(());
    }
    let told = format!(in alloc; "{noun} that aren't bound either, and aren't shown: {rest}")?;
    out.note(File::Witness, None, told)
}

/// What there is to say of the waypoint in a fault, and of those behind it that aren't bound either.
pub fn explain_unbound_waypoints(
    alloc: Global,
    files: &Files<'_>,
    lookup: &Lookup,
    witness: &Witness,
    fault: BindFault,
    out: &mut Messages,
) -> Result<(), OutOfMemory> {
    let told = number_in(fault)?;
    explain_waypoint(alloc, files, lookup, witness, fault, true, out)?;
    let sought = sought_in(files.text(File::Witness));
    let faults = faults_behind(alloc, lookup, witness, told)?;
    for (at, other) in faults.first.as_slice().iter().enumerate() {
        explain_waypoint(alloc, files, lookup, witness, *other, at < sought, out)?;
    }
    note_rest(alloc, &faults, "waypoints", out)
}

/// What there is to say of the invariant in a fault, and of those behind it that aren't bound either.
pub fn explain_unbound_invariant(
    alloc: Global,
    files: &Files<'_>,
    program: &Program,
    witness: &Witness,
    fault: BindFault,
    out: &mut Messages,
) -> Result<(), OutOfMemory> {
    let lookup = Lookup::new(alloc, program)?;
    let told = number_in(fault)?;
    explain_invariant(alloc, files, &lookup, witness, fault, true, out)?;
    let sought = sought_in(files.text(File::Witness));
    let faults = faults_behind(alloc, &lookup, witness, told)?;
    for (at, other) in faults.first.as_slice().iter().enumerate() {
        explain_invariant(alloc, files, &lookup, witness, *other, at < sought, out)?;
    }
    note_rest(alloc, &faults, "invariants", out)
}
