// Why a waypoint or an invariant isn't bound, as far as one is looked at by itself.
use crate::claim::Claim;
use crate::nearest::{Wanted, stands};
use c_core::PlaceKind;
use std::alloc::Global;
use view_grammar::is_read;
use way_bind::{BindFault, Lookup, Unbound, expression_at, place_named};
use way_places::Index;
use wv_base::OutOfMemory;
use wv_schema::{Location, integer_in};

/// The first claims that aren't bound, and how many there are.
#[derive(Drop)]
pub struct Faults {
    pub first: Vec<BindFault>,
    pub count: usize,
    most: usize,
}

/// Why a text is no expression over the names that a statement at a location sees.
fn lack_at_statement(
    alloc: Global,
    lookup: &Lookup,
    location: &Location,
    text: &str,
) -> Option<Unbound> {
    match place_named(&lookup.index, PlaceKind::Statement, location) {
        None => Some(Unbound::NoPlace),
        Some(spot) => expression_at(alloc, lookup, PlaceKind::Statement, spot, text).err(),
    }
}

/// Why a text is no expression over the names that a loop at a location sees.
fn lack_at_loop(
    alloc: Global,
    lookup: &Lookup,
    location: &Location,
    text: &str,
) -> Option<Unbound> {
    match place_named(&lookup.index, PlaceKind::Loop, location) {
        None => Some(Unbound::NoPlace),
        Some(spot) => expression_at(alloc, lookup, PlaceKind::Loop, spot, text).err(),
    }
}

/// Whether the call that ends at a location gives a value.
fn gives_value(index: &Index, location: &Location) -> bool {
    let Some(close) = place_named(index, PlaceKind::CallEnd, location) else {
        return false;
    };
    match index.call_at(close) {
        Some(call) => call.ty.is_some(),
        None => false,
    }
}

/// Why a text is no test of the value of the call that ends at a location.
fn lack_of_result(
    alloc: Global,
    index: &Index,
    location: &Location,
    text: &str,
) -> Result<Option<Unbound>, OutOfMemory> {
    if text.is_empty() {
        return Ok(None);
    }
    if !is_read(alloc, true, text.as_bytes())? {
        return Ok(Some(Unbound::Expression));
    }
    if gives_value(index, location) {
        Ok(None)
    } else {
        Ok(Some(Unbound::Scope))
    }
}

/// Why a text states no way of the branching at a location.
fn lack_of_way(index: &Index, location: &Location, text: &str) -> Option<Unbound> {
    let spot = place_named(index, PlaceKind::Branch, location)?;
    let is_way = match index.switch_at(spot) {
        Some(_) => text == "default" || integer_in(text).is_some(),
        None => text == "true" || text == "false",
    };
    if is_way {
        None
    } else {
        Some(Unbound::Expression)
    }
}

/// Why what a claim says isn't said at its place, where one of its kind stands.
fn lack_at_place(
    alloc: Global,
    index: &Index,
    claim: &Claim<'_, '_>,
) -> Result<Option<Unbound>, OutOfMemory> {
    let text = claim.expression;
    match claim.wanted {
        Wanted::Place(PlaceKind::Branch) => Ok(lack_of_way(index, claim.location, text)),
        _ if claim.is_result => lack_of_result(alloc, index, claim.location, text),
        _ => Ok(None),
    }
}

/// Why a claim isn't bound.
fn lack_of_claim(
    alloc: Global,
    lookup: &Lookup,
    claim: &Claim<'_, '_>,
) -> Result<Option<Unbound>, OutOfMemory> {
    let location = claim.location;
    let text = claim.expression;
    let index = &lookup.index;
    match claim.wanted {
        Wanted::Place(PlaceKind::Statement) => {
            Ok(lack_at_statement(alloc, lookup, location, text))
        }
        Wanted::Place(PlaceKind::Loop) => Ok(lack_at_loop(alloc, lookup, location, text)),
        _ if !stands(index, claim.wanted, location.line, location.column) => {
            Ok(Some(Unbound::NoPlace))
        }
        _ => lack_at_place(alloc, index, claim),
    }
}

impl Faults {
    /// None yet; so many are kept.
    pub fn new(alloc: Global, most: usize) -> Faults {
        Faults {
            first: Vec::new(alloc),
            count: 0,
            most,
        }
    }

    fn keep(&mut self, fault: BindFault) -> Result<(), OutOfMemory> {
        self.count = self.count.saturating_add(1);
        if self.first.len() < self.most {
            self.first.push(fault)?;
        }
        Ok(())
    }

    /// Looks whether a claim is bound.
    pub fn look(
        &mut self,
        alloc: Global,
        lookup: &Lookup,
        claim: &Claim<'_, '_>,
    ) -> Result<(), OutOfMemory> {
        let number = claim.number;
        match lack_of_claim(alloc, lookup, claim)? {
            None => Ok(()),
            Some(Unbound::NoPlace) => self.keep(BindFault::NoPlace(number)),
            Some(Unbound::Expression) => self.keep(BindFault::Expression(number)),
            Some(Unbound::Scope) => self.keep(BindFault::Scope(number)),
            Some(Unbound::OutOfMemory) => Err(OutOfMemory),
        }
    }
}
