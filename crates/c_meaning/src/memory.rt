ghost use Rattle.std.specs.Prelude.{◌≡◌, ◌≤◌, ◌<◌, ◌++◌, ◌∷◌, ◌/◌, ◌*◌, ◌-◌, [], length, take, drop, false, true, slice_set, slice_index_or, pos, IsOk, OnOk, OnErr, MatchOption};
ghost use Rattle.c_meaning.specs.Cells.{Key, Cell, same_key, live, found, put};
ghost use Rattle.c_meaning.specs.Memory.{cells_of, IsInnermost};

use crate::layout::{number, places, starts};
use crate::slots::{Entry, place_in, seek, slot_of, table};
use std::alloc::Global;
use std::marker::Model;
use wv_base::OutOfMemory;

/// A live cell of an object, and the place of the cell of its name that it hides.
#[derive(Clone, Copy, Debug, PartialEq, Eq)]
pub struct Live {
    pub object: u32,
    pub index: u32,
    pub value: i128,
    pub hides: Option<usize>,
}

/// The live cells of objects, the innermost last, and where the innermost cell of each name lies: names of a layout in
/// a list of places, others in a table.
#[derive(Debug, Drop)]
pub struct Memory {
    alloc: Global,
    cells: Vec<Live>,
    slots: Vec<Option<Entry>>,
    starts: Vec<usize>,
    places: Vec<Option<usize>>,
}

impl Model for Memory {
    ghost use Rattle.std.specs.Prelude.{vec_capacity, length, ◌/◌, ◌≤◌};
    ghost use Rattle.c_meaning.specs.Memory.{Held, cells_of};
    ghost use Rattle.c_meaning.specs.Slots.{IsKept, names_of};

    ghost Value = { Held };

    ghost view = { λ m. record { cells = cells_of m.cells.items; room = length m.slots.items / 2 } };

    ghost invariant = { λ m. IsKept m.starts.items m.places.items (names_of m.cells.items) m.slots.items
        × (length m.slots.items / 2 ≤ vec_capacity m.cells) };
}

impl Memory {
    /// No cells.
    pub fn new(alloc: Global) -> Memory
        ensures { result.cells ≡ [] }
    {
        Memory {
            alloc,
            cells: Vec::new(alloc),
            slots: Vec::new(alloc),
            starts: Vec::new(alloc),
            places: Vec::new(alloc),
        }
    }

    /// Gives each name of objects of these sizes a place of its own, where its innermost cell is found without a
    /// search. No cell is left.
    pub fn lay_out(&mut self, sizes: &[u32]) -> Result<(), OutOfMemory>
        ensures cells { self.new.cells ≡ [] }
        ensures kept { self.old.room ≤ self.new.room }
    {
        self.cut(0);
        let starts = starts(self.alloc, sizes)?;
        self.places = places(self.alloc, starts.as_slice())?;
        self.starts = starts;
        Ok(())
    }

    /// Makes room for at least this many cells in all.
    pub fn reserve(&mut self, cells: u32) -> Result<(), OutOfMemory>
        ensures cells { self.new.cells ≡ self.old.cells }
        ensures kept { self.old.room ≤ self.new.room }
        ensures room { OnOk result (cells ≤ self.new.room) }
    {
        let size = cells as usize * 2;
        if size <= self.slots.len() {
            return Ok(());
        }
        self.grow(size)
    }

    /// Appends a cell.
    pub fn add(&mut self, object: u32, index: u32, value: i128) -> Result<(), OutOfMemory>
        ensures ok { OnOk result (self.new.cells ≡ self.old.cells ++
            record { key = record { object = object; index = index }; value = value } ∷ []) }
        ensures refused { OnErr result (self.new.cells ≡ self.old.cells) }
        ensures kept { self.old.room ≤ self.new.room }
        ensures within { length self.old.cells < self.old.room → IsOk result }
    {
        self.make_room()?;
        self.append(object, index, value)
    }

    /// The number of live cells.
    pub fn count(&self) -> usize
        ensures { result ≡ length self.now.cells }
    {
        self.cells.len()
    }

    /// Keeps the first n cells.
    pub fn cut(&mut self, cells: usize)
        ensures cells { self.new.cells ≡ take cells self.old.cells }
        ensures kept { self.old.room ≤ self.new.room }
    {
        while self.count() > cells {
            self.remove();
        }
    }

    /// The innermost such cell's value, where one is live.
    #[inline(always)]
    pub fn cell(&self, object: u32, index: u32) -> Option<i128>
        ensures { result ≡ found (record { object = object; index = index }) self.now.cells }
    {
        match self.find(object, index) {
            Some(at) => Some(self.cells[at].value),
            None => None,
        }
    }

    /// Writes the innermost such cell, where one is live.
    #[inline(always)]
    pub fn set(&mut self, object: u32, index: u32, value: i128)
        ensures cells { self.new.cells ≡ put (record { object = object; index = index }) value self.old.cells }
        ensures kept { self.old.room ≤ self.new.room }
    {
        if let Some(at) = self.find(object, index) {
            self.cells[at].value = value;
        }
    }

    // Where the innermost such cell lies.
    #[inline(always)]
    fn find(&self, object: u32, index: u32) -> Option<usize>
        ensures { MatchOption result (live (record { object = object; index = index }) self.now.cells ≡ false)
            (IsInnermost (record { object = object; index = index }) self.now.cells) }
    {
        if let Some(name) = number(self.starts.as_slice(), object, index) {
            return self.places[name];
        }
        if self.cells.len() == 0 {
            return None;
        }
        let at = seek(self.slots.as_slice(), object, index);
        place_in(self.slots[at])
    }

    // Makes room for one cell more; where there is none, for twice as many.
    fn make_room(&mut self) -> Result<(), OutOfMemory>
        ensures cells { self.new.cells ≡ self.old.cells }
        ensures kept { self.old.room ≤ self.new.room }
        ensures room { OnOk result (length self.new.cells < self.new.room) }
        ensures within { length self.old.cells < self.old.room → IsOk result }
    {
        let size = self.slots.len();
        if self.cells.len() < size / 2 {
            return Ok(());
        }
        self.grow(size.saturating_mul(2).saturating_add(16))
    }

    // Appends a cell where there is room.
    fn append(&mut self, object: u32, index: u32, value: i128) -> Result<(), OutOfMemory>
        requires { length self.old.cells < self.old.room }
        ensures cells { self.new.cells ≡ self.old.cells ++
            record { key = record { object = object; index = index }; value = value } ∷ [] }
        ensures room { self.new.room ≡ self.old.room }
        ensures ok { IsOk result }
    {
        let place = self.cells.len();
        if let Some(name) = number(self.starts.as_slice(), object, index) {
            self.cells.push(Live {
                object,
                index,
                value,
                hides: self.places[name],
            })?;
            self.places[name] = Some(place);
            return Ok(());
        }
        let at = seek(self.slots.as_slice(), object, index);
        self.cells.push(Live {
            object,
            index,
            value,
            hides: place_in(self.slots[at]),
        })?;
        self.slots[at] = slot_of(object, index, Some(place));
        Ok(())
    }

    // Drops the last cell; the one that it hid, if any, is seen again.
    fn remove(&mut self)
        ensures cells { self.new.cells ≡ take (length self.old.cells - 1) self.old.cells }
        ensures room { self.new.room ≡ self.old.room }
    {
        if let Some(last) = self.cells.pop() {
            if let Some(name) = number(self.starts.as_slice(), last.object, last.index) {
                self.places[name] = last.hides;
                return;
            }
            let at = seek(self.slots.as_slice(), last.object, last.index);
            self.slots[at] = slot_of(last.object, last.index, last.hides);
        }
    }

    // Makes a larger table, and room for half as many cells.
    fn grow(&mut self, size: usize) -> Result<(), OutOfMemory>
        requires { self.old.room * 2 < size }
        ensures cells { self.new.cells ≡ self.old.cells }
        ensures kept { self.old.room ≤ self.new.room }
        ensures room { OnOk result (self.new.room ≡ size / 2) }
    {
        self.cells.reserve(size / 2 - self.cells.len())?;
        let starts = self.starts.as_slice();
        self.slots = table(self.alloc, self.cells.as_slice(), starts, size)?;
        Ok(())
    }
}
