ghost use Rattle.std.specs.Prelude.{◌≡◌, [], ◌∷◌, ◌++◌, ◌<◌, length, slice_get, OnOk, OnErr, OnSome};
ghost use Rattle.std.specs.Option.{option_copied};

use crate::OutOfMemory;
use std::alloc::Global;
use std::marker::Model;

/// A vector that contracts see as the list of its items, so that trees of them are plain values.
#[derive(Debug, Drop)]
pub struct Seq<T> {
    items: Vec<T>,
}

impl<T> Model for Seq<T> {
    ghost use Rattle.std.specs.Prelude.{List};
    ghost use Rattle.std.specs.Coded.{coded_list};

    ghost Value = { List T };

    ghost coded = { coded_list T.code };

    ghost view = { λ s. s.items.items };
}

impl<T> Seq<T> {
    /// The empty list, which takes no memory.
    pub fn new(alloc: Global) -> Seq<T>
        ensures { result ≡ [] }
    {
        Seq {
            items: Vec::new(alloc),
        }
    }

    /// The items of a `Vec`, moved and not copied.
    pub fn from_vec(items: Vec<T>) -> Seq<T>
        ensures { result ≡ items.items }
    {
        Seq { items }
    }

    /// The number of items.
    pub fn len(&self) -> usize
        ensures { result ≡ length self.now }
    {
        self.items.len()
    }

    /// The item at an index from 0, or `None` beyond the end.
    pub fn get(&self, at: usize) -> Option<&T>
        ensures item { option_copied result ≡ slice_get self.now at }
        ensures within { OnSome result (at < length self.now) }
    {
        self.items.get(at)
    }

    /// All items in order.
    pub fn as_slice(&self) -> &[T]
        ensures { result.now ≡ self.now }
    {
        self.items.as_slice()
    }
}

impl<T: Drop> Seq<T> {
    /// Appends an item. Where memory is wanting, the item is dropped and the list stays as it was.
    pub fn push(&mut self, item: T) -> Result<(), OutOfMemory>
        ensures ok { OnOk result (self.new ≡ self.old ++ item ∷ []) }
        ensures refused { OnErr result (self.new ≡ self.old) }
    {
        // Most lists of a tree have one item, and a vector's own first room is for four.
        if self.items.capacity() == 0 {
            self.items.try_reserve_exact(1)?;
        }
        self.items.push(item)?;
        Ok(())
    }
}
