// Where the values of a `switch` lead.
ghost use Rattle.std.specs.Prelude.{◌≡◌, [], OnOk};
ghost use Rattle.flow_code.specs.Tables.{address_in, added};

use std::alloc::Global;
use std::collections::BTreeMap;
use std::marker::Model;
use wv_base::OutOfMemory;

/// An address for each of some values; contracts see the list of both, by the values.
#[derive(Drop)]
pub struct Table {
    addresses: BTreeMap<i128, u32>,
}

impl Model for Table {
    ghost use Rattle.std.specs.Prelude.{ℕ, ℤ, List};

    ghost Value = { List (ℤ × ℕ) };

    ghost view = { λ t. t.addresses.entries };
}

impl Table {
    /// A table without values, which takes no memory.
    pub fn new(alloc: Global) -> Table
        ensures { result ≡ [] }
    {
        Table {
            addresses: BTreeMap::new(alloc),
        }
    }

    /// The address of a value, if it has one.
    pub fn get(&self, value: i128) -> Option<u32>
        ensures { result ≡ address_in self.now value }
    {
        self.addresses.get(&value).copied()
    }

    /// An address for a value; where it has one already, that stays.
    pub fn add(&mut self, value: i128, to: u32) -> Result<(), OutOfMemory>
        ensures { OnOk result (self.new ≡ added self.old value to) }
    {
        let first = self.get(value).unwrap_or(to);
        self.addresses.insert(value, first)?;
        Ok(())
    }
}
