// The values of the variables, and the order in which they came.
ghost use Rattle.std.specs.Prelude.{◌≡◌, ℕ, ◌+◌, ◌<◌, ◌≤◌, ◌^◌, [], ◌∷◌, ◌++◌, length, take, replicate, None, slice_get, IfOk, OnOk, unsigned_abs};
ghost use Rattle.sat_core.specs.Trail.{HasValue};
ghost use Rattle.sat_core.specs.Values.{Told, IsValue, open_variables};
ghost use Rattle.sat_core.specs.Found.{IsBranch};
ghost use Rattle.sat_core.specs.declared.trail.Assigned.{Assigned};

use std::alloc::Global;
use wv_base::OutOfMemory;

/// A variable that has a value: by the clause at the index `reason`, or decided where there is none.
#[derive(Clone, Copy)]
pub struct Assigned {
    pub variable: u32,
    pub value: bool,
    pub reason: Option<u32>,
}

/// The variables in the order in which they got their values.
#[derive(Drop)]
pub struct Trail {
    pub values: Vec<Option<bool>>,
    pub entries: Vec<Assigned>,
}

/// No value for each of the variables.
pub fn no_values(alloc: Global, variables: u32) -> Result<Trail, OutOfMemory>
    ensures values { IfOk result (λ r. r.values.items ≡ replicate (variables + 1) None) }
    ensures entries { IfOk result (λ r. r.entries.items ≡ []) }
{
    let mut values = Vec::new(alloc);
    for _ in 0..variables as usize + 1 {
        values.push(None)?;
    }
    Ok(Trail {
        values,
        entries: Vec::new(alloc),
    })
}

impl Trail {
    /// Whether a number is true, or has no value.
    pub fn value(&self, number: i32) -> Option<bool>
        requires within { unsigned_abs number < length self.now.values.items }
        requires told { Told self.now.values.items self.now.entries.items }
        ensures { IsValue self.now.entries.items number result }
    {
        let positive = number > 0;
        match self.values[number.unsigned_abs() as usize] {
            None => None,
            Some(value) => Some(value == positive),
        }
    }

    /// Gives an open variable its value.
    pub fn assign(
        &mut self,
        variable: u32,
        value: bool,
        reason: Option<u32>,
    ) -> Result<(), OutOfMemory>
        requires within { variable < length self.old.values.items }
        requires told { Told self.old.values.items self.old.entries.items }
        requires first { HasValue self.old.entries.items (length self.old.entries.items) variable → ⊥ }
        ensures entries { OnOk result (self.new.entries.items
            ≡ self.old.entries.items ++ record { variable = variable; value = value; reason = reason } ∷ []) }
        ensures told { OnOk result (Told self.new.values.items self.new.entries.items) }
        ensures size { length self.new.values.items ≡ length self.old.values.items }
        ensures fewer { OnOk result (open_variables self.new.values.items < open_variables self.old.values.items) }
    {
        self.entries.push(Assigned {
            variable,
            value,
            reason,
        })?;
        self.values[variable as usize] = Some(value);
        Ok(())
    }

    /// Takes back all values but the first ones.
    pub fn cancel_until(&mut self, kept: usize)
        requires within { kept ≤ length self.old.entries.items }
        requires told { Told self.old.values.items self.old.entries.items }
        requires bounded { (n : ℕ) (e : Assigned) → slice_get self.old.entries.items n ≡ Some e
            → e.variable < length self.old.values.items }
        requires once { (n : ℕ) (e : Assigned) → slice_get self.old.entries.items n ≡ Some e
            → HasValue self.old.entries.items n e.variable → ⊥ }
        ensures entries { self.new.entries.items ≡ take kept self.old.entries.items }
        ensures told { Told self.new.values.items self.new.entries.items }
        ensures size { length self.new.values.items ≡ length self.old.values.items }
    {
        for _ in kept..self.entries.len() {
            if let Some(last) = self.entries.pop() {
                self.values[last.variable as usize] = None;
            }
        }
    }

    /// The least variable that has no value.
    pub fn pick_branch(&self) -> Option<u32>
        requires told { Told self.now.values.items self.now.entries.items }
        requires few { length self.now.values.items ≤ 2 ^ 32 }
        ensures { IsBranch (length self.now.values.items) self.now.entries.items result }
    {
        for variable in 1..self.values.len() {
            match self.values[variable] {
                None => return Some(variable as u32),
                Some(_) => {}
            }
        }
        None
    }
}
