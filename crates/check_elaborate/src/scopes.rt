// Scopes and objects, as a walk meets them.
ghost use Rattle.std.specs.Prelude.{◌≡◌, ◌<◌, ◌≤◌, ◌∷◌, ◌++◌, [], length, IfOk, OnOk, None};
ghost use Rattle.check_rules.specs.Scopes.{outermost, with_object, opened};
ghost use Rattle.check_elaborate.specs.Walks.{scope_at, found, found_at, cut};

use crate::walk::Walk;
use c_core::Object;
use check_scope::{Known, Table};
use check_sequencing::Kept;
use std::alloc::Global;
use std::mem;
use wv_base::{OutOfMemory, Seq};

// The number that stands for no object.
const NO_OBJECT: u32 = 4_294_967_295;

impl<'a> Walk<'a> {
    /// In the outermost scope, where nothing is declared.
    pub fn new(alloc: Global) -> Walk<'a>
        ensures scope { scope_at result ≡ outermost }
        ensures found { found_at result ≡ found None [] }
    {
        Walk {
            table: Table::new(alloc),
            objects: Seq::new(alloc),
            cells: 0,
            best: None,
            kept: Seq::new(alloc),
        }
    }

    /// The number of the next object. More than numbers of 32 bits tell apart are answered as out of memory.
    pub fn next_number(&self) -> Result<u32, OutOfMemory>
        ensures number { IfOk result (λ n. n ≡ length self.now.objects) }
        ensures bound { IfOk result (λ n. n < 4294967295) }
    {
        match u32::try_from(self.objects.len()) {
            Ok(number) => {
                if number < NO_OBJECT {
                    Ok(number)
                } else {
                    Err(OutOfMemory)
                }
            }
            Err(_) => Err(OutOfMemory),
        }
    }

    /// Declares an object in the innermost scope.
    pub fn declare(&mut self, name: &'a str, object: Object) -> Result<(), OutOfMemory>
        requires { object.name ≡ name.now }
        ensures scope { OnOk result (scope_at self.new ≡ with_object (scope_at self.old) object) }
        ensures found { OnOk result (found_at self.new ≡ found_at self.old) }
    {
        let number = self.next_number()?;
        let known = Known::Object {
            number,
            ty: object.ty,
            dims: object.dims,
            fixed: object.fixed,
        };
        self.add(object)?;
        self.table.declare(name, known)
    }

    fn add(&mut self, object: Object) -> Result<(), OutOfMemory>
        ensures objects { OnOk result (self.new.objects ≡ self.old.objects ++ object ∷ []) }
        ensures table { self.new.table ≡ self.old.table }
        ensures best { self.new.best ≡ self.old.best }
        ensures kept { self.new.kept ≡ self.old.kept }
    {
        let cells = self
            .cells
            .checked_add(u64::from(object.cells))
            .ok_or(OutOfMemory)?;
        self.objects.push(object)?;
        self.cells = cells;
        Ok(())
    }

    /// Goes on with another list of what is kept, and gives the one so far.
    pub fn set_kept(&mut self, kept: Seq<Kept>) -> Seq<Kept>
        ensures scope { scope_at self.new ≡ scope_at self.old }
        ensures best { self.new.best ≡ self.old.best }
        ensures given { result ≡ self.old.kept }
        ensures kept { self.new.kept ≡ kept }
    {
        mem::replace(&mut self.kept, kept)
    }

    /// Opens a scope, and gives how many names stand outside of the one around it.
    pub fn open(&mut self) -> usize
        ensures scope { scope_at self.new ≡ opened (scope_at self.old) }
        ensures found { found_at self.new ≡ found_at self.old }
        ensures outside { result ≡ length self.old.table.outer }
    {
        self.table.open()
    }

    /// Closes the innermost scope; `outside` is what `open` gave.
    pub fn close(&mut self, outside: usize)
        requires { outside ≤ length self.old.table.outer }
        ensures scope { scope_at self.new ≡ cut outside (scope_at self.old) }
        ensures found { found_at self.new ≡ found_at self.old }
    {
        self.table.close(outside);
    }
}
