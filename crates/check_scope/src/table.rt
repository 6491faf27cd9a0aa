ghost use Rattle.std.specs.Prelude.{◌≡◌, ◌≤◌, [], length, OnOk, OnErr};
ghost use Rattle.std.specs.Option.{option_map};
ghost use Rattle.check_rules.specs.Codes;
ghost use Rattle.check_rules.specs.Names;
ghost use Rattle.check_scope.specs.InScope.{all_of, closed, in_scope, opened, scope_of, with_name};
ghost use Rattle.check_scope.specs.Kinds.{kind_of, meaning_of};

use crate::built_ins::built_in;
use crate::known::Known;
use crate::log::Log;
use crate::meaning::{Meaning, or_built_in};
use std::alloc::Global;
use std::marker::Model;
use wv_base::OutOfMemory;

/// The names of the open scopes.
#[derive(Drop)]
pub struct Table<'a> {
    log: Log<'a>,
    // where the innermost scope begins
    start: usize,
}

impl<'a> Model for Table<'a> {
    ghost use Rattle.std.specs.Prelude.{◌≤◌, length};
    ghost use Rattle.check_scope.specs.InScope.{InScope};

    ghost Value = { InScope };

    ghost use Rattle.check_scope.specs.Lines.{in_scope_at};

    ghost view = { λ t. in_scope_at t.start t.log.lines.items };

    ghost invariant = { λ t. t.start ≤ length t.log.lines.items };
}

impl<'a> Table<'a> {
    /// No name, in the outermost scope.
    pub fn new(alloc: Global) -> Table<'a>
        ensures { result ≡ in_scope [] [] }
    {
        Table {
            log: Log::new(alloc),
            start: 0,
        }
    }

    /// What a word stands for.
    pub fn meaning(&self, name: &str) -> Option<Meaning>
        ensures { result ≡ option_map meaning_of (Names.named (all_of self.now) name.now) }
    {
        or_built_in(self.log.declared(name), built_in(name))
    }

    /// How many parameters the first declaration of a function in scope states that states them.
    pub fn count_stated(&self, name: &str) -> Option<usize>
        ensures { result ≡ Codes.count_stated (all_of self.now) name.now }
    {
        self.log.count_stated(name)
    }

    /// Whether one more declaration of a name clashes with one of the innermost scope.
    pub fn is_again(&self, name: &str, known: Known) -> bool
        ensures { result ≡ Codes.is_again (scope_of self.now) (Names.entry name.now (kind_of known.entry)) }
    {
        self.log.is_clash(self.start, name, known)
    }

    /// Declares a name in the innermost scope.
    pub fn declare(&mut self, name: &'a str, known: Known<'a>) -> Result<(), OutOfMemory>
        ensures declared { OnOk result (self.new ≡ with_name self.old (Names.entry name.now (kind_of known.entry))) }
        ensures refused { OnErr result (self.new ≡ self.old) }
    {
        self.log.push(name, known)
    }

    /// Opens a scope in the innermost one, and gives how many names stand outside of that one.
    pub fn open(&mut self) -> usize
        ensures names { self.new ≡ opened self.old }
        ensures outside { result ≡ length self.old.outer }
    {
        let outside = self.start;
        self.start = self.log.len();
        outside
    }

    /// Closes the innermost scope; `outside` is what `open` gave.
    pub fn close(&mut self, outside: usize)
        requires { outside ≤ length self.now.outer }
        ensures { self.new ≡ closed outside self.old }
    {
        self.log.cut(self.start);
        self.start = outside;
    }
}
