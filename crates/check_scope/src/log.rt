ghost use Rattle.std.specs.Prelude.{◌≡◌, ℕ, ◌-◌, ◌&&◌, List, [], ◌∷◌, ◌++◌, length, take, drop, OnOk, OnErr};
ghost use Rattle.std.specs.List.{list_any};
ghost use Rattle.std.specs.Option.{option_map};
ghost use Rattle.std.specs.Str.{bytes_eq};
ghost use Rattle.check_rules.specs.Names;
ghost use Rattle.check_rules.specs.Codes;
ghost use Rattle.check_scope.specs.Kinds.{kind_of};
ghost use Rattle.check_scope.specs.Lines.{befores, entries_of, hidden, past_in, past_of};

use crate::known::Known;
use crate::line::Line;
use crate::past::{Past, is_clash, with_known};
use std::alloc::Global;
use std::collections::BTreeMap;
use wv_base::OutOfMemory;

/// Declarations in their order, with what those of a name make of it together.
#[derive(Drop)]
pub struct Log<'a> {
    lines: Vec<Line<'a>>,
    index: BTreeMap<&'a str, Past<'a>>,
    ghost indexed: { (x : List ℕ) → past_in index x ≡ past_of lines.items x },
    ghost keeps: { befores lines.items ≡ hidden [] lines.items },
}

impl<'a> Log<'a> {
    /// No lines.
    pub fn new(alloc: Global) -> Log<'a>
        ensures { result.lines.items ≡ [] }
    {
        Log {
            lines: Vec::new(alloc),
            index: BTreeMap::new(alloc),
        }
    }

    /// The number of declarations.
    pub fn len(&self) -> usize
        ensures { result ≡ length self.now.lines.items }
    {
        self.lines.len()
    }

    fn past(&self, name: &str) -> Option<Past<'a>>
        ensures { result ≡ past_of self.now.lines.items name.now }
    {
        self.index.get(name).copied()
    }

    /// What all declarations make of a name.
    pub fn declared(&self, name: &str) -> Option<Known<'a>>
        ensures { option_map kind_of result ≡ Names.declared_as (entries_of self.now.lines.items) name.now }
    {
        match self.past(name) {
            Some(past) => Some(past.means),
            None => None,
        }
    }

    /// How many parameters are stated first.
    pub fn count_stated(&self, name: &str) -> Option<usize>
        ensures { result ≡ Codes.count_stated (entries_of self.now.lines.items) name.now }
    {
        match self.past(name) {
            Some(past) => past.count,
            None => None,
        }
    }

    /// Whether one more declaration clashes with one of its name, the first of them at a place.
    pub fn is_clash(&self, start: usize, name: &str, known: Known) -> bool
        ensures { result ≡ list_any (λ earlier. bytes_eq earlier.name name.now && Codes.clashes earlier.kind
            (kind_of known.entry)) (drop start (entries_of self.now.lines.items)) }
    {
        is_clash(start, self.past(name), known)
    }

    /// Appends a declaration; nothing changes where memory runs out.
    pub fn push(&mut self, name: &'a str, known: Known<'a>) -> Result<(), OutOfMemory>
        ensures pushed { OnOk result (entries_of self.new.lines.items
            ≡ entries_of self.old.lines.items ++ Names.entry name.now (kind_of known.entry) ∷ []) }
        ensures refused { OnErr result (self.new.lines.items ≡ self.old.lines.items) }
    {
        let len = self.len();
        let before = self.past(name);
        let past = with_known(len, before, known);
        self.lines.push(Line {
            name,
            known,
            before,
        })?;
        match self.index.insert(name, past) {
            Ok(_) => Ok(()),
            Err(_) => {
                self.lines.truncate(len);
                Err(OutOfMemory)
            }
        }
    }

    /// Takes the last declaration back.
    fn pop(&mut self)
        ensures { self.new.lines.items ≡ take (length self.old.lines.items - 1) self.old.lines.items }
    {
        if let Some(last) = self.lines.pop() {
            match last.before {
                None => {
                    self.index.remove(last.name);
                }
                Some(before) => {
                    let _ = self.index.insert(last.name, before);
                }
            }
        }
    }

    /// Takes all declarations back but the first of them.
    pub fn cut(&mut self, count: usize)
        ensures { self.new.lines.items ≡ take count self.old.lines.items }
    {
        while self.len() > count {
            self.pop();
        }
    }
}
