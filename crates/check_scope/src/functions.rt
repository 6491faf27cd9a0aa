ghost use Rattle.std.specs.Prelude.{◌≡◌, ℕ, ◌||◌, List, length, map, IfOk, OnOk};
ghost use Rattle.std.specs.List.{position_or_len};
ghost use Rattle.std.specs.Str.{bytes_eq};
ghost use Rattle.c_core.specs.declared.number.DataModel.{DataModel};
ghost use Rattle.c_parser.specs.SourceView.{item_view};
ghost use Rattle.check_rules.specs.Codes;
ghost use Rattle.check_rules.specs.Codes.{closed_names, is_among};
ghost use Rattle.check_rules.specs.Parts.{bodies_of};
ghost use Rattle.check_rules.specs.Typed;
ghost use Rattle.check_scope.specs.Bodies.{body_after, body_in, body_with, closed_with, count_with, first_body, has_name};

use crate::built_ins::built_in;
use c_core::Callee;
use c_parser::Item;
use std::alloc::Global;
use std::collections::BTreeMap;
use wv_base::OutOfMemory;

/// A function with a body: its number among those, and how many parameters it has.
#[derive(Clone, Copy)]
pub struct Body {
    pub number: u32,
    pub parameters: usize,
}

/// What the items of a source say of functions, wherever they stand.
#[derive(Drop)]
pub struct Functions<'a> {
    /// Of this source.
    pub items: &'a [Item],
    // the first function of each name
    bodies: BTreeMap<&'a str, Body>,
    // a map, since it is maps whose keys contracts read by their text
    closed: BTreeMap<&'a str, ()>,
    count: u32,
    ghost found: { (w : List ℕ) → body_in bodies w ≡ first_body 0 (map item_view items.now) w },
    ghost shut: { (w : List ℕ) → has_name closed w ≡ is_among (closed_names (map item_view items.now)) w },
    ghost counted: { count ≡ length (bodies_of (map item_view items.now)) },
}

/// The first function of a name counts.
fn add_body<'a>(
    bodies: &mut BTreeMap<&'a str, Body>,
    name: &'a str,
    body: Body,
) -> Result<(), OutOfMemory>
    ensures { OnOk result ((w : List ℕ) → body_in bodies.new w ≡ body_after name.now body w (body_in bodies.old w)) }
{
    if !bodies.contains_key(name) {
        bodies.insert(name, body)?;
    }
    Ok(())
}

fn add_closed<'a>(closed: &mut BTreeMap<&'a str, ()>, name: &'a str) -> Result<(), OutOfMemory>
    ensures { OnOk result ((w : List ℕ) → has_name closed.new w ≡ (has_name closed.old w || bytes_eq w name.now)) }
{
    closed.insert(name, ())?;
    Ok(())
}

fn add_item<'a>(
    bodies: &mut BTreeMap<&'a str, Body>,
    closed: &mut BTreeMap<&'a str, ()>,
    count: &mut u32,
    item: &'a Item,
) -> Result<(), OutOfMemory>
    ensures bodies { OnOk result ((w : List ℕ) → body_in bodies.new w
        ≡ body_with count.old (item_view item.now) w (body_in bodies.old w)) }
    ensures closed { OnOk result ((w : List ℕ) → has_name closed.new w
        ≡ closed_with (item_view item.now) w (has_name closed.old w)) }
    ensures count { OnOk result (count.new ≡ count_with (item_view item.now) count.old) }
{
    match item {
        Item::Function { name, params, .. } => {
            let body = Body {
                number: *count,
                parameters: params.len(),
            };
            add_body(bodies, name.as_str(), body)?;
            *count = count.checked_add(1).ok_or(OutOfMemory)?;
        }
        Item::Closed { name, .. } => add_closed(closed, name.as_str())?,
        _ => {}
    }
    Ok(())
}

impl<'a> Functions<'a> {
    /// In one pass over the items. More functions than a number of 32 bits counts are answered as out of memory.
    pub fn of(alloc: Global, items: &'a [Item]) -> Result<Functions<'a>, OutOfMemory>
        ensures { IfOk result (λ f. f.items.now ≡ items.now) }
    {
        let mut bodies = BTreeMap::new(alloc);
        let mut closed = BTreeMap::new(alloc);
        let mut count = 0u32;
        for item in items {
            add_item(&mut bodies, &mut closed, &mut count, item)?;
        }
        Ok(Functions {
            items,
            bodies,
            closed,
            count,
        })
    }

    /// How many functions have a body.
    pub fn count(&self) -> u32
        ensures { result ≡ length (bodies_of (map item_view self.now.items.now)) }
    {
        self.count
    }

    /// What a call of this name calls, where the name is or isn't declared as a function.
    pub fn callee(&self, name: &str, is_function: bool) -> Callee
        ensures { result ≡ Typed.callee_for is_function (bodies_of (map item_view self.now.items.now)) name.now }
    {
        if !is_function {
            return Callee::Defined(self.count);
        }
        match built_in(name) {
            Some(callee) => callee,
            None => Callee::Defined(self.number(name)),
        }
    }

    /// The number of the function of this name among those with a body, or their count.
    fn number(&self, name: &str) -> u32
        ensures { result ≡ position_or_len (bytes_eq name.now) (bodies_of (map item_view self.now.items.now)) }
    {
        match self.bodies.get(name) {
            Some(body) => body.number,
            None => self.count,
        }
    }

    /// How many parameters the definition has.
    pub fn count_defined(&self, name: &str) -> Option<usize>
        ensures { result ≡ Codes.count_defined (map item_view self.now.items.now) name.now }
    {
        match self.bodies.get(name) {
            Some(body) => Some(body.parameters),
            None => None,
        }
    }

    /// Whether a call of this name has no body to run.
    pub fn is_bodiless(&self, name: &str) -> bool
        ensures { (m : DataModel) → result ≡ Codes.is_bodiless m (map item_view self.now.items.now) name.now }
    {
        self.closed.contains_key(name)
            || (built_in(name).is_none() && !self.bodies.contains_key(name))
    }
}
