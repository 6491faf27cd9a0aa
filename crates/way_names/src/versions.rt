// Maps from keys to objects, of which every version stays: trees over the bits of keys.
ghost use Rattle.std.specs.Prelude.{◌≡◌, ◌<◌, ◌≤◌, ◌^◌, ℕ, [], ◌∷◌, ◌++◌, Some, List, Option, IfOk, OnOk, length, nat_eq, take};
ghost use Rattle.c_core.specs.declared.number.Spot.{Spot};
ghost use Rattle.way_names.specs.Keys.{has_key};
ghost use Rattle.way_names.specs.Scopes.{IsScope};
ghost use Rattle.way_names.specs.Versions.{AddsObject, AllStand, Finds, Puts, Stands, behind, found_in, half_of, is_odd, look, node_of, numbers_of, version_of};

use crate::keys::Keys;
use crate::scope::Scope;
use c_core::Spot;
use std::alloc::Global;
use wv_base::OutOfMemory;

/// The halves of a tree, for even keys and for odd ones. Below the last bit they are objects.
#[derive(Clone, Copy)]
pub struct Node {
    pub even: Option<u32>,
    pub odd: Option<u32>,
}

/// A version for each of some scopes, over keys of this many bits.
#[derive(Drop)]
pub struct Versions {
    pub nodes: Vec<Node>,
    pub roots: Vec<Option<u32>>,
    pub bits: u32,
}

fn is_odd(key: usize) -> bool
    ensures { result ≡ is_odd key }
{
    key % 2 == 1
}

fn half_of(nodes: &[Node], odd: bool, at: Option<u32>) -> Option<u32>
    ensures { result ≡ half_of nodes.now odd at }
{
    match at {
        None => None,
        Some(number) => match nodes.get(number as usize) {
            None => None,
            Some(node) => { if odd { node.odd } else { node.even } }
        },
    }
}

fn found_in(nodes: &[Node], bits: u32, at: Option<u32>, key: usize) -> Option<u32>
    ensures { result ≡ found_in nodes.now bits at key }
{
    if bits == 0 {
        return at;
    }
    let half = half_of(nodes, is_odd(key), at);
    found_in(nodes, bits - 1, half, key / 2)
}

fn node_of(odd: bool, half: Option<u32>, other: Option<u32>) -> Node
    ensures { result ≡ node_of odd half other }
{
    if odd {
        Node {
            even: other,
            odd: half,
        }
    } else {
        Node {
            even: half,
            odd: other,
        }
    }
}

/// The number of a node more.
fn push_node(nodes: &mut Vec<Node>, node: Node) -> Result<Option<u32>, OutOfMemory>
    ensures number { IfOk result (λ number. number ≡ Some (length nodes.old.items)) }
    ensures pushed { OnOk result (nodes.new.items ≡ nodes.old.items ++ node ∷ []) }
{
    let number = nodes.len();
    if number > 4294967295 {
        return Err(OutOfMemory);
    }
    nodes.push(node)?;
    Ok(Some(number as u32))
}

/// A tree that has an object more, under its key: a copy of the nodes on its way.
fn put(
    nodes: &mut Vec<Node>,
    bits: u32,
    at: Option<u32>,
    key: usize,
    object: u32,
) -> Result<Option<u32>, OutOfMemory>
    requires small { key < 2 ^ bits }
    requires stands { Stands nodes.old.items bits at }
    ensures { IfOk result (λ put. Puts nodes.old.items nodes.new.items bits at (λ x. nat_eq key x) object put) }
{
    if bits == 0 {
        return Ok(Some(object));
    }
    let odd = is_odd(key);
    let before = half_of(nodes.as_slice(), odd, at);
    let other = half_of(nodes.as_slice(), !odd, at);
    let inner = put(nodes, bits - 1, before, key / 2, object)?;
    let number = push_node(nodes, node_of(odd, inner, other))?;
    Ok(number)
}

/// A tree that has an object more, under the key of its name.
fn put_object(
    keys: &Keys,
    nodes: &mut Vec<Node>,
    bits: u32,
    at: Option<u32>,
    object: u32,
) -> Result<Option<u32>, OutOfMemory>
    requires wide { length keys.now.objects.now ≤ 2 ^ bits }
    requires stands { Stands nodes.old.items bits at }
    ensures { IfOk result (λ put. Puts nodes.old.items nodes.new.items bits at
        (λ key. has_key keys.now.objects.now key object) object put) }
{
    match keys.key_of_object(object) {
        None => Ok(at),
        Some(key) => {
            let root = put(nodes, bits, at, key, object)?;
            Ok(root)
        }
    }
}

fn version_of(roots: &[Option<u32>], scope: Option<usize>) -> Option<u32>
    ensures { result ≡ version_of roots.now scope }
{
    match scope {
        None => None,
        Some(number) => roots.get(number).copied().flatten(),
    }
}

/// How many keys this many bits tell apart.
fn bits_of(count: usize) -> u32
    requires { count ≤ 100000 }
    ensures { count ≤ 2 ^ result }
{
    let mut bits = 0;
    let mut most = 1;
    while most < count {
        most *= 2;
        bits += 1;
    }
    bits
}

impl Versions {
    /// For this many keys, of no scope yet.
    fn new(alloc: Global, count: usize) -> Versions
        requires { count ≤ 100000 }
        ensures wide { count ≤ 2 ^ result.bits }
        ensures empty { result.roots.items ≡ [] }
        ensures stand { AllStand result }
    {
        let nodes = Vec::new(alloc);
        let roots = Vec::new(alloc);
        let bits = bits_of(count);
        Versions { nodes, roots, bits }
    }

    /// The version of the next scope has what that of its outer scope has, and an object under its name's key.
    fn add(&mut self, keys: &Keys, outer: Option<usize>, object: u32) -> Result<(), OutOfMemory>
        requires wide { length keys.now.objects.now ≤ 2 ^ self.old.bits }
        requires stand { AllStand self.old }
        ensures { OnOk result (AddsObject keys.now.objects.now self.old self.new outer object) }
    {
        let at = version_of(self.roots.as_slice(), outer);
        let root = put_object(keys, &mut self.nodes, self.bits, at, object)?;
        self.roots.push(root)?;
        Ok(())
    }

    /// What the version of a scope has for a key.
    pub fn look(&self, scope: Option<usize>, key: usize) -> Option<u32>
        ensures { result ≡ look self.now scope key }
    {
        let at = version_of(self.roots.as_slice(), scope);
        found_in(self.nodes.as_slice(), self.bits, at, key)
    }
}

/// The versions of scopes have their names.
pub fn of_scopes(alloc: Global, keys: &Keys, scopes: &[Scope]) -> Result<Versions, OutOfMemory>
    requires { length keys.now.objects.now ≤ 100000 }
    ensures { IfOk result (λ versions. (scope : Option ℕ) (names : List ℕ) → IsScope scopes.now scope names
        → Finds keys.now.objects.now versions scope names) }
{
    let mut versions = Versions::new(alloc, keys.objects.len());
    for scope in scopes {
        versions.add(keys, scope.outer, scope.object)?;
    }
    Ok(versions)
}

/// The number of the last of n.
pub fn behind(count: usize) -> Option<usize>
    ensures { result ≡ behind count }
{
    if count == 0 { None } else { Some(count - 1) }
}

/// The version of each static object has those up to it.
pub fn of_statics(
    alloc: Global,
    keys: &Keys,
    statics: &[(Spot, u32)],
) -> Result<Versions, OutOfMemory>
    requires { length keys.now.objects.now ≤ 100000 }
    ensures { IfOk result (λ versions. (count : ℕ) → count ≤ length statics.now
        → Finds keys.now.objects.now versions (behind count) (numbers_of (take count statics.now))) }
{
    let mut versions = Versions::new(alloc, keys.objects.len());
    for (index, object) in statics.iter().enumerate() {
        versions.add(keys, behind(index), object.1)?;
    }
    Ok(versions)
}
