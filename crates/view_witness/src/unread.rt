// What of a witness isn't read: keys that the format doesn't have, and names of other files than the program's.
use crate::known::{inside, item_of};
use std::alloc::Global;
use view_paths::{Step, reached};
use wv_base::OutOfMemory;
use wv_yaml::{Pair, Tree};

/// So many keys and names are kept of each.
const MOST: usize = 100;

/// A map or a list of which the format says what stands in it.
#[derive(Clone, Copy)]
struct Node<'t> {
    tree: &'t Tree,
    name: &'static str,
    /// The number of the node in which it stands.
    above: usize,
    step: Step<'t>,
}

/// A key, by the number of the map that it stands in.
#[derive(Clone, Copy)]
pub struct Found<'t> {
    pub node: usize,
    pub key: &'t str,
}

/// The first finds of a kind, and how many there are.
#[derive(Drop)]
pub struct Finds<'t> {
    pub first: Vec<Found<'t>>,
    pub count: usize,
}

impl<'t> Finds<'t> {
    fn new(alloc: Global) -> Finds<'t> {
        Finds {
            first: Vec::new(alloc),
            count: 0,
        }
    }

    fn keep(&mut self, found: Found<'t>) -> Result<(), OutOfMemory> {
        self.count = self.count.saturating_add(1);
        if self.first.len() < MOST {
            self.first.push(found)?;
        }
        Ok(())
    }
}

/// A walk over what the format has, from the entries down.
#[derive(Drop)]
pub struct Unread<'t> {
    nodes: Vec<Node<'t>>,
    /// The file that the first entry is about.
    file: &'t str,
    /// Keys that the format doesn't have in their maps.
    pub keys: Finds<'t>,
    /// Names of other files in locations; the key is the name.
    pub names: Finds<'t>,
}

/// The text at a path; empty where none stands there.
fn text_at<'t>(tree: &'t Tree, steps: &[Step<'_>]) -> &'t str {
    match reached(tree, steps) {
        Some(Tree::Text(text)) => text.as_str(),
        _ => "",
    }
}

/// A name of a file without its folders.
fn last_part(name: &str) -> &str {
    match name.rsplit_once('/') {
        Some((_, last)) => last,
        None => name,
    }
}

impl<'t> Unread<'t> {
    fn new(alloc: Global, tree: &'t Tree) -> Unread<'t> {
        let first_file = [
            Step::Item(0),
            Step::Key("metadata"),
            Step::Key("task"),
            Step::Key("input_files"),
            Step::Item(0),
        ];
        Unread {
            nodes: Vec::new(alloc),
            file: text_at(tree, &first_file),
            keys: Finds::new(alloc),
            names: Finds::new(alloc),
        }
    }

    /// What a witness of at most so many bytes has that isn't read.
    pub fn of(alloc: Global, tree: &'t Tree, limit: usize) -> Result<Unread<'t>, OutOfMemory> {
        let mut unread = Unread::new(alloc, tree);
        unread.push(tree, "entries", 0, Step::Item(0))?;
        for number in 0..limit {
            let Some(node) = unread.nodes.get(number).copied() else {
                break;
            };
            unread.visit(number, node)?;
        }
        Ok(unread)
    }

    fn push(
        &mut self,
        tree: &'t Tree,
        name: &'static str,
        above: usize,
        step: Step<'t>,
    ) -> Result<(), OutOfMemory> {
        self.nodes.push(Node {
            tree,
            name,
            above,
            step,
        })?;
        Ok(())
    }

    fn visit(&mut self, number: usize, node: Node<'t>) -> Result<(), OutOfMemory> {
        match node.tree {
            Tree::Text(_) => Ok(()),
            Tree::List(items) => self.visit_items(number, item_of(node.name), items.as_slice()),
            Tree::Map(pairs) => {
                if node.name == "location" {
                    self.visit_name(number, text_at(node.tree, &[Step::Key("file_name")]))?;
                }
                self.visit_pairs(number, node.name, pairs.as_slice())
            }
        }
    }

    fn visit_items(
        &mut self,
        number: usize,
        name: &'static str,
        items: &'t [Tree],
    ) -> Result<(), OutOfMemory> {
        if name.is_empty() {
            return Ok(());
        }
        for (index, item) in items.iter().enumerate() {
            self.push(item, name, number, Step::Item(index))?;
        }
        Ok(())
    }

    fn visit_pairs(
        &mut self,
        number: usize,
        name: &'static str,
        pairs: &'t [Pair],
    ) -> Result<(), OutOfMemory> {
        if !item_of(name).is_empty() {
            return Ok(());
        }
        for pair in pairs {
            self.visit_pair(number, name, pair)?;
        }
        Ok(())
    }

    fn visit_pair(
        &mut self,
        number: usize,
        name: &'static str,
        pair: &'t Pair,
    ) -> Result<(), OutOfMemory> {
        let key = pair.key.as_str();
        match inside(name, key) {
            None => self.keys.keep(Found { node: number, key }),
            Some(within) => {
                if within.is_empty() {
                    return Ok(());
                }
                self.push(&pair.value, within, number, Step::Key(key))
            }
        }
    }

    fn visit_name(&mut self, number: usize, name: &'t str) -> Result<(), OutOfMemory> {
        if name.is_empty() || last_part(name) == last_part(self.file) {
            return Ok(());
        }
        self.names.keep(Found {
            node: number,
            key: name,
        })
    }

    /// The file that the witness is about.
    pub fn file(&self) -> &'t str {
        self.file
    }

    /// The name of a map, by its number.
    pub fn name_of(&self, number: usize) -> &'static str {
        match self.nodes.get(number) {
            Some(node) => node.name,
            None => "",
        }
    }

    /// Whether a map has a key, by the map's number.
    pub fn has(&self, number: usize, key: &str) -> bool {
        match self.nodes.get(number) {
            Some(node) => reached(node.tree, &[Step::Key(key)]).is_some(),
            None => false,
        }
    }

    /// The number of the map in which a map stands, over the list between them.
    pub fn above(&self, number: usize) -> usize {
        let Some(node) = self.nodes.get(number) else {
            return 0;
        };
        match self.nodes.get(node.above) {
            Some(list) if !item_of(list.name).is_empty() => list.above,
            _ => node.above,
        }
    }

    /// The path of a key of a map.
    pub fn path(
        &self,
        alloc: Global,
        number: usize,
        key: &'t str,
    ) -> Result<Vec<Step<'t>>, OutOfMemory> {
        let mut back = Vec::new(alloc);
        back.push(Step::Key(key))?;
        let mut at = number;
        for _ in 0..16 {
            let Some(node) = self.nodes.get(at) else {
                break;
            };
            if at == 0 {
                break;
            }
            back.push(node.step)?;
            at = node.above;
        }
        turned(alloc, back.as_slice())
    }
}

/// Steps from the first to the last.
fn turned<'t>(alloc: Global, back: &[Step<'t>]) -> Result<Vec<Step<'t>>, OutOfMemory> {
    let mut steps = Vec::new(alloc);
    for step in back.iter().rev() {
        steps.push(*step)?;
    }
    Ok(steps)
}
