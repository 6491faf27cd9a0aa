// What stands in a tree.
ghost use Rattle.std.specs.Prelude.{◌≡◌};
ghost use Rattle.std.specs.Option.{option_copied};
ghost use Rattle.wv_schema.specs.Paths.{text_in, items_in, pairs_in, value_of};

use wv_yaml::{Pair, Tree};

/// The text of a scalar.
pub fn text_of(tree: &Tree) -> Option<&str>
    ensures { option_copied result ≡ text_in tree.now }
{
    match tree {
        Tree::Text(text) => Some(text.as_str()),
        Tree::List(_) => None,
        Tree::Map(_) => None,
    }
}

/// The items of a sequence.
pub fn items_of(tree: &Tree) -> Option<&[Tree]>
    ensures { option_copied result ≡ items_in tree.now }
{
    match tree {
        Tree::Text(_) => None,
        Tree::List(items) => Some(items.as_slice()),
        Tree::Map(_) => None,
    }
}

/// The pairs of a mapping.
pub fn pairs_of(tree: &Tree) -> Option<&[Pair]>
    ensures { option_copied result ≡ pairs_in tree.now }
{
    match tree {
        Tree::Text(_) => None,
        Tree::List(_) => None,
        Tree::Map(pairs) => Some(pairs.as_slice()),
    }
}

/// The value of a key.
pub fn find<'a>(pairs: &'a [Pair], key: &str) -> Option<&'a Tree>
    ensures { option_copied result ≡ value_of key.now pairs.now }
{
    for pair in pairs {
        if pair.key.as_str() == key {
            return Some(&pair.value);
        }
    }
    None
}
