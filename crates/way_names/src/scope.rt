// The scopes of functions, which lie in one another.
ghost use Rattle.std.specs.Prelude.{IfOk};
ghost use Rattle.way_names.specs.Scopes.{HasNames, IsScope};

use std::alloc::Global;
use wv_base::OutOfMemory;

/// A scope with one name more than the scope around it, which has a number too. The outermost has no names, and no
/// number.
#[derive(Clone, Copy)]
pub struct Scope {
    pub outer: Option<usize>,
    pub object: u32,
}

/// The names of a scope, innermost last.
pub fn names_in(
    alloc: Global,
    scopes: &[Scope],
    innermost: Option<usize>,
) -> Result<Vec<u32>, OutOfMemory>
    requires { HasNames scopes.now innermost }
    ensures { IfOk result (λ names. IsScope scopes.now innermost names.items) }
{
    let mut names = Vec::new(alloc);
    let mut scope = innermost;
    while let Some(number) = scope {
        let inner = scopes[number];
        names.push(inner.object)?;
        scope = inner.outer;
    }
    names.reverse();
    Ok(names)
}
