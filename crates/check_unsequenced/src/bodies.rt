// What each function's body does, with the values that are kept of it.
ghost use Rattle.std.specs.Prelude.{◌≡◌, ◌++◌, [], get_or, map, OnOk, IfOk};
ghost use Rattle.c_core.specs.TreeView.{functions_view, stmt_view};
ghost use Rattle.check_sequencing.specs.Bodies.{effects_of_fulls};
ghost use Rattle.check_unsequenced.specs.Bodies.{body_effects, function_effects, kept_fulls, kept_views};

use c_core::Function;
use check_sequencing::{Declarations, Effect, Kept};
use std::alloc::Global;
use wv_base::{OutOfMemory, Seq};

fn push_kept(
    declared: &Declarations<'_>,
    list: &mut Vec<Effect>,
    kept: &[Kept],
) -> Result<(), OutOfMemory>
    ensures { OnOk result
        (list.new.items ≡ list.old.items ++ effects_of_fulls declared.now.objects.now declared.now.bodies
        (kept_fulls (kept_views kept.now))) }
{
    for one in kept {
        declared.push(list, false, &one.value)?;
    }
    Ok(())
}

fn push_kept_at(
    declared: &Declarations<'_>,
    list: &mut Vec<Effect>,
    kept: &[Seq<Kept>],
    at: usize,
) -> Result<(), OutOfMemory>
    ensures { OnOk result
        (list.new.items ≡ list.old.items ++ effects_of_fulls declared.now.objects.now declared.now.bodies
        (kept_fulls (kept_views (get_or kept.now at [])))) }
{
    if at < kept.len() {
        push_kept(declared, list, kept[at].as_slice())?;
    }
    Ok(())
}

fn effects_of_function(
    alloc: Global,
    declared: &Declarations<'_>,
    function: &Function,
    kept: &[Seq<Kept>],
    at: usize,
) -> Result<Seq<Effect>, OutOfMemory>
    ensures { IfOk result (λ list. list
        ≡ function_effects declared.now.objects.now declared.now.bodies (stmt_view function.now.body)
        (kept_views (get_or kept.now at []))) }
{
    let mut list = Vec::new(alloc);
    declared.push_body(alloc, &mut list, &function.body)?;
    push_kept_at(declared, &mut list, kept, at)?;
    Ok(Seq::from_vec(list))
}

/// What each function's body does.
pub fn effects_of_functions(
    alloc: Global,
    declared: &Declarations<'_>,
    functions: &[Function],
    kept: &[Seq<Kept>],
) -> Result<Vec<Seq<Effect>>, OutOfMemory>
    ensures { IfOk result (λ list. list.items
        ≡ body_effects declared.now.objects.now declared.now.bodies (functions_view functions.now)
        (map kept_views kept.now)) }
{
    let mut bodies = Vec::new(alloc);
    for (at, function) in functions.iter().enumerate() {
        let effects = effects_of_function(alloc, declared, function, kept, at)?;
        bodies.push(effects)?;
    }
    Ok(bodies)
}
