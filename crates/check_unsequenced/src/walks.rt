// Goes through all functions, and through all kept values.
ghost use Rattle.std.specs.Prelude.{◌++◌, [], get_or, map, OnOk};
ghost use Rattle.c_core.specs.TreeView.{functions_view, stmt_view};
ghost use Rattle.check_sequencing.specs.Bodies.{tested_fulls, tests_of};
ghost use Rattle.check_sequencing.specs.Walking.{IsGone, IsReady, IsSameWalk};
ghost use Rattle.check_unsequenced.specs.Bodies.{all_fulls, function_fulls, kept_full, kept_fulls, kept_view, kept_views};

use c_core::Function;
use check_sequencing::{Kept, Walk};
use wv_base::{OutOfMemory, Seq};

fn walk_one(walk: &mut Walk<'_>, kept: &Kept) -> Result<(), OutOfMemory>
    requires { IsReady walk.old }
    ensures same { IsSameWalk walk.old walk.new }
    ensures gone { OnOk result (IsGone walk.old walk.new (tests_of (kept_full (kept_view kept.now)))) }
{
    match kept.object {
        None => walk.full_expression(&kept.value),
        Some(object) => walk.initializer(object, &kept.value),
    }
}

/// Goes through kept values.
pub fn walk_kept(walk: &mut Walk<'_>, kept: &[Kept]) -> Result<(), OutOfMemory>
    requires { IsReady walk.old }
    ensures same { IsSameWalk walk.old walk.new }
    ensures gone { OnOk result (IsGone walk.old walk.new (tested_fulls (kept_fulls (kept_views kept.now)))) }
{
    for one in kept {
        walk_one(walk, one)?;
    }
    Ok(())
}

fn walk_kept_at(walk: &mut Walk<'_>, kept: &[Seq<Kept>], at: usize) -> Result<(), OutOfMemory>
    requires { IsReady walk.old }
    ensures same { IsSameWalk walk.old walk.new }
    ensures gone { OnOk result (IsGone walk.old walk.new
        (tested_fulls (kept_fulls (kept_views (get_or kept.now at []))))) }
{
    if at < kept.len() {
        walk_kept(walk, kept[at].as_slice())?;
    }
    Ok(())
}

fn walk_function(
    walk: &mut Walk<'_>,
    function: &Function,
    kept: &[Seq<Kept>],
    at: usize,
) -> Result<(), OutOfMemory>
    requires { IsReady walk.old }
    ensures same { IsSameWalk walk.old walk.new }
    ensures gone { OnOk result (IsGone walk.old walk.new
        (tested_fulls (function_fulls (stmt_view function.now.body) (kept_views (get_or kept.now at []))))) }
{
    walk.body(&function.body)?;
    walk_kept_at(walk, kept, at)?;
    Ok(())
}

/// Goes through the bodies of functions, each with what is kept of it.
pub fn walk_functions(
    walk: &mut Walk<'_>,
    functions: &[Function],
    kept: &[Seq<Kept>],
) -> Result<(), OutOfMemory>
    requires { IsReady walk.old }
    ensures same { IsSameWalk walk.old walk.new }
    ensures gone { OnOk result (IsGone walk.old walk.new
        (tested_fulls (all_fulls (functions_view functions.now) (map kept_views kept.now)))) }
{
    for (at, function) in functions.iter().enumerate() {
        walk_function(walk, function, kept, at)?;
    }
    Ok(())
}
