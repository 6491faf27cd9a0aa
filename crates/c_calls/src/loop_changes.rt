// What a loop changes.
ghost use Rattle.std.specs.Prelude.{◌≡◌, ◌≤◌, length, IfOk, OnOk};
ghost use Rattle.c_core.specs.View.{form_view, program_view};
ghost use Rattle.c_core.specs.Scope.{is_fixed};
ghost use Rattle.c_meaning.specs.Parts.{some_of, is_in, those, object_numbers};
ghost use Rattle.c_calls.specs.Loops.{loop_of, loop_at, changed_if, declared_in_loop};
ghost use Rattle.c_calls.specs.Marks.{AreMarked, IsMarked, is_changed};
ghost use Rattle.c_calls.specs.Uses.{is_change, uses_of_function};

use crate::declared::push_declared;
use crate::loops::form_at;
use crate::marks::{has_mark, mark, no_marks};
use crate::search::{called, function_uses};
use crate::uses::{Use, push_loop};
use c_core::{Form, Program, Spot};
use std::alloc::Global;
use wv_base::{OutOfMemory, Seq};

fn mark_changes(marks: &mut [bool], uses: &[Use])
    ensures { IsMarked (λ o. some_of (is_change o) uses.now) marks.old marks.new }
{
    for used in uses {
        if let Use::Changes(object) = used {
            mark(marks, *object);
        }
    }
}

// Of this many objects those that are changed there.
fn changed_there(alloc: Global, count: usize, uses: &[Use]) -> Result<Vec<bool>, OutOfMemory>
    ensures { IfOk result (λ marks. AreMarked count (λ o. some_of (is_change o) uses.now) marks.items) }
{
    let mut marks = no_marks(alloc, count)?;
    mark_changes(marks.as_mut_slice(), uses);
    Ok(marks)
}

fn mark_all(marks: &mut [bool], numbers: &[u32])
    ensures { IsMarked (λ n. is_in n numbers.now) marks.old marks.new }
{
    for number in numbers {
        mark(marks, *number);
    }
}

// Of this many objects those that are declared in the body of a loop.
fn declared_there(alloc: Global, count: usize, form: &Form) -> Result<Vec<bool>, OutOfMemory>
    ensures { IfOk result (λ marks. AreMarked count (λ o. is_in o (declared_in_loop (form_view form.now)))
        marks.items) }
{
    let mut objects = Vec::new(alloc);
    match form {
        Form::While { body, .. } => push_declared(&mut objects, body)?,
        Form::Do { body, .. } => push_declared(&mut objects, body)?,
        Form::For { body, .. } => push_declared(&mut objects, body)?,
        _ => {}
    }
    let mut marks = no_marks(alloc, count)?;
    mark_all(marks.as_mut_slice(), objects.as_slice());
    Ok(marks)
}

fn mark_by_functions(
    alloc: Global,
    program: &Program,
    marks: &mut [bool],
    functions: &[u32],
) -> Result<(), OutOfMemory>
    ensures { OnOk result (IsMarked (λ o. some_of
        (λ f. some_of (is_change o) (uses_of_function (program_view program.now) f)) functions.now) marks.old
        marks.new) }
{
    for function in functions {
        let uses = function_uses(alloc, program, *function)?;
        mark_changes(marks, uses.as_slice());
    }
    Ok(())
}

// Of this many objects those that these functions change.
fn changed_by_functions(
    alloc: Global,
    program: &Program,
    count: usize,
    functions: &[u32],
) -> Result<Vec<bool>, OutOfMemory>
    ensures { IfOk result (λ marks. AreMarked count
        (λ o. some_of (λ f. some_of (is_change o) (uses_of_function (program_view program.now) f)) functions.now)
        marks.items) }
{
    let mut marks = no_marks(alloc, count)?;
    mark_by_functions(alloc, program, marks.as_mut_slice(), functions)?;
    Ok(marks)
}

fn is_changed(here: &[bool], inside: &[bool], there: &[bool], object: u32, fixed: bool) -> bool
    ensures { result ≡ is_changed here.now inside.now there.now object fixed }
{
    (has_mark(here, object) && !has_mark(inside, object)) || (fixed && has_mark(there, object))
}

// The objects that are changed by these marks, in the order of declaration.
fn collect(
    alloc: Global,
    program: &Program,
    here: &[bool],
    inside: &[bool],
    there: &[bool],
) -> Result<Vec<u32>, OutOfMemory>
    requires { length program.now.objects ≤ 100000 }
    ensures { IfOk result (λ objects. objects.items
        ≡ those (λ o. is_changed here.now inside.now there.now o (is_fixed (program_view program.now) o))
        (object_numbers (program_view program.now))) }
{
    let mut objects = Vec::new(alloc);
    for (number, object) in program.objects.as_slice().iter().enumerate() {
        if is_changed(here, inside, there, number as u32, object.fixed) {
            objects.push(number as u32)?;
        }
    }
    Ok(objects)
}

/// The objects that the loop of a statement changes, in the order of declaration: those declared outside the loop that
/// its test, step or body assigns or steps, and those of static storage that functions called from these do. No object
/// where the form is no loop.
pub fn changed_in(alloc: Global, program: &Program, form: &Form) -> Result<Seq<u32>, OutOfMemory>
    ensures { IfOk result (λ objects. objects ≡ changed_if (program_view program.now) (loop_of (form_view form.now))) }
{
    let mut uses = Vec::new(alloc);
    push_loop(&mut uses, form)?;
    let functions = called(alloc, program, uses.as_slice())?;
    let count = program.objects.len();
    let here = changed_there(alloc, count, uses.as_slice())?;
    let inside = declared_there(alloc, count, form)?;
    let there = changed_by_functions(alloc, program, count, functions.order.as_slice())?;
    let objects = collect(
        alloc,
        program,
        here.as_slice(),
        inside.as_slice(),
        there.as_slice(),
    )?;
    Ok(Seq::from_vec(objects))
}

/// The objects that the loop at a place changes, as `changed_in` lists them. No object where no loop is there.
pub fn changed(alloc: Global, program: &Program, at: Spot) -> Result<Seq<u32>, OutOfMemory>
    ensures { IfOk result (λ objects. objects
        ≡ changed_if (program_view program.now) (loop_at (program_view program.now) at)) }
{
    match form_at(program, at) {
        Some(form) => changed_in(alloc, program, form),
        None => Ok(Seq::new(alloc)),
    }
}
