// Whole programs.
ghost use Rattle.std.specs.Prelude.{◌≡◌, ◌++◌, length, slice_get, OnOk, IfOk};
ghost use Rattle.c_core.specs.View.{program_view, function_view, functions_view};
ghost use Rattle.flow_code.specs.Programs as spec;
ghost use Rattle.flow_code.specs.Programs.{IsCodeOf, function_code, functions_code, bodies, parameters_of};

use crate::code::{Action, Body, Code, Op, Parameter};
use crate::emit::{ahead, emit, here};
use crate::sizes::{outermost, size_of_form};
use crate::statements::{Inside, form};
use crate::statics::{cell_counts, first_cells};
use crate::words::{native, native_if};
use c_core::{Function, Program};
use c_meaning::type_of_object;
use std::alloc::Global;
use wv_base::{OutOfMemory, Seq};

/// A program as code.
pub fn compile(alloc: Global, program: &Program) -> Result<Code, OutOfMemory>
    ensures { IfOk result (IsCodeOf (program_view program.now)) }
{
    let mut ops = Seq::new(alloc);
    // where there is no `main`, a run ends here
    emit(&mut ops, 0, Action::End)?;
    let functions = functions(alloc, program, &mut ops)?;
    let main = entry_of(&functions, program.main);
    let first = first_cells(alloc, program)?;
    let sizes = cell_counts(alloc, program)?;
    Ok(Code {
        model: program.model,
        property: program.property,
        ops,
        functions,
        first,
        sizes,
        main,
    })
}

// Where a function begins, if there is one.
fn entry_of(functions: &Seq<Body>, number: u32) -> u32
    ensures { result ≡ spec.entry_of (slice_get functions.now number) }
{
    match functions.get(number as usize) {
        Some(found) => found.entry,
        None => 0,
    }
}

// All functions, one behind another.
fn functions(alloc: Global, program: &Program, ops: &mut Seq<Op>) -> Result<Seq<Body>, OutOfMemory>
    ensures code { IfOk result (λ found. ops.new
        ≡ ops.old ++ functions_code (program_view program.now) (length ops.old)
        (functions_view program.now.functions)) }
    ensures found { IfOk result (λ found. found
        ≡ bodies (program_view program.now) (length ops.old) (functions_view program.now.functions)) }
{
    let mut found = Seq::new(alloc);
    for function in program.functions.as_slice() {
        let entry = here(ops)?;
        add_body(alloc, program, ops, function)?;
        let parameters = parameters(alloc, program, function.params.as_slice())?;
        found.push(Body { entry, parameters })?;
    }
    Ok(found)
}

// A function's body: its step, its statements, and the way back.
fn add_body(
    alloc: Global,
    program: &Program,
    ops: &mut Seq<Op>,
    function: &Function,
) -> Result<(), OutOfMemory>
    ensures { OnOk result (ops.new ≡ ops.old ++ function_code (program_view program.now) (length ops.old)
        (function_view function.now)) }
{
    let depth = outermost();
    let size = size_of_form(&function.body.form, depth)?;
    emit(ops, 1, Action::Rest)?;
    let leave = ahead(ops, size)?;
    let result = native_if(program.model, function.result);
    let inside = Inside {
        broken: leave,
        again: leave,
        depth,
        result,
    };
    let at = function.body.spot;
    form(alloc, program, ops, inside, at, &function.body.form)?;
    emit(ops, 0, Action::Leave)?;
    Ok(())
}

fn parameters(
    alloc: Global,
    program: &Program,
    objects: &[u32],
) -> Result<Seq<Parameter>, OutOfMemory>
    ensures { IfOk result (λ found. found ≡ parameters_of (program_view program.now) objects.now) }
{
    let mut found = Seq::new(alloc);
    for object in objects {
        let object_type = type_of_object(program, *object);
        let ty = native(program.model, object_type);
        found.push(Parameter {
            object: *object,
            ty,
        })?;
    }
    Ok(found)
}
