// The code of declared names.
ghost use Rattle.std.specs.Prelude.{◌≡◌, ◌++◌, length, OnOk};
ghost use Rattle.c_core.specs.View.{program_view, expr_view, exprs_view, rows_view, init_view, names_view};
ghost use Rattle.flow_code.specs.Statements.{names_code, name_code, init_code, rows_code, initials_code, initial_code};
ghost use Rattle.flow_code.specs.Statements as spec;

use crate::code::{Action, Into, Op, Place, Store, Then};
use crate::emit::{emit, more};
use crate::targets::stored;
use crate::words::native;
use c_core::{Declared, Expr, Init, Program, Row, Spot};
use c_meaning::{size_of_object, type_of_object};
use run_state::{Around, columns_of_object};
use wv_base::{OutOfMemory, Seq};

/// Declared names, each with its cells and its initializer.
pub fn declare(
    program: &Program,
    ops: &mut Seq<Op>,
    at: Spot,
    names: &[Declared],
) -> Result<(), OutOfMemory>
    ensures { OnOk result (ops.new ≡ ops.old ++ names_code (program_view program.now) (length ops.old) at
        (names_view names.now)) }
{
    for name in names {
        introduce(program, ops, at, name)?;
    }
    Ok(())
}

// A name without an initializer draws its cells' values.
fn draws(init: &Init) -> bool
    ensures { result ≡ spec.draws (init_view init.now) }
{
    match init {
        Init::Absent => true,
        Init::One(_) => false,
        Init::Many(_) => false,
        Init::Rows(_) => false,
    }
}

fn introduce(
    program: &Program,
    ops: &mut Seq<Op>,
    at: Spot,
    name: &Declared,
) -> Result<(), OutOfMemory>
    ensures { OnOk result (ops.new ≡ ops.old ++ name_code (program_view program.now) (length ops.old) at name.now.spot
        name.now.object (init_view name.now.init)) }
{
    let object = name.object;
    let size = size_of_object(program, object);
    let ty = type_of_object(program, object);
    let draws = draws(&name.init);
    emit(
        ops,
        size,
        Action::Declare {
            spot: name.spot,
            object,
            size,
            ty,
            draws,
        },
    )?;
    initializer(program, ops, at, object, &name.init)?;
    Ok(())
}

fn initializer(
    program: &Program,
    ops: &mut Seq<Op>,
    at: Spot,
    object: u32,
    init: &Init,
) -> Result<(), OutOfMemory>
    ensures { OnOk result (ops.new ≡ ops.old ++ init_code (program_view program.now) (length ops.old) at object
        (init_view init.now)) }
{
    match init {
        Init::Absent => Ok(()),
        Init::One(e) => initial(program, ops, at, object, 0, e),
        Init::Many(values) => initials(program, ops, at, object, 0, values.as_slice()),
        Init::Rows(rows) => row_initials(program, ops, at, object, rows.as_slice()),
    }
}

// The values of rows, each row from its own cell on.
fn row_initials(
    program: &Program,
    ops: &mut Seq<Op>,
    at: Spot,
    object: u32,
    rows: &[Row],
) -> Result<(), OutOfMemory>
    ensures { OnOk result (ops.new ≡ ops.old ++ rows_code (program_view program.now) (length ops.old) at object 0
        (rows_view rows.now)) }
{
    let columns = columns_of_object(program, object);
    let mut index = 0;
    for row in rows {
        initials(program, ops, at, object, index, row.values.as_slice())?;
        index = more(index, columns)?;
    }
    Ok(())
}

// The values of a list, cell by cell from one on.
fn initials(
    program: &Program,
    ops: &mut Seq<Op>,
    at: Spot,
    object: u32,
    start: u32,
    values: &[Expr],
) -> Result<(), OutOfMemory>
    ensures { OnOk result (ops.new ≡ ops.old ++ initials_code (program_view program.now) (length ops.old) at object
        start (exprs_view values.now)) }
{
    let mut index = start;
    for e in values {
        initial(program, ops, at, object, index, e)?;
        index = more(index, 1)?;
    }
    Ok(())
}

// The value of a cell.
fn initial(
    program: &Program,
    ops: &mut Seq<Op>,
    at: Spot,
    object: u32,
    index: u32,
    e: &Expr,
) -> Result<(), OutOfMemory>
    ensures { OnOk result (ops.new ≡ ops.old ++ initial_code (program_view program.now) (length ops.old) at object index
        (expr_view e.now)) }
{
    let object_type = type_of_object(program, object);
    let ty = native(program.model, object_type);
    let store = Store {
        place: Place::Fixed(object, index),
        ty,
        old: false,
    };
    let into = Into {
        store: Some(store),
        then: Then::Drop,
    };
    let around = Around {
        statement: at,
        full: e.spot,
    };
    stored(program, ops, 0, around, e, into)?;
    Ok(())
}
