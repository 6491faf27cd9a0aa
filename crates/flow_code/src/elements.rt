// The cells of elements among those of their object, from their indexes.
ghost use Rattle.std.specs.Prelude.{◌≡◌, length, IfOk};
ghost use Rattle.c_core.specs.View.{program_view, expr_view, exprs_view};
ghost use Rattle.flow_code.specs.Expressions.{both_ready, element_code};
ghost use Rattle.flow_code.specs.Expressions as spec;
ghost use Rattle.flow_code.specs.Making.{IsReady};

use crate::calls::arguments;
use crate::code::{Action, Op, Operand, Then};
use crate::emit::emit;
use crate::operands::{Prepared, prepare, prepare_both};
use c_core::{Expr, Program, Spot};
use c_meaning::size_of_object;
use run_state::{Around, columns_of_object};
use wv_base::{OutOfMemory, Seq};

// The number of rows of an object.
fn rows_of_object(program: &Program, object: u32) -> u32
    ensures { result ≡ spec.rows_of_object (program_view program.now) object }
{
    let size = size_of_object(program, object);
    let columns = columns_of_object(program, object);
    if columns == 0 { 0 } else { size / columns }
}

/// The cell of an element, as an operand.
#[cycle(expression)]
pub fn element_cell(
    program: &Program,
    ops: &mut Seq<Op>,
    steps: u32,
    around: Around,
    spot: Spot,
    object: u32,
    indexes: &[Expr],
) -> Result<Prepared, OutOfMemory>
    ensures { IfOk result (λ q. IsReady q ops.old ops.new
        (element_code (program_view program.now) around (length ops.old) steps spot object (exprs_view indexes.now))) }
{
    match indexes {
        [] => Ok(Prepared {
            operand: Operand::Number(-1),
            steps,
        }),
        [index] => prepare(program, ops, steps, around, index),
        [row, column] => in_row(program, ops, steps, around, spot, object, row, column),
        // no element of a checked program: all are evaluated, and no cell is found
        _ => {
            let left = arguments(program, ops, steps, around, indexes, Then::Drop)?;
            Ok(Prepared {
                operand: Operand::Number(-1),
                steps: left,
            })
        }
    }
}

// The cell of a row and a column.
#[cycle(expression)]
fn in_row(
    program: &Program,
    ops: &mut Seq<Op>,
    steps: u32,
    around: Around,
    spot: Spot,
    object: u32,
    row: &Expr,
    column: &Expr,
) -> Result<Prepared, OutOfMemory>
    ensures { IfOk result (λ q. IsReady q ops.old ops.new
        (spec.in_row (program_view program.now) object spot
        (both_ready (program_view program.now) around (length ops.old) steps (expr_view row.now)
        (expr_view column.now)))) }
{
    let pair = prepare_both(program, ops, steps, around, row, column)?;
    let rows = rows_of_object(program, object);
    let columns = columns_of_object(program, object);
    emit(
        ops,
        pair.steps,
        Action::Row {
            rows,
            columns,
            left: pair.left,
            right: pair.right,
            spot,
        },
    )?;
    Ok(Prepared {
        operand: Operand::Top,
        steps: 0,
    })
}
