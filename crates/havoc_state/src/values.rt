// Values: operators, cells, places of arrays' elements.
ghost use Rattle.std.specs.Prelude.{◌≡◌, ◌/◌, [], None, Ok, cond};
ghost use Rattle.c_core.specs.Types.{fit, promote_of};
ghost use Rattle.c_core.specs.Operators.{apply_one_of, is_prefix};
ghost use Rattle.c_core.specs.View.{program_view};
ghost use Rattle.c_core.specs.declared.number.IntType.{IntType as NumberType};
ghost use Rattle.c_meaning.specs.Cells.{read};
ghost use Rattle.c_meaning.specs.Duties.{duty};
ghost use Rattle.c_meaning.specs.Eval.{operate as operate_of, store as store_of, convert_to as convert_to_of};
ghost use Rattle.c_meaning.specs.Havoc as havoc;
ghost use Rattle.c_meaning.specs.Havoc.{Left};
ghost use Rattle.c_meaning.specs.Objects as objects;
ghost use Rattle.c_meaning.specs.Run as run;
ghost use Rattle.run_state.specs.Interpreting.{same, where_of, key_of};
ghost use Rattle.c_meaning.specs.declared.run.DutyKind.TheVariants.{Property as PropertyKind};
ghost use Rattle.havoc_state.specs.declared.machine.Ending.TheVariants.{Fails as EndFails};
ghost use Rattle.havoc_state.specs.declared.machine.Halt.TheVariants.{Ends};
ghost use Rattle.havoc_state.specs.Havocking.{Gives, left_of, havocked, changed, bumped};

use crate::machine::{Ending, Halt, Machine};
use c_core::{
    BinOp, Done, IntType, Program, Property, StepOp, UnOp, computed, computed_one, convert,
    op_of_step,
};
use c_meaning::{Duty, DutyKind, size_of_object};
use run_state::{Around, Element, Typed, columns_of_object};

/// The property is violated in a full expression.
pub fn violate(at: Around) -> Halt
    ensures { result ≡ Ends (EndFails (duty at.full PropertyKind None)) }
{
    Halt::Ends(Ending::Fails(Duty {
        spot: at.full,
        kind: DutyKind::Property,
        invariant: None,
    }))
}

// An overflow is the violation, or its value wraps.
fn finish(program: &Program, at: Around, done: Done) -> Result<i128, Halt>
    ensures { (s : Left) → Gives same result s (havoc.answered (program_view program.now) [] (where_of at) done s) }
{
    match done {
        Done::Value(value) => Ok(value),
        Done::Undefined => Err(Halt::Ends(Ending::Passes)),
        Done::Overflow(value) => match program.property {
            Property::UnreachCall => Ok(value),
            Property::NoOverflow => Err(violate(at)),
        },
    }
}

/// A binary operator over values of two types.
pub fn operate(
    program: &Program,
    at: Around,
    op: BinOp,
    left: Typed,
    right: Typed,
) -> Result<i128, Halt>
    ensures { (s : Left) → Gives same result s
        (operate_of (program_view program.now) (havocked (program_view program.now) []) (where_of at) at.full op left.ty
        left.value right.ty right.value s) }
{
    let done = computed(
        program.model,
        op,
        left.ty,
        left.value,
        right.ty,
        right.value,
    );
    let value = finish(program, at, done)?;
    Ok(value)
}

/// A unary operator over a value of a type.
pub fn operate_one(program: &Program, at: Around, op: UnOp, of: Typed) -> Result<i128, Halt>
    ensures { (s : Left) → Gives same result s
        (havoc.answered (program_view program.now) [] (where_of at)
        (apply_one_of program.now.model op (promote_of of.ty) (fit program.now.model (promote_of of.ty) of.value)) s) }
{
    let done = computed_one(program.model, op, of.ty, of.value);
    let value = finish(program, at, done)?;
    Ok(value)
}

/// The element of an array at an index.
pub fn element(program: &Program, object: u32, index: i128) -> Result<Element, Halt>
    ensures { (s : Left) → Gives key_of result s
        (havoc.key_of (program_view program.now) [] object
        (run.index_below (objects.size_of_object (program_view program.now) object) index) s) }
{
    let size = size_of_object(program, object);
    if index >= 0 && index < size as i128 {
        Ok(Element {
            object,
            index: index as u32,
        })
    } else {
        Err(Halt::Ends(Ending::Passes))
    }
}

/// The element of an array at a row and a column, each within its own dimension.
#[tactic(auto, using(c_meaning::proofs::Rows::within_row))]
pub fn element_in_row(
    program: &Program,
    object: u32,
    row: i128,
    column: i128,
) -> Result<Element, Halt>
    ensures { (s : Left) → Gives key_of result s
        (havoc.key_of (program_view program.now) [] object
        (run.in_row (objects.columns_of_object (program_view program.now) object)
        (run.index_below (objects.size_of_object (program_view program.now) object / objects.columns_of_object
        (program_view program.now) object) row)
        (run.index_below (objects.columns_of_object (program_view program.now) object) column)) s) }
{
    let size = size_of_object(program, object);
    let columns = columns_of_object(program, object);
    if columns == 0 {
        return Err(Halt::Ends(Ending::Passes));
    }
    if row >= 0 && row < (size / columns) as i128 && column >= 0 && column < columns as i128 {
        Ok(Element {
            object,
            index: row as u32 * columns + column as u32,
        })
    } else {
        Err(Halt::Ends(Ending::Passes))
    }
}

/// The value of a cell.
pub fn look(machine: &Machine, at: Element) -> i128
    ensures { result ≡ read (key_of at) machine.now.memory.cells }
{
    match machine.memory.cell(at.object, at.index) {
        Some(value) => value,
        None => 0,
    }
}

/// Writes a value, converted to a type, and gives it.
pub fn store(
    program: &Program,
    machine: &mut Machine,
    at: Element,
    to: IntType,
    value: i128,
) -> i128
    ensures { (from : NumberType) → Gives same (Ok result) (left_of machine.new)
        (store_of (program_view program.now) (havocked (program_view program.now) []) (key_of at) from to value
        (left_of machine.old)) }
{
    let stored = convert(program.model, to, value);
    machine.memory.set(at.object, at.index, stored);
    stored
}

/// Converts a value where it is to have a type.
pub fn convert_to(program: &Program, ty: Option<IntType>, value: i128) -> i128
    ensures { (from : NumberType) (s : Left)
        → Gives same (Ok result) s
        (convert_to_of (program_view program.now) (havocked (program_view program.now) []) ty from value s) }
{
    match ty {
        None => value,
        Some(to) => convert(program.model, to, value),
    }
}

/// Writes what an operator gives over a cell's value and another.
pub fn change(
    program: &Program,
    machine: &mut Machine,
    at: Around,
    op: BinOp,
    key: Element,
    old: Typed,
    with: Typed,
) -> Result<i128, Halt>
    ensures { Gives same result (left_of machine.new)
        (changed (program_view program.now) [] (where_of at) at.full op (key_of key) old.ty old.value with.ty with.value
        (left_of machine.old)) }
{
    let value = operate(program, at, op, old, with)?;
    Ok(store(program, machine, key, old.ty, value))
}

// The value of a step, which left a value in place of another.
fn step_gives(op: StepOp, new: i128, old: i128) -> i128
    ensures { result ≡ cond (is_prefix op) new old }
{
    match op {
        StepOp::PreInc | StepOp::PreDec => new,
        StepOp::PostInc | StepOp::PostDec => old,
    }
}

/// One more or one less in a cell; the value after or before.
pub fn bump(
    program: &Program,
    machine: &mut Machine,
    at: Around,
    op: StepOp,
    key: Element,
    ty: IntType,
) -> Result<i128, Halt>
    ensures { Gives same result (left_of machine.new)
        (bumped (program_view program.now) [] (where_of at) at.full op (key_of key) ty (left_of machine.old)) }
{
    let old = look(machine, key);
    let one = Typed {
        value: 1,
        ty: IntType::Int,
    };
    let value = operate(program, at, op_of_step(op), Typed { value: old, ty }, one)?;
    let new = store(program, machine, key, ty, value);
    Ok(step_gives(op, new, old))
}
