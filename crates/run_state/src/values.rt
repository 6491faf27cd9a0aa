// Values: operators, cells, places of arrays' elements.
ghost use Rattle.std.specs.Prelude.{◌≡◌, ◌/◌, Ok, cond};
ghost use Rattle.c_core.specs.Operators.{computed_one as computed_one_of, is_prefix};
ghost use Rattle.c_core.specs.View.{program_view};
ghost use Rattle.c_core.specs.declared.number.IntType.{IntType as NumberType};
ghost use Rattle.c_meaning.specs.Cells.{read};
ghost use Rattle.c_meaning.specs.Eval.{operate as operate_of, store as store_of, convert_to as convert_to_of};
ghost use Rattle.c_meaning.specs.Objects as objects;
ghost use Rattle.c_meaning.specs.Run as run;
ghost use Rattle.c_meaning.specs.Run.{State};
ghost use Rattle.run_state.specs.Interpreting.{Gives, same, state_of, where_of, key_of, watched, flow_of, gave_as, answering, keyed, changed, bumped};

use crate::machine::{Around, Element, Flow, Halt, Machine, Typed};
use crate::steps::violate;
use c_core::{
    BinOp, Done, IntType, Program, Property, Spot, StepOp, UnOp, computed, computed_one, convert,
    op_of_step,
};
use c_meaning::{End, Watcher, size_of_object};

// An overflow is the violation, or its value wraps.
fn finish<W: Watcher>(
    program: &Program,
    machine: &Machine,
    watcher: &mut W,
    at: Around,
    spot: Spot,
    done: Done,
) -> Result<i128, Halt>
    ensures gives { Gives same result (state_of machine.now (W.seen watcher.new))
        (answering (program_view program.now) W.Seen W.after (where_of at) spot done
        (state_of machine.now (W.seen watcher.old))) }
{
    match done {
        Done::Value(value) => Ok(value),
        Done::Undefined => Err(Halt::Ends(End::Undefined(spot))),
        Done::Overflow(value) => match program.property {
            Property::UnreachCall => Ok(value),
            Property::NoOverflow => violate(machine, watcher, at, spot, None),
        },
    }
}

/// A binary operator over values of two types, for the expression at a place.
pub fn operate<W: Watcher>(
    program: &Program,
    machine: &Machine,
    watcher: &mut W,
    at: Around,
    spot: Spot,
    op: BinOp,
    left: Typed,
    right: Typed,
) -> Result<i128, Halt>
    ensures gives { Gives same result (state_of machine.now (W.seen watcher.new))
        (operate_of (program_view program.now) (watched (program_view program.now) W.Seen W.after) (where_of at) spot op
        left.ty left.value right.ty right.value (state_of machine.now (W.seen watcher.old))) }
{
    let done = computed(
        program.model,
        op,
        left.ty,
        left.value,
        right.ty,
        right.value,
    );
    let value = finish(program, machine, watcher, at, spot, done)?;
    Ok(value)
}

/// A unary operator over a value of a type, for the expression at a place.
pub fn operate_one<W: Watcher>(
    program: &Program,
    machine: &Machine,
    watcher: &mut W,
    at: Around,
    spot: Spot,
    op: UnOp,
    of: Typed,
) -> Result<i128, Halt>
    ensures gives { Gives same result (state_of machine.now (W.seen watcher.new))
        (answering (program_view program.now) W.Seen W.after (where_of at) spot
        (computed_one_of program.now.model op of.ty of.value) (state_of machine.now (W.seen watcher.old))) }
{
    let done = computed_one(program.model, op, of.ty, of.value);
    let value = finish(program, machine, watcher, at, spot, done)?;
    Ok(value)
}

/// The element of an array at an index, for the expression at a place.
pub fn element<W: Watcher>(
    program: &Program,
    spot: Spot,
    object: u32,
    index: i128,
) -> Result<Element, Halt>
    ensures gives { (s : State W.Seen) → Gives key_of result s
        (keyed (program_view program.now) W.Seen W.after spot object
        (run.index_below (objects.size_of_object (program_view program.now) object) index) s) }
{
    let size = size_of_object(program, object);
    if index >= 0 && index < size as i128 {
        Ok(Element {
            object,
            index: index as u32,
        })
    } else {
        Err(Halt::Ends(End::Undefined(spot)))
    }
}

/// How many columns an object has.
pub fn columns_of_object(program: &Program, object: u32) -> u32
    ensures { result ≡ objects.columns_of_object (program_view program.now) object }
{
    match program.objects.get(object as usize) {
        Some(found) => found.columns,
        None => 1,
    }
}

/// The element of an array at a row and a column, each within its own dimension.
#[tactic(auto, using(c_meaning::proofs::Rows::within_row))]
pub fn element_in_row<W: Watcher>(
    program: &Program,
    spot: Spot,
    object: u32,
    row: i128,
    column: i128,
) -> Result<Element, Halt>
    ensures gives { (s : State W.Seen) → Gives key_of result s
        (keyed (program_view program.now) W.Seen W.after spot object
        (run.in_row (objects.columns_of_object (program_view program.now) object)
        (run.index_below (objects.size_of_object (program_view program.now) object / objects.columns_of_object
        (program_view program.now) object) row)
        (run.index_below (objects.columns_of_object (program_view program.now) object) column)) s) }
{
    let size = size_of_object(program, object);
    let columns = columns_of_object(program, object);
    if columns == 0 {
        return Err(Halt::Ends(End::Undefined(spot)));
    }
    if row >= 0 && row < (size / columns) as i128 && column >= 0 && column < columns as i128 {
        Ok(Element {
            object,
            index: row as u32 * columns + column as u32,
        })
    } else {
        Err(Halt::Ends(End::Undefined(spot)))
    }
}

/// The value of a cell.
pub fn look(machine: &Machine, at: Element) -> i128
    ensures { result ≡ read (key_of at) machine.now.memory.cells }
{
    match machine.memory.cell(at.object, at.index) {
        Some(value) => value,
        None => 0,
    }
}

/// Writes a value, converted to a type, and gives it.
pub fn store<W: Watcher>(
    program: &Program,
    machine: &mut Machine,
    at: Element,
    to: IntType,
    value: i128,
) -> i128
    ensures gives { (from : NumberType) (x : W.Seen)
        → Gives same (Ok result) (state_of machine.new x)
        (store_of (program_view program.now) (watched (program_view program.now) W.Seen W.after) (key_of at) from to
        value (state_of machine.old x)) }
    ensures spends { machine.new.steps ≡ machine.old.steps }
{
    let stored = convert(program.model, to, value);
    machine.memory.set(at.object, at.index, stored);
    stored
}

/// A returned value, converted to the function's result.
pub fn gave(program: &Program, wanted: Option<IntType>, value: i128) -> Flow
    ensures { flow_of result ≡ gave_as program.now.model wanted value }
{
    match wanted {
        Some(ty) => Flow::Gave(Some(convert(program.model, ty, value))),
        None => Flow::Gave(Some(value)),
    }
}

/// Converts a value where it is to have a type.
pub fn convert_to<W: Watcher>(program: &Program, ty: Option<IntType>, value: i128) -> i128
    ensures gives { (from : NumberType) (s : State W.Seen)
        → Gives same (Ok result) s
        (convert_to_of (program_view program.now) (watched (program_view program.now) W.Seen W.after) ty from value s) }
{
    match ty {
        None => value,
        Some(to) => convert(program.model, to, value),
    }
}

/// Writes what an operator gives over a cell's value and another.
pub fn change<W: Watcher>(
    program: &Program,
    machine: &mut Machine,
    watcher: &mut W,
    at: Around,
    spot: Spot,
    op: BinOp,
    key: Element,
    old: Typed,
    with: Typed,
) -> Result<i128, Halt>
    ensures gives { Gives same result (state_of machine.new (W.seen watcher.new))
        (changed (program_view program.now) W.Seen W.after (where_of at) spot op (key_of key) old.ty old.value with.ty
        with.value (state_of machine.old (W.seen watcher.old))) }
    ensures spends { machine.new.steps ≡ machine.old.steps }
{
    let value = operate(program, machine, watcher, at, spot, op, old, with)?;
    Ok(store::<W>(program, machine, key, old.ty, value))
}

// The value of a step, which left a value in place of another.
fn step_gives(op: StepOp, new: i128, old: i128) -> i128
    ensures { result ≡ cond (is_prefix op) new old }
{
    match op {
        StepOp::PreInc | StepOp::PreDec => new,
        StepOp::PostInc | StepOp::PostDec => old,
    }
}

/// One more or one less in a cell; the value after or before.
pub fn bump<W: Watcher>(
    program: &Program,
    machine: &mut Machine,
    watcher: &mut W,
    at: Around,
    spot: Spot,
    op: StepOp,
    key: Element,
    ty: IntType,
) -> Result<i128, Halt>
    ensures gives { Gives same result (state_of machine.new (W.seen watcher.new))
        (bumped (program_view program.now) W.Seen W.after (where_of at) spot op (key_of key) ty
        (state_of machine.old (W.seen watcher.old))) }
    ensures spends { machine.new.steps ≡ machine.old.steps }
{
    let old = look(machine, key);
    let one = Typed {
        value: 1,
        ty: IntType::Int,
    };
    let value = operate(
        program,
        machine,
        watcher,
        at,
        spot,
        op_of_step(op),
        Typed { value: old, ty },
        one,
    )?;
    let new = store::<W>(program, machine, key, ty, value);
    Ok(step_gives(op, new, old))
}
