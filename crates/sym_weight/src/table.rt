// What each part weighs without the parts in it.
ghost use Rattle.std.specs.Prelude.{◌≡◌, ◌≤◌, ◌<◌, ◌^◌};
ghost use Rattle.c_core.specs.Operators as operators;
ghost use Rattle.c_core.specs.Types.{width_of};
ghost use Rattle.c_core.specs.Typing as typing;
ghost use Rattle.c_core.specs.View.{expr_view, exprs_view, node_view, program_view, switch_view};
ghost use Rattle.c_meaning.specs.Objects as objects;
ghost use Rattle.sym_weight.specs.Table as table;
ghost use Rattle.sym_weight.specs.Tally.{capped};

use c_core::{
    Arm, BinOp, Callee, DataModel, Expr, IntType, Label, Node, Program, StepOp, UnOp, op_of_step,
    promote, right_type_for, type_for,
};
use c_meaning::{size_of_object, type_of, type_of_object};

fn number_of_type(ty: IntType) -> u8
    ensures { result ≡ typing.number_of_type ty }
{
    match ty {
        IntType::Bool => 0,
        IntType::Char => 1,
        IntType::SChar => 2,
        IntType::UChar => 3,
        IntType::Short => 4,
        IntType::UShort => 5,
        IntType::Int => 6,
        IntType::UInt => 7,
        IntType::Long => 8,
        IntType::ULong => 9,
        IntType::LongLong => 10,
        IntType::ULongLong => 11,
    }
}

fn same_type(a: IntType, b: IntType) -> bool
    ensures { result ≡ typing.same_type a b }
{
    number_of_type(a) == number_of_type(b)
}

fn width(model: DataModel, ty: IntType) -> u64
    ensures value { result ≡ width_of model ty }
    ensures bound { result ≤ 64 }
{
    u64::from(c_core::width(model, ty))
}

fn operator_weight(model: DataModel, op: BinOp, ty: IntType) -> u64
    ensures value { result ≡ table.operator_weight model op ty }
    ensures bound { result < 2 ^ 18 }
{
    let bits = width(model, ty);
    match op {
        BinOp::Mul | BinOp::Div | BinOp::Rem => 32 * (bits * bits),
        BinOp::Shl | BinOp::Shr => 64 * bits,
        BinOp::And | BinOp::Xor | BinOp::Or => 4 * bits,
        _ => 16 * bits,
    }
}

fn unary_weight(model: DataModel, op: UnOp, ty: IntType) -> u64
    ensures value { result ≡ table.unary_weight model op ty }
    ensures bound { result < 2 ^ 18 }
{
    match op {
        UnOp::Plus => 0,
        UnOp::Neg => 16 * width(model, ty),
        UnOp::BitNot => 4 * width(model, ty),
        UnOp::Not => width(model, ty),
    }
}

fn conversion(model: DataModel, from: IntType, to: IntType) -> u64
    ensures value { result ≡ table.conversion model from to }
    ensures bound { result ≤ 64 }
{
    if same_type(from, to) {
        0
    } else {
        width(model, from)
    }
}

fn conversion_to(model: DataModel, to: Option<IntType>, from: IntType) -> u64
    ensures value { result ≡ table.conversion_to model to from }
    ensures bound { result ≤ 64 }
{
    match to {
        Some(to) => conversion(model, from, to),
        None => 0,
    }
}

/// A value tested against zero.
pub fn tested(model: DataModel, e: &Expr) -> u64
    ensures value { result ≡ table.tested model (expr_view e.now) }
    ensures bound { result ≤ 64 }
{
    width(model, type_of(e))
}

/// A value put into an object or a parameter, or returned.
pub fn stored(model: DataModel, from: IntType, to: IntType) -> u64
    ensures value { result ≡ table.stored model from to }
    ensures bound { result < 2 ^ 18 }
{
    conversion(model, from, to) + 4 * width(model, to)
}

/// A value returned from a function of this result.
pub fn returned(model: DataModel, to: Option<IntType>, from: IntType) -> u64
    ensures value { result ≡ table.returned model to from }
    ensures bound { result < 2 ^ 18 }
{
    match to {
        Some(to) => stored(model, from, to),
        None => 0,
    }
}

fn chosen(model: DataModel, ty: Option<IntType>) -> u64
    ensures value { result ≡ table.chosen model ty }
    ensures bound { result < 2 ^ 18 }
{
    match ty {
        Some(ty) => 4 * width(model, ty),
        None => 0,
    }
}

/// A binary operator with the conversions of its sides.
pub fn operation(model: DataModel, op: BinOp, a: IntType, b: IntType) -> u64
    ensures value { result ≡ table.operation model op a b }
    ensures bound { result < 2 ^ 19 }
{
    let ty = type_for(model, op, a, b);
    let right = right_type_for(model, op, ty, b);
    conversion(model, a, ty) + (conversion(model, b, right) + operator_weight(model, op, ty))
}

fn stepped(model: DataModel, op: StepOp, a: IntType) -> u64
    ensures value { result ≡ table.stepped model op a }
    ensures bound { result < 2 ^ 19 }
{
    let ty = type_for(model, op_of_step(op), a, IntType::Int);
    conversion(model, a, ty) + (20 * width(model, ty) + conversion(model, ty, a))
}

fn computed(model: DataModel, op: BinOp, a: IntType, b: IntType) -> u64
    ensures value { result ≡ table.computed model op a b }
    ensures bound { result < 2 ^ 20 }
{
    operation(model, op, a, b) + conversion(model, type_for(model, op, a, b), a)
}

fn width_of_object(program: &Program, object: u32) -> u64
    ensures value { result ≡ table.width_of_object (program_view program.now) object }
    ensures bound { result ≤ 64 }
{
    width(program.model, type_of_object(program, object))
}

/// The cells of an object, by their bits.
pub fn bits_of_object(program: &Program, object: u32) -> u64
    ensures value { result ≡ table.bits_of_object (program_view program.now) object }
    ensures bound { result < 2 ^ 40 }
{
    u64::from(size_of_object(program, object)) * width_of_object(program, object)
}

#[tactic(auto, using(crate::proofs::Indexed::one_weight, crate::proofs::Indexed::two_weight))]
fn indexes_weight(at: &[Expr]) -> u64
    ensures value { result ≡ table.indexes_weight (exprs_view at.now) }
    ensures bound { result ≤ 512 }
{
    match at {
        [_, _, ..] => 512,
        _ => 256,
    }
}

fn element(program: &Program, object: u32, at: &[Expr]) -> u64
    ensures value { result ≡ table.element (program_view program.now) object (exprs_view at.now) }
    ensures bound { result < 2 ^ 42 }
{
    let each = 4 * width_of_object(program, object) + 16;
    u64::from(size_of_object(program, object)) * each + indexes_weight(at)
}

fn read(program: &Program, e: &Expr) -> u64
    ensures value { result ≡ table.read (program_view program.now) (expr_view e.now) }
    ensures bound { result < 2 ^ 42 }
{
    match &e.node {
        Node::Index { object, at } => element(program, *object, at.as_slice()),
        _ => 0,
    }
}

fn written(program: &Program, e: &Expr) -> u64
    ensures value { result ≡ table.written (program_view program.now) (expr_view e.now) }
    ensures bound { result < 2 ^ 42 }
{
    match &e.node {
        Node::Var(object) => 4 * width_of_object(program, *object),
        Node::Index { object, at } => element(program, *object, at.as_slice()),
        _ => 0,
    }
}

/// What a node does, besides being a node.
pub fn node_work(program: &Program, ty: Option<IntType>, node: &Node) -> u64
    ensures value { result ≡ table.node_work (program_view program.now) ty (node_view node.now) }
    ensures bound { result < 2 ^ 44 }
{
    let model = program.model;
    match node {
        Node::Const(_) => 0,
        Node::Var(_) => 0,
        Node::Index { object, at } => element(program, *object, at.as_slice()),
        Node::Unary { op, of } => {
            let to = promote(model, type_of(of));
            conversion(model, type_of(of), to) + unary_weight(model, *op, to)
        }
        Node::Cast(of) => conversion_to(model, ty, type_of(of)),
        Node::Step { op, target } => {
            stepped(model, *op, type_of(target))
                + (read(program, target) + written(program, target))
        }
        Node::Binary { op, left, right } => operation(model, *op, type_of(left), type_of(right)),
        Node::Logic { left, right, .. } => tested(model, left) + tested(model, right),
        Node::Choose { test, yes, no, .. } => {
            let arms = conversion_to(model, ty, type_of(no)) + chosen(model, ty);
            tested(model, test) + (conversion_to(model, ty, type_of(yes)) + arms)
        }
        Node::Comma { .. } => 0,
        Node::Assign { op, target, from } => assignment(program, *op, target, from),
        Node::Call { .. } => 64,
    }
}

fn assignment(program: &Program, op: Option<BinOp>, target: &Expr, from: &Expr) -> u64
    ensures value { result ≡ table.assignment (program_view program.now) op (expr_view target.now)
        (expr_view from.now) }
    ensures bound { result < 2 ^ 44 }
{
    let model = program.model;
    match op {
        None => conversion(model, type_of(from), type_of(target)) + written(program, target),
        Some(op) => {
            let value = computed(model, op, type_of(target), type_of(from));
            value + (read(program, target) + written(program, target))
        }
    }
}

fn callee_bits(program: &Program, callee: Callee) -> u64
    ensures value { result ≡ table.callee_bits (program_view program.now) callee }
    ensures bound { result ≤ 64 }
{
    match callee {
        Callee::Input(ty) => width(program.model, ty),
        _ => 0,
    }
}

/// The bits that a node draws by itself.
pub fn node_bits(program: &Program, node: &Node) -> u64
    ensures value { result ≡ table.node_bits (program_view program.now) (node_view node.now) }
    ensures bound { result ≤ 64 }
{
    match node {
        Node::Call { callee, .. } => callee_bits(program, *callee),
        _ => 0,
    }
}

fn label_weight(model: DataModel, ty: IntType, label: Label) -> u64
    ensures value { result ≡ table.label_weight model ty label }
    ensures bound { result < 2 ^ 18 }
{
    match label {
        Label::Case(_) => 16 * width(model, ty) + 64,
        Label::Default => 0,
    }
}

fn labels_weight(model: DataModel, ty: IntType, arms: &[Arm]) -> u64
    ensures { result ≡ capped (table.labels_weight model ty (typing.labels_in (switch_view arms.now))) }
{
    let mut sum = 0u64;
    for arm in arms {
        sum = sum.saturating_add(label_weight(model, ty, arm.label));
    }
    sum
}

/// The choice of an arm by a test of this type.
pub fn chooses(model: DataModel, ty: IntType, arms: &[Arm]) -> u64
    ensures { result ≡ capped (table.chooses model ty (typing.labels_in (switch_view arms.now))) }
{
    let to = promote(model, ty);
    conversion(model, ty, to).saturating_add(labels_weight(model, to, arms))
}
