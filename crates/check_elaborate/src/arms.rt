// The labels of the arms of a `switch`.
ghost use Rattle.std.specs.Prelude.{◌≡◌, ◌++◌, ◌∷◌, [], IfOk, OnOk};
ghost use Rattle.c_core.specs.View.{expr_view as typed_view};
ghost use Rattle.c_parser.specs.SourceView.{label_view};
ghost use Rattle.c_parser.specs.Tree as raw;
ghost use Rattle.c_parser.specs.View.{expr_view};
ghost use Rattle.check_rules.specs.Arms as arm;
ghost use Rattle.check_rules.specs.Checked as checked;
ghost use Rattle.check_rules.specs.Constants as constants;
ghost use Rattle.check_rules.specs.Noting.{noted_part};
ghost use Rattle.check_rules.specs.Parts as part;
ghost use Rattle.check_rules.specs.Scopes.{seen};
ghost use Rattle.check_rules.specs.Typed as typing;
ghost use Rattle.check_elaborate.specs.ArmLabels.{AreFound};
ghost use Rattle.check_elaborate.specs.Walks.{scope_at, bodies_in, items_in, IsNoted, labelling};

use crate::arm_labels::ArmLabels;
use crate::context::Context;
use crate::full::full;
use crate::sizes::keep;
use crate::walk::Walk;
use c_core::{DataModel, Expr, IntType, Label, Spot, convert, promote};
use c_parser::{RawExpr, RawLabel};
use check_rules::{CheckCode, Role, noted};
use check_types::constant;
use wv_base::OutOfMemory;

/// The type of case constants: the promoted one of the test; void counts as `int`.
pub fn switch_type(model: DataModel, test: Option<IntType>) -> IntType
    ensures { result ≡ arm.switch_type test }
{
    match test {
        Some(ty) => promote(model, ty),
        None => IntType::Int,
    }
}

fn note_label(
    context: &Context,
    walk: &mut Walk,
    before: &ArmLabels,
    label: Option<Label>,
    spot: Spot,
)
    requires { AreFound before.now }
    ensures scope { scope_at walk.new ≡ scope_at walk.old }
    ensures noted { walk.new.best ≡ noted_part context.now.model (items_in context.now) walk.old.best
        (part.ArmLabelling before.now.all label spot) }
    ensures kept { walk.new.kept ≡ walk.old.kept }
{
    let _ = context;
    let again = before.has(label);
    walk.best = noted(walk.best, again, CheckCode::Again, spot);
}

// What is refused of a case constant itself: that it is none.
fn note_constant(context: &Context, walk: &mut Walk, e: &RawExpr, typed: &Expr)
    requires { typed_view typed.now ≡ typing.typed context.now.model (bodies_in context.now) (seen (scope_at walk.old))
        (expr_view e.now) }
    ensures scope { scope_at walk.new ≡ scope_at walk.old }
    ensures noted { walk.new.best ≡ noted_part context.now.model (items_in context.now) walk.old.best
        (part.CaseConstant (seen (scope_at walk.old)) (expr_view e.now)) }
    ensures kept { walk.new.kept ≡ walk.old.kept }
{
    let mistyped = constant(context.model, typed).is_none();
    walk.best = noted(walk.best, mistyped, CheckCode::Typing, e.spot);
}

// The label of a constant, converted to the type of the `switch`.
fn case_of(context: &Context, ty: IntType, e: &Expr) -> Option<Label>
    ensures { result ≡ arm.case_of context.now.model ty (constants.constant context.now.model (typed_view e.now)) }
{
    match constant(context.model, e) {
        None => None,
        Some(value) => Some(Label::Case(convert(context.model, ty, value))),
    }
}

// A case constant.
fn case(
    context: &Context,
    walk: &mut Walk,
    ty: IntType,
    e: &RawExpr,
) -> Result<Option<Label>, OutOfMemory>
    ensures label { IfOk result (λ r. r
        ≡ arm.label_of context.now.model (bodies_in context.now) (seen (scope_at walk.old)) ty
        (raw.Case (expr_view e.now))) }
    ensures scope { OnOk result (scope_at walk.new ≡ scope_at walk.old) }
    ensures noted { OnOk result (IsNoted context.now walk.old walk.new
        (part.parts_of_label (seen (scope_at walk.old)) (raw.Case (expr_view e.now)))) }
{
    let typed = full(context, walk, Role::Value, e)?;
    note_constant(context, walk, e, &typed);
    let label = case_of(context, ty, &typed);
    keep(walk, None, typed)?;
    Ok(label)
}

// The label of an arm, none where its constant is none.
fn chosen(
    context: &Context,
    walk: &mut Walk,
    ty: IntType,
    label: &RawLabel,
) -> Result<Option<Label>, OutOfMemory>
    ensures label { IfOk result (λ r. r
        ≡ arm.label_of context.now.model (bodies_in context.now) (seen (scope_at walk.old)) ty (label_view label.now)) }
    ensures scope { OnOk result (scope_at walk.new ≡ scope_at walk.old) }
    ensures noted { OnOk result (IsNoted context.now walk.old walk.new
        (part.parts_of_label (seen (scope_at walk.old)) (label_view label.now))) }
{
    match label {
        RawLabel::Case(e) => {
            let label = case(context, walk, ty, e)?;
            Ok(label)
        }
        RawLabel::Default => Ok(Some(Label::Default)),
    }
}

fn or_zero(label: Option<Label>) -> Label
    ensures { result ≡ checked.label_or_zero label }
{
    label.unwrap_or(Label::Case(0))
}

/// The label of an arm after those before it in its `switch`, which it joins.
pub fn label(
    context: &Context,
    walk: &mut Walk,
    ty: IntType,
    before: &mut ArmLabels,
    spot: Spot,
    label: &RawLabel,
) -> Result<Label, OutOfMemory>
    requires { AreFound before.old }
    ensures typed { IfOk result (λ r. r
        ≡ checked.typed_label context.now.model (bodies_in context.now) (seen (scope_at walk.old)) ty
        (label_view label.now)) }
    ensures found { OnOk result (AreFound before.new) }
    ensures before { OnOk result (before.new.all
        ≡ before.old.all ++ arm.label_of context.now.model (bodies_in context.now) (seen (scope_at walk.old)) ty
        (label_view label.now) ∷ []) }
    ensures scope { OnOk result (scope_at walk.new ≡ scope_at walk.old) }
    ensures noted { OnOk result (IsNoted context.now walk.old walk.new
        (labelling before.old.all (arm.label_of context.now.model (bodies_in context.now) (seen (scope_at walk.old)) ty
        (label_view label.now)) spot (seen (scope_at walk.old)) (label_view label.now))) }
{
    let label = chosen(context, walk, ty, label)?;
    note_label(context, walk, before, label, spot);
    before.push(label)?;
    Ok(or_zero(label))
}
