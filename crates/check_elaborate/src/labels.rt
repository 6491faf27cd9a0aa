// Labels, which stand once in a function (C11 6.8.1p3).
ghost use Rattle.std.specs.Prelude.{◌≡◌, ◌++◌, ◌∷◌, ◌||◌, [], ℕ, List, map, IfOk, OnOk};
ghost use Rattle.std.specs.Str.{bytes_eq};
ghost use Rattle.c_parser.specs.SourceView.{stmt_view, else_if};
ghost use Rattle.check_scope.specs.Bodies.{has_name};
ghost use Rattle.c_parser.specs.StatementParts.{raw_arm_view};
ghost use Rattle.c_parser.specs.Tree.{stms, arms as arms_of};
ghost use Rattle.check_rules.specs.Noting.{noted_parts};
ghost use Rattle.check_rules.specs.Parts as part;
ghost use Rattle.check_elaborate.specs.Walks.{scope_at, items_in, IsJudged, label, labels_seen};

use crate::context::Context;
use crate::label::Label;
use crate::walk::Walk;
use c_core::Spot;
use c_parser::{RawArm, RawForm, RawStmt};
use check_rules::{CheckCode, Refusal, noted};
use std::collections::BTreeMap;
use wv_base::{OutOfMemory, Text};

fn add<'a>(all: &mut Vec<Label<'a>>, name: &'a Text, spot: Spot) -> Result<(), OutOfMemory>
    ensures { OnOk result (labels_seen all.new.items ≡ labels_seen all.old.items ++ label name.now spot ∷ []) }
{
    all.push(Label {
        name: name.as_str(),
        spot,
    })?;
    Ok(())
}

fn add_name<'a>(names: &mut BTreeMap<&'a str, ()>, name: &'a str) -> Result<(), OutOfMemory>
    ensures { OnOk result ((w : List ℕ) → has_name names.new w ≡ (has_name names.old w || bytes_eq w name.now)) }
{
    names.insert(name, ())?;
    Ok(())
}

fn is_known(names: &BTreeMap<&str, ()>, name: &str) -> bool
    ensures { result ≡ has_name names.now name.now }
{
    names.contains_key(name)
}

// The labels of a statement, in the order of the text.
#[cycle(gather)]
fn gather<'a>(all: &mut Vec<Label<'a>>, s: &'a RawStmt) -> Result<(), OutOfMemory>
    ensures { OnOk result (labels_seen all.new.items ≡ labels_seen all.old.items ++ part.labels_of (stmt_view s.now)) }
{
    match &s.form {
        RawForm::Block(ss) => gather_block(all, ss.as_slice()),
        RawForm::If { yes, no, .. } => {
            gather(all, yes)?;
            gather_else(all, no)?;
            Ok(())
        }
        RawForm::While { body, .. } => gather(all, body),
        RawForm::Do { body, .. } => gather(all, body),
        RawForm::For { body, .. } => gather(all, body),
        RawForm::Label { name, of } => gather_labelled(all, name, s.spot, of),
        RawForm::Switch { arms, .. } => gather_arms(all, arms.as_slice()),
        RawForm::Empty => Ok(()),
        RawForm::Expr(_) => Ok(()),
        RawForm::Declare(_) => Ok(()),
        RawForm::Break => Ok(()),
        RawForm::Continue => Ok(()),
        RawForm::Return(_) => Ok(()),
    }
}

#[cycle(gather)]
fn gather_labelled<'a>(
    all: &mut Vec<Label<'a>>,
    name: &'a Text,
    spot: Spot,
    of: &'a RawStmt,
) -> Result<(), OutOfMemory>
    ensures { OnOk result (labels_seen all.new.items
        ≡ labels_seen all.old.items ++ label name.now spot ∷ part.labels_of (stmt_view of.now)) }
{
    add(all, name, spot)?;
    gather(all, of)?;
    Ok(())
}

#[cycle(gather)]
fn gather_else<'a>(all: &mut Vec<Label<'a>>, s: &'a Option<Box<RawStmt>>) -> Result<(), OutOfMemory>
    ensures { OnOk result (labels_seen all.new.items
        ≡ labels_seen all.old.items ++ part.labels_of_else (else_if s.now)) }
{
    match s {
        None => Ok(()),
        Some(s) => gather(all, s),
    }
}

#[cycle(gather)]
fn gather_block<'a>(all: &mut Vec<Label<'a>>, ss: &'a [RawStmt]) -> Result<(), OutOfMemory>
    ensures { OnOk result (labels_seen all.new.items
        ≡ labels_seen all.old.items ++ part.labels_of_block (stms (map stmt_view ss.now))) }
{
    for s in ss {
        gather(all, s)?;
    }
    Ok(())
}

#[cycle(gather)]
fn gather_arms<'a>(all: &mut Vec<Label<'a>>, arms: &'a [RawArm]) -> Result<(), OutOfMemory>
    ensures { OnOk result (labels_seen all.new.items
        ≡ labels_seen all.old.items ++ part.labels_of_block (arms_of (map raw_arm_view arms.now))) }
{
    for arm in arms {
        gather_block(all, arm.body.as_slice())?;
    }
    Ok(())
}

// Each label that stood before is refused.
fn first_doubled(
    context: &Context,
    best: Option<Refusal>,
    labels: &[Label],
) -> Result<Option<Refusal>, OutOfMemory>
    ensures { IfOk result (λ r. r
        ≡ noted_parts context.now.model (items_in context.now) best
        (part.parts_of_labels [] (labels_seen labels.now))) }
{
    let mut best = best;
    let mut names = BTreeMap::new(context.alloc);
    for label in labels {
        let doubled = is_known(&names, label.name);
        best = noted(best, doubled, CheckCode::Again, label.spot);
        add_name(&mut names, label.name)?;
    }
    Ok(best)
}

/// What is refused of the labels of a function's body.
pub fn note_labels(context: &Context, walk: &mut Walk, body: &RawStmt) -> Result<(), OutOfMemory>
    ensures scope { OnOk result (scope_at walk.new ≡ scope_at walk.old) }
    ensures noted { OnOk result (IsJudged context.now walk.old walk.new
        (part.parts_of_labels [] (part.labels_of (stmt_view body.now)))) }
    ensures kept { OnOk result (walk.new.kept ≡ walk.old.kept) }
{
    let mut all = Vec::new(context.alloc);
    gather(&mut all, body)?;
    let best = first_doubled(context, walk.best, &all)?;
    walk.best = best;
    Ok(())
}
