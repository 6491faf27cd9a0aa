// Rows of expressions: of a source, of a witness, and constraints on results, and after them what they are in Lisp's
// form.
use crate::sources::parsed;
use c_core::IntType;
use c_parser::{ExprFault, Item, RawExpr, RawForm, RawNode, Source, parse_expr, parse_result};
use row_files::{Files, NotTried, Row};
use std::alloc::{AllocError, Global};

fn push_type(text: &mut String, to: Option<IntType>) -> Result<(), AllocError> {
    match to {
        Some(ty) => write!(text, "({ty:?} "),
        None => text.push_str("(void "),
    }
}

#[cycle(lisp)]
fn push_each(text: &mut String, exprs: &[RawExpr]) -> Result<(), AllocError> {
    for expr in exprs {
        text.push_str(" ")?;
        push_lisp(text, expr)?;
    }
    Ok(())
}

/// An expression in Lisp's form.
#[cycle(lisp)]
fn push_lisp(text: &mut String, expr: &RawExpr) -> Result<(), AllocError> {
    match &expr.node {
        RawNode::Number { value, .. } => return write!(text, "{value}"),
        RawNode::Char(value) => return write!(text, "'{value}"),
        RawNode::Var { name, .. } => return text.push_str(name.as_str()),
        RawNode::Index { object, at, .. } => {
            write!(text, "({}[]", object.as_str())?;
            push_each(text, at.as_slice())?;
        }
        RawNode::Unary { op, of } => {
            write!(text, "({op:?} ")?;
            push_lisp(text, of)?;
        }
        RawNode::Cast { to, of } => {
            push_type(text, *to)?;
            push_lisp(text, of)?;
        }
        RawNode::Step { op, target } => {
            write!(text, "({op:?} ")?;
            push_lisp(text, target)?;
        }
        RawNode::Binary { op, left, right } => {
            write!(text, "({op:?} ")?;
            push_lisp(text, left)?;
            text.push_str(" ")?;
            push_lisp(text, right)?;
        }
        RawNode::Logic { both, left, right } => {
            text.push_str(if *both { "(&& " } else { "(|| " })?;
            push_lisp(text, left)?;
            text.push_str(" ")?;
            push_lisp(text, right)?;
        }
        RawNode::Choose { test, yes, no, .. } => {
            text.push_str("(? ")?;
            push_lisp(text, test)?;
            text.push_str(" ")?;
            push_lisp(text, yes)?;
            text.push_str(" ")?;
            push_lisp(text, no)?;
        }
        RawNode::Comma { first, last } => {
            text.push_str("(, ")?;
            push_lisp(text, first)?;
            text.push_str(" ")?;
            push_lisp(text, last)?;
        }
        RawNode::Assign { op, target, from } => {
            match op {
                Some(op) => write!(text, "({op:?}= ")?,
                None => text.push_str("(= ")?,
            }
            push_lisp(text, target)?;
            text.push_str(" ")?;
            push_lisp(text, from)?;
        }
        RawNode::Call { callee, args, .. } => {
            write!(text, "({}()", callee.as_str())?;
            push_each(text, args.as_slice())?;
        }
    }
    text.push_str(")")
}

fn lisp(alloc: Global, expr: &RawExpr) -> Result<String, AllocError> {
    let mut text = String::new(alloc);
    push_lisp(&mut text, expr)?;
    Ok(text)
}

/// The test of a source's first statement, where that is an `if`.
fn first_test<'a>(source: &'a Source) -> Option<&'a RawExpr> {
    let Some(Item::Function { body, .. }) = source.items.as_slice().first() else {
        return None;
    };
    let RawForm::Block(statements) = &body.form else {
        return None;
    };
    match statements.as_slice().first() {
        Some(statement) => match &statement.form {
            RawForm::If { test, .. } => Some(test),
            _ => None,
        },
        None => None,
    }
}

/// What a row's text is as a whole expression of a source: as the test of an `if`.
pub fn in_source(files: &Files<'_>, row: &Row) -> Result<String, NotTried> {
    let alloc = files.alloc();
    let text = row.wanted_text("text")?;
    let source = format!(in alloc; "int f() {{ if ({text}) ; }}")?;
    match parsed(alloc, source.as_bytes()) {
        Some(Ok(source)) => match first_test(&source) {
            Some(test) => Ok(lisp(alloc, test)?),
            None => Ok(String::from_str(alloc, "no test")?),
        },
        Some(Err(_)) => Ok(String::from_str(alloc, "none")?),
        None => Ok(String::from_str(alloc, "no tokens")?),
    }
}

fn fault(alloc: Global, fault: ExprFault) -> Result<String, AllocError> {
    match fault {
        ExprFault::Expression => String::from_str(alloc, "expression"),
        ExprFault::Scope => String::from_str(alloc, "scope"),
        ExprFault::OutOfMemory => Err(AllocError),
    }
}

/// What a row's text is as the expression of a witness.
pub fn in_witness(files: &Files<'_>, row: &Row) -> Result<String, NotTried> {
    let alloc = files.alloc();
    match parse_expr(alloc, row.wanted_text("text")?.as_bytes()) {
        Ok(expr) => Ok(lisp(alloc, &expr)?),
        Err(cause) => Ok(fault(alloc, cause)?),
    }
}

/// `read`, or the cause for which a row's text is no expression of a witness.
pub fn is_in_witness(files: &Files<'_>, row: &Row) -> Result<String, NotTried> {
    let alloc = files.alloc();
    match parse_expr(alloc, row.wanted_text("text")?.as_bytes()) {
        Ok(_) => Ok(String::from_str(alloc, "read")?),
        Err(cause) => Ok(fault(alloc, cause)?),
    }
}

/// What a row's text is as a constraint on a result.
pub fn on_result(files: &Files<'_>, row: &Row) -> Result<String, NotTried> {
    let alloc = files.alloc();
    match parse_result(alloc, row.wanted_text("text")?.as_bytes()) {
        Ok(test) => {
            let op = test.op;
            let constant = lisp(alloc, &test.constant)?;
            Ok(format!(in alloc; "{op:?} {constant}")?)
        }
        Err(cause) => Ok(fault(alloc, cause)?),
    }
}
