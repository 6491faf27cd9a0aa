// Rows of the grammar: a source, and after it its items as text, with parentheses round each operation and brackets
// round each statement that is a part; or the place where it fits no form.
use c_core::{BinOp, IntType, StepOp, UnOp};
use c_parser::{
    Item, ParseFault, RawArm, RawDeclared, RawExpr, RawFirst, RawForm, RawInit, RawLabel, RawNode,
    RawRow, RawStmt, Source, parse,
};
use c_tokens::tokens;
use row_files::{Files, NotTried, Row, program};
use std::alloc::{AllocError, Global};

fn type_text(ty: IntType) -> &'static str {
    match ty {
        IntType::Bool => "bool",
        IntType::Char => "char",
        IntType::SChar => "schar",
        IntType::UChar => "uchar",
        IntType::Short => "short",
        IntType::UShort => "ushort",
        IntType::Int => "int",
        IntType::UInt => "uint",
        IntType::Long => "long",
        IntType::ULong => "ulong",
        IntType::LongLong => "llong",
        IntType::ULongLong => "ullong",
    }
}

fn result_text(ty: Option<IntType>) -> &'static str {
    match ty {
        Some(ty) => type_text(ty),
        None => "void",
    }
}

fn op_text(op: BinOp) -> &'static str {
    match op {
        BinOp::Add => "+",
        BinOp::Sub => "-",
        BinOp::Mul => "*",
        BinOp::Div => "/",
        BinOp::Rem => "%",
        BinOp::Shl => "<<",
        BinOp::Shr => ">>",
        BinOp::And => "&",
        BinOp::Xor => "^",
        BinOp::Or => "|",
        BinOp::Lt => "<",
        BinOp::Le => "<=",
        BinOp::Gt => ">",
        BinOp::Ge => ">=",
        BinOp::Eq => "==",
        BinOp::Ne => "!=",
    }
}

fn sign_text(op: UnOp) -> &'static str {
    match op {
        UnOp::Plus => "+",
        UnOp::Neg => "-",
        UnOp::BitNot => "~",
        UnOp::Not => "!",
    }
}

const SMALL: [&str; 6] = ["0", "1", "2", "3", "4", "5"];

// Small numbers as they are, all others alike.
fn number_text(value: u64) -> &'static str {
    match SMALL.get(value as usize) {
        Some(text) => text,
        None => "9",
    }
}

fn step_front(op: StepOp) -> &'static str {
    match op {
        StepOp::PreInc => "(++",
        StepOp::PreDec => "(--",
        StepOp::PostInc | StepOp::PostDec => "(",
    }
}

fn step_back(op: StepOp) -> &'static str {
    match op {
        StepOp::PostInc => "++)",
        StepOp::PostDec => "--)",
        StepOp::PreInc | StepOp::PreDec => ")",
    }
}

fn push_two(text: &mut String, first: &str, second: &str) -> Result<(), AllocError> {
    text.push_str(first)?;
    text.push_str(second)
}

fn show_assignment(text: &mut String, op: Option<BinOp>) -> Result<(), AllocError> {
    match op {
        Some(op) => push_two(text, op_text(op), "="),
        None => text.push_str("="),
    }
}

/// Each operation in parentheses.
#[cycle(shown_expr)]
fn show_expr(text: &mut String, expr: &RawExpr) -> Result<(), AllocError> {
    match &expr.node {
        RawNode::Number { value, .. } => text.push_str(number_text(*value)),
        RawNode::Char(_) => text.push_str("char"),
        RawNode::Var { name, .. } => text.push_str(name.as_str()),
        RawNode::Index { object, at, .. } => {
            text.push_str(object.as_str())?;
            show_indexes(text, at.as_slice())
        }
        RawNode::Unary { op, of } => {
            push_two(text, "(", sign_text(*op))?;
            show_expr(text, of)?;
            text.push_str(")")
        }
        RawNode::Cast { to, of } => {
            push_two(text, "(", result_text(*to))?;
            text.push_str(":")?;
            show_expr(text, of)?;
            text.push_str(")")
        }
        RawNode::Step { op, target } => {
            text.push_str(step_front(*op))?;
            show_expr(text, target)?;
            text.push_str(step_back(*op))
        }
        RawNode::Binary { op, left, right } => {
            text.push_str("(")?;
            show_expr(text, left)?;
            text.push_str(op_text(*op))?;
            show_expr(text, right)?;
            text.push_str(")")
        }
        RawNode::Logic { both, left, right } => {
            text.push_str("(")?;
            show_expr(text, left)?;
            text.push_str(if *both { "&&" } else { "||" })?;
            show_expr(text, right)?;
            text.push_str(")")
        }
        RawNode::Choose { test, yes, no, .. } => {
            text.push_str("(")?;
            show_expr(text, test)?;
            text.push_str("?")?;
            show_expr(text, yes)?;
            text.push_str(":")?;
            show_expr(text, no)?;
            text.push_str(")")
        }
        RawNode::Comma { first, last } => {
            text.push_str("(")?;
            show_expr(text, first)?;
            text.push_str(",")?;
            show_expr(text, last)?;
            text.push_str(")")
        }
        RawNode::Assign { op, target, from } => {
            text.push_str("(")?;
            show_expr(text, target)?;
            show_assignment(text, *op)?;
            show_expr(text, from)?;
            text.push_str(")")
        }
        RawNode::Call { callee, args, .. } => {
            push_two(text, callee.as_str(), "(")?;
            show_row(text, args.as_slice())?;
            text.push_str(")")
        }
    }
}

/// Sizes or indexes, each in brackets.
#[cycle(shown_expr)]
fn show_indexes(text: &mut String, exprs: &[RawExpr]) -> Result<(), AllocError> {
    for expr in exprs {
        text.push_str("[")?;
        show_expr(text, expr)?;
        text.push_str("]")?;
    }
    Ok(())
}

#[cycle(shown_expr)]
fn show_row(text: &mut String, exprs: &[RawExpr]) -> Result<(), AllocError> {
    for expr in exprs {
        show_expr(text, expr)?;
        text.push_str(";")?;
    }
    Ok(())
}

fn show_if(text: &mut String, expr: &Option<RawExpr>) -> Result<(), AllocError> {
    match expr {
        Some(expr) => show_expr(text, expr),
        None => Ok(()),
    }
}

fn show_declared(text: &mut String, names: &[RawDeclared]) -> Result<(), AllocError> {
    for name in names {
        text.push_str(type_text(name.ty))?;
        text.push_str(" ")?;
        text.push_str(name.name.as_str())?;
        show_indexes(text, name.sizes.as_slice())?;
        show_init(text, &name.init)?;
        text.push_str(";")?;
    }
    Ok(())
}

fn show_init(text: &mut String, init: &RawInit) -> Result<(), AllocError> {
    match init {
        RawInit::Absent => Ok(()),
        RawInit::One(value) => {
            text.push_str("=")?;
            show_expr(text, value)
        }
        RawInit::Many(values) => {
            text.push_str("={")?;
            show_row(text, values.as_slice())?;
            text.push_str("}")
        }
        RawInit::Rows(rows) => {
            text.push_str("={")?;
            show_rows(text, rows.as_slice())?;
            text.push_str("}")
        }
    }
}

fn show_rows(text: &mut String, rows: &[RawRow]) -> Result<(), AllocError> {
    for row in rows {
        text.push_str("{")?;
        show_row(text, row.values.as_slice())?;
        text.push_str("}")?;
    }
    Ok(())
}

fn show_first(text: &mut String, first: &RawFirst) -> Result<(), AllocError> {
    match first {
        RawFirst::Absent => text.push_str(";"),
        RawFirst::Expr(first) => {
            show_expr(text, first)?;
            text.push_str(";")
        }
        RawFirst::Declare(names) => show_declared(text, names.as_slice()),
    }
}

/// A word and the test after it.
fn show_tested(text: &mut String, word: &str, test: &RawExpr) -> Result<(), AllocError> {
    text.push_str(word)?;
    text.push_str(" ")?;
    show_expr(text, test)
}

/// The head of a `for`.
fn show_head(
    text: &mut String,
    first: &RawFirst,
    test: &Option<RawExpr>,
    step: &Option<RawExpr>,
) -> Result<(), AllocError> {
    text.push_str("for ")?;
    show_first(text, first)?;
    show_if(text, test)?;
    text.push_str(";")?;
    show_if(text, step)
}

/// A statement that is a part, in brackets.
#[cycle(shown_stmt)]
fn show_part(text: &mut String, stmt: &RawStmt) -> Result<(), AllocError> {
    text.push_str("[")?;
    show_stmt(text, stmt)?;
    text.push_str("]")
}

#[cycle(shown_stmt)]
fn show_stmt(text: &mut String, stmt: &RawStmt) -> Result<(), AllocError> {
    match &stmt.form {
        RawForm::Empty => text.push_str(";"),
        RawForm::Expr(expr) => {
            show_expr(text, expr)?;
            text.push_str(";")
        }
        RawForm::Declare(names) => show_declared(text, names.as_slice()),
        RawForm::Block(stmts) => {
            text.push_str("{")?;
            show_stmts(text, stmts.as_slice())?;
            text.push_str("}")
        }
        RawForm::If { test, yes, no } => {
            show_tested(text, "if", test)?;
            text.push_str(" ")?;
            show_part(text, yes)?;
            match no {
                Some(no) => {
                    text.push_str(" else ")?;
                    show_part(text, no)
                }
                None => Ok(()),
            }
        }
        RawForm::While { test, body } => {
            show_tested(text, "while", test)?;
            text.push_str(" ")?;
            show_part(text, body)
        }
        RawForm::Do { body, test } => {
            text.push_str("do ")?;
            show_part(text, body)?;
            show_tested(text, " while", test)
        }
        RawForm::For {
            first,
            test,
            step,
            body,
        } => {
            show_head(text, first, test, step)?;
            text.push_str(" ")?;
            show_part(text, body)
        }
        RawForm::Break => text.push_str("break;"),
        RawForm::Continue => text.push_str("continue;"),
        RawForm::Return(value) => {
            text.push_str("return ")?;
            show_if(text, value)?;
            text.push_str(";")
        }
        RawForm::Label { name, of } => {
            text.push_str(name.as_str())?;
            text.push_str(":")?;
            show_part(text, of)
        }
        RawForm::Switch { test, arms } => {
            show_tested(text, "switch", test)?;
            text.push_str(" {")?;
            show_arms(text, arms.as_slice())?;
            text.push_str("}")
        }
    }
}

fn show_label(text: &mut String, label: &RawLabel) -> Result<(), AllocError> {
    match label {
        RawLabel::Case(constant) => {
            text.push_str("case ")?;
            show_expr(text, constant)?;
            text.push_str(":")
        }
        RawLabel::Default => text.push_str("default:"),
    }
}

/// Each arm with its label.
#[cycle(shown_stmt)]
fn show_arms(text: &mut String, arms: &[RawArm]) -> Result<(), AllocError> {
    for arm in arms {
        show_label(text, &arm.label)?;
        show_stmts(text, arm.body.as_slice())?;
    }
    Ok(())
}

#[cycle(shown_stmt)]
fn show_stmts(text: &mut String, stmts: &[RawStmt]) -> Result<(), AllocError> {
    for stmt in stmts {
        show_stmt(text, stmt)?;
    }
    Ok(())
}

fn show_item(text: &mut String, item: &Item) -> Result<(), AllocError> {
    match item {
        Item::Function {
            name,
            result,
            params,
            body,
            ..
        } => {
            text.push_str(result_text(*result))?;
            text.push_str(" ")?;
            text.push_str(name.as_str())?;
            text.push_str("(")?;
            for param in params.as_slice() {
                text.push_str(type_text(param.ty))?;
                text.push_str(" ")?;
                text.push_str(param.name.as_str())?;
                text.push_str(";")?;
            }
            text.push_str(")")?;
            show_stmt(text, body)
        }
        Item::Prototype {
            name,
            result,
            params,
            ..
        } => {
            text.push_str("proto ")?;
            text.push_str(result_text(*result))?;
            text.push_str(" ")?;
            text.push_str(name.as_str())?;
            text.push_str("(")?;
            match params {
                Some(types) => {
                    for ty in types.as_slice() {
                        text.push_str(type_text(*ty))?;
                        text.push_str(";")?;
                    }
                }
                None => text.push_str("unstated")?,
            }
            text.push_str(")")
        }
        Item::Global(names) => {
            text.push_str("global ")?;
            show_declared(text, names.as_slice())
        }
        Item::Closed { name, .. } => {
            text.push_str("closed ")?;
            text.push_str(name.as_str())
        }
    }
}

fn show_source(text: &mut String, source: &Source) -> Result<(), AllocError> {
    for item in source.items.as_slice() {
        show_item(text, item)?;
        text.push_str("|")?;
    }
    if text.len() == 0 {
        text.push_str("nothing")?;
    }
    Ok(())
}

/// Each source is shorter.
const MAX_LENGTH: usize = 1 << 20;

/// What a text spells, if it is one of tokens.
pub fn parsed(alloc: Global, text: &[u8]) -> Option<Result<Source, ParseFault>> {
    if text.len() > MAX_LENGTH {
        return None;
    }
    let Ok(found) = tokens(alloc, text) else {
        return None;
    };
    Some(parse(alloc, &found))
}

/// The text of a refusal by the grammar.
pub fn refused(alloc: Global, fault: ParseFault) -> Result<String, AllocError> {
    match fault {
        ParseFault::Syntax { line, column } => format!(in alloc; "syntax {line}:{column}"),
        ParseFault::OutOfMemory => Err(AllocError),
    }
}

/// The items of a row's source, or where the first that fits no form stands.
pub fn told(files: &Files<'_>, row: &Row) -> Result<String, NotTried> {
    let alloc = files.alloc();
    let Some(text) = program(files, row)? else {
        return Err(NotTried::Lacks("source"));
    };
    match parsed(alloc, text.as_slice()) {
        None => Ok(String::from_str(alloc, "no tokens")?),
        Some(Ok(source)) => {
            let mut shown = String::new(alloc);
            show_source(&mut shown, &source)?;
            Ok(shown)
        }
        Some(Err(fault)) => Ok(refused(alloc, fault)?),
    }
}

/// `read`, or where the first item that fits no form stands.
pub fn is_read(files: &Files<'_>, row: &Row) -> Result<String, NotTried> {
    let alloc = files.alloc();
    let Some(text) = program(files, row)? else {
        return Err(NotTried::Lacks("source"));
    };
    match parsed(alloc, text.as_slice()) {
        None => Ok(String::from_str(alloc, "no tokens")?),
        Some(Ok(_)) => Ok(String::from_str(alloc, "read")?),
        Some(Err(fault)) => Ok(refused(alloc, fault)?),
    }
}
