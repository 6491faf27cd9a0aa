use c_core::{BinOp, IntType, Spot, StepOp, UnOp};
use wv_base::{Seq, Text};

/// An expression as it is written (C11 6.5); its spot is its first token, parentheses round it included.
#[cycle(expr)]
#[derive(Drop)]
pub struct RawExpr {
    pub spot: Spot,
    pub node: RawNode,
}

/// What an expression is made of. `word` is the place of a name itself.
#[cycle(expr)]
#[derive(Drop)]
pub enum RawNode {
    /// An integer constant; `longs` counts the letters `l` of its suffix.
    Number {
        value: u64,
        decimal: bool,
        unsigned: bool,
        longs: u8,
    },
    Char(i32),
    Var {
        name: Text,
        word: Spot,
    },
    /// With its indexes as they are written, one or two.
    Index {
        object: Text,
        word: Spot,
        at: Seq<RawExpr>,
    },
    Unary {
        op: UnOp,
        of: Box<RawExpr>,
    },
    /// To a type, or to void.
    Cast {
        to: Option<IntType>,
        of: Box<RawExpr>,
    },
    Step {
        op: StepOp,
        target: Box<RawExpr>,
    },
    Binary {
        op: BinOp,
        left: Box<RawExpr>,
        right: Box<RawExpr>,
    },
    /// `&&` where both have to hold, else `||`.
    Logic {
        both: bool,
        left: Box<RawExpr>,
        right: Box<RawExpr>,
    },
    /// `?:`, with the place of its `?`.
    Choose {
        mark: Spot,
        test: Box<RawExpr>,
        yes: Box<RawExpr>,
        no: Box<RawExpr>,
    },
    Comma {
        first: Box<RawExpr>,
        last: Box<RawExpr>,
    },
    /// `=`, or `+=` and the like with its operator.
    Assign {
        op: Option<BinOp>,
        target: Box<RawExpr>,
        from: Box<RawExpr>,
    },
    /// With the place of its closing parenthesis.
    Call {
        callee: Text,
        word: Spot,
        args: Seq<RawExpr>,
        close: Spot,
    },
}

/// A statement or declaration as it is written (C11 6.8); its spot is its first token, a label's the label.
#[cycle(stmt)]
#[derive(Drop)]
pub struct RawStmt {
    pub spot: Spot,
    pub form: RawForm,
}

/// The forms of statements as they are spelled (ISO C11 6.8).
#[cycle(stmt)]
#[derive(Drop)]
pub enum RawForm {
    Empty,
    Expr(RawExpr),
    Declare(Seq<RawDeclared>),
    Block(Seq<RawStmt>),
    If {
        test: RawExpr,
        yes: Box<RawStmt>,
        no: Option<Box<RawStmt>>,
    },
    While {
        test: RawExpr,
        body: Box<RawStmt>,
    },
    Do {
        body: Box<RawStmt>,
        test: RawExpr,
    },
    For {
        first: RawFirst,
        test: Option<RawExpr>,
        step: Option<RawExpr>,
        body: Box<RawStmt>,
    },
    Break,
    Continue,
    Return(Option<RawExpr>),
    Label {
        name: Text,
        of: Box<RawStmt>,
    },
    Switch {
        test: RawExpr,
        arms: Seq<RawArm>,
    },
}

/// An arm of a `switch`, at its word `case` or `default`; two labels in a row are two arms.
#[cycle(stmt)]
#[derive(Drop)]
pub struct RawArm {
    pub spot: Spot,
    pub label: RawLabel,
    pub body: Seq<RawStmt>,
}

/// What chooses an arm.
#[derive(Drop)]
pub enum RawLabel {
    Case(RawExpr),
    Default,
}

/// What stands first in the parentheses of a `for`.
#[derive(Drop)]
pub enum RawFirst {
    Absent,
    Expr(RawExpr),
    Declare(Seq<RawDeclared>),
}

/// A declared name at its place, with the one or two sizes that an array states.
#[derive(Drop)]
pub struct RawDeclared {
    pub spot: Spot,
    pub name: Text,
    pub ty: IntType,
    pub sizes: Seq<RawExpr>,
    pub init: RawInit,
}

/// An initializer as it is spelled (ISO C11 6.7.9).
#[derive(Drop)]
pub enum RawInit {
    Absent,
    One(RawExpr),
    Many(Seq<RawExpr>),
    Rows(Seq<RawRow>),
}

/// The values of a row, which stand in braces of their own.
#[derive(Drop)]
pub struct RawRow {
    pub values: Seq<RawExpr>,
}

/// A `\result` constraint: the result compared with a constant.
#[derive(Drop)]
pub struct ResultTest {
    pub op: BinOp,
    pub constant: RawExpr,
}
