// The operations of a machine that runs programs.
use crate::tables::Table;
use c_core::{BinOp, DataModel, IntType, Property, Spot, UnOp};
use run_state::{Around, CallSite};
use wv_base::Seq;

/// The types that operators compute in, as the processor has them.
#[derive(Clone, Copy)]
pub enum Word {
    Signed32,
    Unsigned32,
    Signed64,
    Unsigned64,
}

/// Where an operand is: on top of the stack, in the cell of a scalar, in the operation itself.
#[derive(Clone, Copy)]
pub enum Operand {
    Top,
    Cell(u32),
    Number(i128),
}

/// A cell that an operation writes: one of this object and index, or the element of this array whose index is on top of
/// the stack.
#[derive(Clone, Copy)]
pub enum Place {
    Fixed(u32, u32),
    Element(u32),
}

/// A value is converted to a type and written; the value behind it is the one written, or the old one.
#[derive(Clone, Copy)]
pub struct Store {
    pub place: Place,
    pub ty: IntType,
    pub old: bool,
}

/// What is done with a value: it is left on the stack, or not; where its truth is `way` the machine goes on at an
/// address, for a branch after having told so.
#[derive(Clone, Copy)]
pub enum Then {
    Push,
    Drop,
    Skip { way: bool, to: u32 },
    Branch { at: Spot, way: bool, to: u32 },
}

/// Where a value goes.
#[derive(Clone, Copy)]
pub struct Into {
    pub store: Option<Store>,
    pub then: Then,
}

/// The operation's place in the program.
#[derive(Clone, Copy)]
pub struct Source {
    pub around: Around,
    pub spot: Spot,
}

/// What an operation does after its steps.
#[derive(Drop)]
pub enum Action {
    /// Nothing.
    Rest,
    /// A statement is about to be done.
    Arrive(Spot),
    /// An operand.
    Give {
        from: Operand,
        into: Into,
    },
    /// 1 where an operand isn't 0, else 0.
    Truth {
        of: Operand,
        into: Into,
    },
    /// An operand, converted.
    Convert {
        ty: IntType,
        of: Operand,
        into: Into,
    },
    /// The element of an array.
    Look {
        object: u32,
        size: u32,
        index: Operand,
        spot: Spot,
        into: Into,
    },
    /// The index of an element that there is, and behind it, where it is read, its value.
    Aim {
        object: u32,
        size: u32,
        index: Operand,
        spot: Spot,
        reads: bool,
    },
    /// The cell of a row and a column of an array with these numbers of rows and columns; it is left on the stack.
    Row {
        rows: u32,
        columns: u32,
        left: Operand,
        right: Operand,
        spot: Spot,
    },
    /// An operator that computes in a type; the count of a shift has a type of its own.
    Operate {
        op: BinOp,
        word: Word,
        count: Word,
        left: Operand,
        right: Operand,
        from: Source,
        into: Into,
    },
    OperateOne {
        op: UnOp,
        word: Word,
        of: Operand,
        from: Source,
        into: Into,
    },
    Jump(u32),
    /// At a `switch`: the machine takes the value on top of the stack off, reports the way, and goes on at the value's
    /// address, or at the one for all others.
    Select {
        at: Spot,
        cases: Table,
        other: u32,
    },
    /// A scope begins; the innermost one ends.
    Open,
    Close,
    /// An object's cells, which draw their values or hold 0.
    Declare {
        spot: Spot,
        object: u32,
        size: u32,
        ty: IntType,
        draws: bool,
    },
    /// A call's arguments were evaluated.
    Enter(Spot),
    /// A function is called with so many arguments, the last one on top of the stack.
    Call {
        function: u32,
        arguments: u32,
        site: CallSite,
    },
    Input {
        spot: Spot,
        close: Spot,
        ty: IntType,
        into: Into,
    },
    /// A call of `reach_error`.
    Reach {
        around: Around,
        spot: Spot,
    },
    /// The run ends.
    End,
    /// A function is left, without a value or with the one on top of the stack, converted to its type.
    Leave,
    Return(Option<IntType>),
}

/// An action and the steps that it takes.
#[derive(Drop)]
pub struct Op {
    pub steps: u32,
    pub action: Action,
}

/// A parameter of a function: its object, its type.
#[derive(Clone, Copy)]
pub struct Parameter {
    pub object: u32,
    pub ty: IntType,
}

/// A function: where its operations begin, its parameters.
#[derive(Drop)]
pub struct Body {
    pub entry: u32,
    pub parameters: Seq<Parameter>,
}

/// A cell that lives when a run begins.
#[derive(Clone, Copy)]
pub struct First {
    pub object: u32,
    pub index: u32,
    pub value: i128,
}

/// A program as code.
#[derive(Drop)]
pub struct Code {
    pub model: DataModel,
    pub property: Property,
    pub ops: Seq<Op>,
    pub functions: Seq<Body>,
    pub first: Seq<First>,
    pub sizes: Seq<u32>,
    pub main: u32,
}
