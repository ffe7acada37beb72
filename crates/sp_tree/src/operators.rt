//! The operators and standard functions, which the syntax tree and the checked tree share.

/// An operator before one operand.
#[derive(Clone, Copy, PartialEq, Eq)]
pub enum UnaryOp {
    /// `+`, on integers.
    Plus,
    /// `-`, on integers.
    Minus,
    /// `not`, on booleans.
    Not,
}

/// An operator between two operands.
#[derive(Clone, Copy, PartialEq, Eq)]
pub enum BinaryOp {
    /// `=`, on two values of one ordinal type or two channels of one type.
    Eq,
    /// `<>`, as `=`.
    Ne,
    /// `<`, on two values of one ordinal type.
    Lt,
    /// `<=`, as `<`.
    Le,
    /// `>`, as `<`.
    Gt,
    /// `>=`, as `<`.
    Ge,
    /// `+`, on integers.
    Add,
    /// `-`, on integers.
    Sub,
    /// `or`, on booleans. Both operands are evaluated.
    Or,
    /// `*`, on integers.
    Mul,
    /// `div`, on integers. It truncates toward zero.
    Div,
    /// `mod`, on integers. The right operand is above 0, and the result from 0 to one below it (ISO 7185).
    Mod,
    /// `and`, on booleans. Both operands are evaluated.
    And,
}

/// A function that every program may call (ISO 7185).
#[derive(Clone, Copy, PartialEq, Eq)]
pub enum StandardFn {
    /// The absolute value of an integer.
    Abs,
    /// The square of an integer.
    Sqr,
    /// Whether an integer is odd.
    Odd,
    /// The number of an ordinal.
    Ord,
    /// The char with a number from 0 to 255.
    Chr,
    /// The next value of an ordinal's type.
    Succ,
    /// The value before in an ordinal's type.
    Pred,
    /// Whether nothing is left of the input.
    Eof,
    /// Whether nothing is left of the input or a line feed is next.
    Eoln,
}
