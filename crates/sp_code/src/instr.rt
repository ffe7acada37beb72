//! The instructions of the stack machine.

/// One instruction. `docs/CODE.md` says what each one takes from the stack, leaves on it and does.
///
/// `up` counts static levels outward from the newest frame, and `var` is the number of a variable in its frame. `to`
/// is the number of an instruction.
#[derive(Clone, Copy)]
pub enum Instr {
    /// Pushes an ordinal.
    Const(i64),
    /// Pushes the address of a variable.
    Addr { up: u32, var: u32 },
    /// Pushes the address that a variable parameter stands for.
    Deref { up: u32, var: u32 },
    /// Selects an element of so many cells, whose index is on top of the address: F1.
    Index { low: i64, high: i64, size: u32 },
    /// Selects what begins so many cells further on.
    Field(u32),
    /// The ordinal at an address: F4.
    Load,
    /// The channel at an address: F5.
    Loadc,
    /// Assigns an ordinal or a channel to an address.
    Store,
    /// Assigns so many cells from the upper address to the lower.
    Copy(u32),
    /// The sum: F2.
    Add,
    /// The difference: F2.
    Sub,
    /// The product: F2.
    Mul,
    /// The quotient, truncated toward zero: F3, F2.
    Div,
    /// The remainder, from 0 to one below the divisor: F3.
    Mod,
    /// The number with the other sign: F2.
    Neg,
    /// The absolute value: F2.
    Abs,
    /// The square: F2.
    Sqr,
    /// Whether a number is odd.
    Odd,
    /// Whether both are true.
    And,
    /// Whether one is true.
    Or,
    /// Whether it is false.
    Not,
    /// Whether two ordinals or two channels are equal.
    Eq,
    /// Whether two ordinals or two channels are different.
    Ne,
    /// Whether the lower operand is less than the upper.
    Lt,
    /// Whether it is less or equal.
    Le,
    /// Whether it is greater.
    Gt,
    /// Whether it is greater or equal.
    Ge,
    /// The same number, where it is in the range: F1.
    Range { low: i64, high: i64 },
    /// The next number, up to the greatest one: F1.
    Succ(i64),
    /// The number before, down to the least one: F1.
    Pred(i64),
    /// Goes on there.
    Jump(u32),
    /// Goes on there where the operand is false.
    Jumpf(u32),
    /// Goes on there where the operand is the value; else leaves the operand.
    Casej { value: i64, to: u32 },
    /// No constant was the selector: F9.
    Nocase,
    /// Counts one turn of a loop: F10. The process may pause here.
    Tick,
    /// Goes on where the operand is true: F8.
    Assume,
    /// Begins a loop up, whose limits are the two operands: assigns the first value, or leaves.
    Forup { var: u32, to: u32 },
    /// Begins a loop down.
    Fordown { var: u32, to: u32 },
    /// Goes on with the next value of a loop up, or leaves it: F4.
    Nextup { var: u32, to: u32 },
    /// Goes on with the next value of a loop down, or leaves it: F4.
    Nextdown { var: u32, to: u32 },
    /// Calls a block, whose enclosing block is so many levels outward: F10, F11, F12. The process may pause here.
    Call { block: u32, up: u32 },
    /// Returns from a block: F4 where its result is no ordinal.
    Return,
    /// Reads an integer into an address: F18, F17, F2.
    ReadInt,
    /// Reads a char into an address: F18.
    ReadChar,
    /// Drops the rest of the input's line.
    Readln,
    /// Whether nothing is left of the input.
    Eof,
    /// Whether nothing is left of the input's line.
    Eoln,
    /// Writes an integer: F16.
    WriteInt,
    /// Writes a char: F16.
    WriteChar,
    /// Writes a boolean: F16.
    WriteBool,
    /// Writes the text of this number: F16.
    WriteText(u32),
    /// Writes an integer in a width: F1, F16.
    WritewInt,
    /// Writes a char in a width: F1, F16.
    WritewChar,
    /// Writes a boolean in a width: F1, F16.
    WritewBool,
    /// Writes the text of this number in a width: F1, F16.
    WritewText(u32),
    /// Writes a line feed: F16.
    Writeln,
    /// So many cells from an address on, as one operand.
    Pack(u32),
    /// Stops to open a channel, whose reference goes to an address.
    Open,
    /// Stops to send a message of this type.
    Send(u32),
    /// Stops to receive a message of this type.
    Receive(u32),
    /// Stops to start the children of a fork table: F11.
    Fork(u32),
    /// Stops to start a child for each value of a range, unless it is empty: F11.
    Forall(u32),
    /// Stops for good.
    End,
}
