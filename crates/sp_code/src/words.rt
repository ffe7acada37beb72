//! How instructions are printed: the word of each, and the numbers after it.

ghost use Rattle.std.specs.Prelude.{◌≡◌, ◌++◌, OnOk};
ghost use Rattle.sp_code.specs.Listing.{word, operands, operand_text, instr_text};
ghost use Rattle.sp_code.specs.Operands.{operand_list};

use crate::instr::Instr;
use sp_base::{Memory, put_signed};

/// The numbers after an instruction's word.
pub(crate) enum Operands {
    None,
    One(i64),
    Two(i64, i64),
    Three(i64, i64, i64),
}

fn put_operand(out: &mut Vec<u8>, number: i64) -> Result<(), Memory>
    ensures { OnOk result (out.new.items ≡ out.old.items ++ operand_text number) }
{
    out.extend_from_slice(b" ")?;
    put_signed(out, number)
}

fn put_two(out: &mut Vec<u8>, first: i64, second: i64) -> Result<(), Memory>
    ensures { OnOk result (out.new.items ≡ out.old.items ++ (operand_text first ++ operand_text second)) }
{
    put_operand(out, first)?;
    put_operand(out, second)
}

impl Instr {
    /// What the instruction is called.
    pub fn word(self) -> &'static str
        ensures { result.now ≡ word self }
    {
        match self {
            Instr::Const(_) => "const",
            Instr::Addr { .. } => "addr",
            Instr::Deref { .. } => "deref",
            Instr::Index { .. } => "index",
            Instr::Field(_) => "field",
            Instr::Load => "load",
            Instr::Loadc => "loadc",
            Instr::Store => "store",
            Instr::Copy(_) => "copy",
            Instr::Add => "add",
            Instr::Sub => "sub",
            Instr::Mul => "mul",
            Instr::Div => "div",
            Instr::Mod => "mod",
            Instr::Neg => "neg",
            Instr::Abs => "abs",
            Instr::Sqr => "sqr",
            Instr::Odd => "odd",
            Instr::And => "and",
            Instr::Or => "or",
            Instr::Not => "not",
            Instr::Eq => "eq",
            Instr::Ne => "ne",
            Instr::Lt => "lt",
            Instr::Le => "le",
            Instr::Gt => "gt",
            Instr::Ge => "ge",
            Instr::Range { .. } => "range",
            Instr::Succ(_) => "succ",
            Instr::Pred(_) => "pred",
            Instr::Jump(_) => "jump",
            Instr::Jumpf(_) => "jumpf",
            Instr::Casej { .. } => "casej",
            Instr::Nocase => "nocase",
            Instr::Tick => "tick",
            Instr::Assume => "assume",
            Instr::Forup { .. } => "forup",
            Instr::Fordown { .. } => "fordown",
            Instr::Nextup { .. } => "nextup",
            Instr::Nextdown { .. } => "nextdown",
            Instr::Call { .. } => "call",
            Instr::Return => "return",
            Instr::ReadInt => "read int",
            Instr::ReadChar => "read char",
            Instr::Readln => "readln",
            Instr::Eof => "eof",
            Instr::Eoln => "eoln",
            Instr::WriteInt => "write int",
            Instr::WriteChar => "write char",
            Instr::WriteBool => "write bool",
            Instr::WriteText(_) => "write text",
            Instr::WritewInt => "writew int",
            Instr::WritewChar => "writew char",
            Instr::WritewBool => "writew bool",
            Instr::WritewText(_) => "writew text",
            Instr::Writeln => "writeln",
            Instr::Pack(_) => "pack",
            Instr::Open => "open",
            Instr::Send(_) => "send",
            Instr::Receive(_) => "receive",
            Instr::Fork(_) => "fork",
            Instr::Forall(_) => "forall",
            Instr::End => "end",
        }
    }

    /// The numbers after its word.
    fn operands(self) -> Operands
        ensures { operand_list result ≡ operands self }
    {
        match self {
            Instr::Const(v) => Operands::One(v),
            Instr::Addr { up, var } => Operands::Two(i64::from(up), i64::from(var)),
            Instr::Deref { up, var } => Operands::Two(i64::from(up), i64::from(var)),
            Instr::Index { low, high, size } => Operands::Three(low, high, i64::from(size)),
            Instr::Field(n) => Operands::One(i64::from(n)),
            Instr::Copy(n) => Operands::One(i64::from(n)),
            Instr::Range { low, high } => Operands::Two(low, high),
            Instr::Succ(high) => Operands::One(high),
            Instr::Pred(low) => Operands::One(low),
            Instr::Jump(to) => Operands::One(i64::from(to)),
            Instr::Jumpf(to) => Operands::One(i64::from(to)),
            Instr::Casej { value, to } => Operands::Two(value, i64::from(to)),
            Instr::Forup { var, to } => Operands::Two(i64::from(var), i64::from(to)),
            Instr::Fordown { var, to } => Operands::Two(i64::from(var), i64::from(to)),
            Instr::Nextup { var, to } => Operands::Two(i64::from(var), i64::from(to)),
            Instr::Nextdown { var, to } => Operands::Two(i64::from(var), i64::from(to)),
            Instr::Call { block, up } => Operands::Two(i64::from(block), i64::from(up)),
            Instr::WriteText(n) => Operands::One(i64::from(n)),
            Instr::WritewText(n) => Operands::One(i64::from(n)),
            Instr::Pack(n) => Operands::One(i64::from(n)),
            Instr::Send(message) => Operands::One(i64::from(message)),
            Instr::Receive(message) => Operands::One(i64::from(message)),
            Instr::Fork(table) => Operands::One(i64::from(table)),
            Instr::Forall(table) => Operands::One(i64::from(table)),
            _ => Operands::None,
        }
    }

    /// Puts the instruction's text last into `out`, as `addr 0 2`. Where memory is refused a part of it may stand
    /// there.
    pub fn put(self, out: &mut Vec<u8>) -> Result<(), Memory>
        ensures { OnOk result (out.new.items ≡ out.old.items ++ instr_text self) }
    {
        out.extend_from_slice(self.word().as_bytes())?;
        match self.operands() {
            Operands::None => Ok(()),
            Operands::One(a) => put_operand(out, a),
            Operands::Two(a, b) => put_two(out, a, b),
            Operands::Three(a, b, c) => {
                put_operand(out, a)?;
                put_two(out, b, c)
            }
        }
    }
}
