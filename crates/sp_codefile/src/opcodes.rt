//! Reading instructions by their words and operands.

ghost use Rattle.std.specs.Prelude.{◌≡◌, ℕ, ℤ, decimal};
ghost use Rattle.std.specs.Fmt.{signed_decimal};
ghost use Rattle.sp_code.specs.declared.instr.Instr.{Instr as InstrOf};
ghost use Rattle.sp_code.specs.Listing.{instr_text};
ghost use Rattle.sp_codefile.specs.CodeText.{IsNumber, IsInteger, InstrFits};
ghost use Rattle.sp_codefile.specs.Opcodes.{instr_named, with_operands};

use crate::words::{class_cut, integer, next_word, number};
use sp_code::Instr;

/// A word read as a number of each kind.
#[derive(Clone, Copy)]
pub(crate) struct Operand {
    number: u32,
    integer: i64,
}

/// Each instruction once, with operands of 0.
const INSTRS: [Instr; 63] = [
    Instr::Const(0),
    Instr::Addr { up: 0, var: 0 },
    Instr::Deref { up: 0, var: 0 },
    Instr::Index {
        low: 0,
        high: 0,
        size: 0,
    },
    Instr::Field(0),
    Instr::Load,
    Instr::Loadc,
    Instr::Store,
    Instr::Copy(0),
    Instr::Add,
    Instr::Sub,
    Instr::Mul,
    Instr::Div,
    Instr::Mod,
    Instr::Neg,
    Instr::Abs,
    Instr::Sqr,
    Instr::Odd,
    Instr::And,
    Instr::Or,
    Instr::Not,
    Instr::Eq,
    Instr::Ne,
    Instr::Lt,
    Instr::Le,
    Instr::Gt,
    Instr::Ge,
    Instr::Range { low: 0, high: 0 },
    Instr::Succ(0),
    Instr::Pred(0),
    Instr::Jump(0),
    Instr::Jumpf(0),
    Instr::Casej { value: 0, to: 0 },
    Instr::Nocase,
    Instr::Tick,
    Instr::Assume,
    Instr::Forup { var: 0, to: 0 },
    Instr::Fordown { var: 0, to: 0 },
    Instr::Nextup { var: 0, to: 0 },
    Instr::Nextdown { var: 0, to: 0 },
    Instr::Call { block: 0, up: 0 },
    Instr::Return,
    Instr::ReadInt,
    Instr::ReadChar,
    Instr::Readln,
    Instr::Eof,
    Instr::Eoln,
    Instr::WriteInt,
    Instr::WriteChar,
    Instr::WriteBool,
    Instr::WriteText(0),
    Instr::WritewInt,
    Instr::WritewChar,
    Instr::WritewBool,
    Instr::WritewText(0),
    Instr::Writeln,
    Instr::Pack(0),
    Instr::Open,
    Instr::Send(0),
    Instr::Receive(0),
    Instr::Fork(0),
    Instr::Forall(0),
    Instr::End,
];

/// The instruction of this word, with operands of 0.
fn named(word: &[u8]) -> Option<Instr>
    ensures { result ≡ instr_named word.now }
{
    INSTRS
        .iter()
        .copied()
        .find(|instr| instr.word().as_bytes() == word)
}

fn read_operand(word: &[u8]) -> Operand
    ensures number { (n : ℕ) → IsNumber n → word.now ≡ decimal n → result.number ≡ n }
    ensures integer { (z : ℤ) → IsInteger z → word.now ≡ signed_decimal z → result.integer ≡ z }
{
    Operand {
        number: number(word),
        integer: integer(word),
    }
}

/// The instruction with these operands in place of its own.
fn filled(instr: Instr, first: Operand, second: Operand, third: Operand) -> Instr
    ensures { result ≡ with_operands instr first second third }
{
    match instr {
        Instr::Const(_) => Instr::Const(first.integer),
        Instr::Addr { .. } => Instr::Addr {
            up: first.number,
            var: second.number,
        },
        Instr::Deref { .. } => Instr::Deref {
            up: first.number,
            var: second.number,
        },
        Instr::Index { .. } => Instr::Index {
            low: first.integer,
            high: second.integer,
            size: third.number,
        },
        Instr::Field(_) => Instr::Field(first.number),
        Instr::Copy(_) => Instr::Copy(first.number),
        Instr::Range { .. } => Instr::Range {
            low: first.integer,
            high: second.integer,
        },
        Instr::Succ(_) => Instr::Succ(first.integer),
        Instr::Pred(_) => Instr::Pred(first.integer),
        Instr::Jump(_) => Instr::Jump(first.number),
        Instr::Jumpf(_) => Instr::Jumpf(first.number),
        Instr::Casej { .. } => Instr::Casej {
            value: first.integer,
            to: second.number,
        },
        Instr::Forup { .. } => Instr::Forup {
            var: first.number,
            to: second.number,
        },
        Instr::Fordown { .. } => Instr::Fordown {
            var: first.number,
            to: second.number,
        },
        Instr::Nextup { .. } => Instr::Nextup {
            var: first.number,
            to: second.number,
        },
        Instr::Nextdown { .. } => Instr::Nextdown {
            var: first.number,
            to: second.number,
        },
        Instr::Call { .. } => Instr::Call {
            block: first.number,
            up: second.number,
        },
        Instr::WriteText(_) => Instr::WriteText(first.number),
        Instr::WritewText(_) => Instr::WritewText(first.number),
        Instr::Pack(_) => Instr::Pack(first.number),
        Instr::Send(_) => Instr::Send(first.number),
        Instr::Receive(_) => Instr::Receive(first.number),
        Instr::Fork(_) => Instr::Fork(first.number),
        Instr::Forall(_) => Instr::Forall(first.number),
        _ => instr,
    }
}

/// The instruction of a line behind its number.
pub(crate) fn read_instr(text: &[u8]) -> Instr
    ensures { (x : InstrOf) → InstrFits x → text.now ≡ instr_text x → result ≡ x }
{
    let (name, operands) = class_cut(text, b'-', b'9');
    let (first, rest) = next_word(operands);
    let (second, rest) = next_word(rest);
    let (third, _) = next_word(rest);
    match named(name) {
        None => Instr::End,
        Some(instr) => filled(
            instr,
            read_operand(first),
            read_operand(second),
            read_operand(third),
        ),
    }
}
