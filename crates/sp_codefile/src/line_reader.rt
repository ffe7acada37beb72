//! Reading what a line of a code file says. Bytes that are no line may give any answer: whoever reads a line writes it
//! again, and compares.

ghost use Rattle.std.specs.Prelude.{◌≡◌, ◌<◌, ◌^◌, ℕ, true, false, List, Option, Some, None, All, IfOk, codes, decimal};
ghost use Rattle.std.specs.List.{flat_map};
ghost use Rattle.sp_code.specs.declared.code.ChildTable.{ChildTable as ChildOf};
ghost use Rattle.sp_code.specs.declared.code.Formal.{Formal as FormalOf};
ghost use Rattle.sp_code.specs.declared.code.Formal.TheVariants as formal;
ghost use Rattle.sp_code.specs.declared.code.Layout.{Layout as LayoutOf};
ghost use Rattle.sp_code.specs.declared.code.Parts.{Parts};
ghost use Rattle.sp_code.specs.Listing.{number_text};
ghost use Rattle.sp_codefile.specs.declared.item.Item.{Item as ItemOf};
ghost use Rattle.sp_codefile.specs.declared.item.Item.TheVariants as item;
ghost use Rattle.sp_codefile.specs.CodeText.{formal_text, index_text, IsCode, IsNumber, MayBeNumber, FormalFits};
ghost use Rattle.sp_codefile.specs.CodeText.{LayoutFits, ChildFits};
ghost use Rattle.sp_codefile.specs.Items.{item_text, CanFollow};
ghost use Rattle.sp_codefile.specs.Lines.{layout_words, child_words, digit_value, bytes_of, kind_of};

use crate::have;
use crate::item::Item;
use crate::opcodes::read_instr;
use crate::words::{after, blank_cut, class_cut, next_word, number};
use sp_base::{List, Memory, Text};
use sp_code::{ChildTable, Formal, Layout};
use std::alloc::Global;

/// The numbers of a text of words.
fn numbers(alloc: Global, text: &[u8]) -> Result<List<u32>, Memory>
    ensures { (ns : List ℕ) → All IsNumber ns → text.now ≡ flat_map number_text ns → IfOk result (λ it. it ≡ ns) }
{
    let mut numbers = List::new(alloc);
    let mut rest = text;
    while !rest.is_empty() {
        let (word, behind) = next_word(rest);
        have!(numbers.push(number(word)));
        rest = behind;
    }
    Ok(numbers)
}

fn formal(name: &[u8], cells: u32) -> Formal
    ensures value { name.now ≡ codes "value" → result ≡ formal.Value cells }
    ensures reference { name.now ≡ codes "reference" → result ≡ formal.Reference cells }
{
    if name == "value".as_bytes() {
        Formal::Value(cells)
    } else {
        Formal::Reference(cells)
    }
}

/// The formals of a text of words.
fn formals(alloc: Global, text: &[u8]) -> Result<List<Formal>, Memory>
    ensures { (fs : List FormalOf) → All FormalFits fs → text.now ≡ flat_map formal_text fs
        → IfOk result (λ it. it ≡ fs) }
{
    let mut formals = List::new(alloc);
    let mut rest = text;
    while !rest.is_empty() {
        let (name, behind) = next_word(rest);
        let (cells, behind) = next_word(behind);
        have!(formals.push(formal(name, number(cells))));
        rest = behind;
    }
    Ok(formals)
}

/// The block around a block.
fn parent(word: &[u8]) -> Option<u32>
    ensures none { word.now ≡ codes "-" → result ≡ None }
    ensures some { (b : ℕ) → IsNumber b → word.now ≡ decimal b → result ≡ Some b }
{
    if word == "-".as_bytes() {
        None
    } else {
        Some(number(word))
    }
}

/// Whether a block has a result.
fn has_answer(word: &[u8]) -> bool
    ensures yes { word.now ≡ codes "answer" → result ≡ true }
    ensures no { word.now ≡ codes "none" → result ≡ false }
{
    word == "answer".as_bytes()
}

/// The layout of a line behind its first word.
fn read_layout(alloc: Global, text: &[u8]) -> Result<Layout, Memory>
    ensures { (l : LayoutOf) → LayoutFits l → text.now ≡ layout_words l → IfOk result (λ it. it ≡ l) }
{
    let (block, rest) = next_word(text);
    let (entry, rest) = next_word(rest);
    let (around, rest) = next_word(rest);
    let (answer, rest) = next_word(rest);
    let (_, rest) = next_word(rest);
    let (sizes, rest) = class_cut(rest, b'a', b'z');
    let (_, rest) = next_word(rest);
    let (variables, rest) = class_cut(rest, b'a', b'z');
    let (_, parameters) = next_word(rest);
    let sizes = have!(numbers(alloc, sizes));
    let variables = have!(numbers(alloc, variables));
    let formals = have!(formals(alloc, parameters));
    Ok(Layout {
        block: number(block),
        entry: number(entry),
        parent: parent(around),
        answer: has_answer(answer),
        sizes,
        variables,
        formals,
    })
}

/// The value of a hexadecimal digit.
fn value(digit: u8) -> u8
    ensures value { result ≡ digit_value digit }
    ensures small { result < 16 }
{
    if digit < 58 {
        digit % 16
    } else {
        (digit % 16 + 9) % 16
    }
}

/// The bytes that pairs of digits write.
fn read_bytes(alloc: Global, text: &[u8]) -> Result<Vec<u8>, Memory>
    ensures { IfOk result (λ it. it.items ≡ bytes_of text.now) }
{
    let mut out = Vec::new(alloc);
    let mut rest = text;
    while rest.len() >= 2 {
        have!(out.push(value(rest[0]) * 16 + value(rest[1])));
        rest = &rest[2..];
    }
    Ok(out)
}

/// The index of a `forall`.
fn index(text: &[u8]) -> Option<u32>
    ensures { (i : Option ℕ) → MayBeNumber i → text.now ≡ index_text i → result ≡ i }
{
    if text.is_empty() {
        return None;
    }
    let (_, rest) = next_word(text);
    let (variable, _) = next_word(rest);
    Some(number(variable))
}

/// The child of a line behind its first word.
fn read_child(alloc: Global, text: &[u8]) -> Result<Item, Memory>
    ensures first { (t : ℕ) (c : ChildOf) → t < 2 ^ 64 → ChildFits c → text.now ≡ child_words t 0 c
        → IfOk result (λ it. it ≡ item.Table c) }
    ensures further { (t k : ℕ) (c : ChildOf) → t < 2 ^ 64 → 0 < k → k < 2 ^ 64 → ChildFits c
        → text.now ≡ child_words t k c
        → IfOk result (λ it. it ≡ item.Child c) }
{
    let (_, rest) = next_word(text);
    let (_, rest) = next_word(rest);
    let (nth, rest) = next_word(rest);
    let (_, rest) = next_word(rest);
    let (entry, rest) = next_word(rest);
    let (_, rest) = next_word(rest);
    let (moved, rest) = class_cut(rest, b'a', b'z');
    let (_, rest) = next_word(rest);
    let (shared, rest) = class_cut(rest, b'a', b'z');
    let moved = have!(numbers(alloc, moved));
    let shared = have!(numbers(alloc, shared));
    let child = ChildTable {
        entry: number(entry),
        moved,
        shared,
        index: index(rest),
    };
    if nth == "0".as_bytes() {
        Ok(Item::Table(child))
    } else {
        Ok(Item::Child(child))
    }
}

/// What a line says, by its first bytes.
#[derive(Clone, Copy)]
enum LineKind {
    Layout,
    Text,
    Child,
    Instr,
}

fn kind_of(line: &[u8]) -> LineKind
    ensures { result ≡ kind_of line.now }
{
    let first = line.first().copied().unwrap_or(0);
    let second = line.get(1).copied().unwrap_or(0);
    if first == b'l' {
        LineKind::Layout
    } else if first == b't' {
        if second == b'a' {
            LineKind::Child
        } else {
            LineKind::Text
        }
    } else {
        LineKind::Instr
    }
}

/// What a line without its line feed says.
pub(crate) fn read_line(alloc: Global, line: &[u8]) -> Result<Item, Memory>
    ensures { (p : Parts) (x : ItemOf) → IsCode p → CanFollow p x → line.now ≡ item_text p x
        → IfOk result (λ it. it ≡ x) }
{
    match kind_of(line) {
        LineKind::Layout => Ok(Item::Layout(have!(read_layout(alloc, after(line, 6))))),
        LineKind::Text => Ok(Item::Text(Text::of(have!(read_bytes(alloc, after(line, 5)))))),
        LineKind::Child => read_child(alloc, after(line, 5)),
        LineKind::Instr => {
            let (_, rest) = blank_cut(line);
            Ok(Item::Instr(read_instr(after(rest, 1))))
        }
    }
}
