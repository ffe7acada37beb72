//! Writing code as text (`encode`), and each kind of line.

ghost use Rattle.std.specs.Prelude.{◌≡◌, ◌++◌, ◌^◌, ◌<◌, All, IfOk, codes, decimal, false, length};
ghost use Rattle.std.specs.List.{flat_map};
ghost use Rattle.std.specs.Fmt.{digit_glyph};
ghost use Rattle.sp_code.specs.Listing.{number_text, numbered_texts, instr_text, instr_line};
ghost use Rattle.sp_codefile.specs.CodeText.{parent_text, answer_text, formal_text, layout_text, byte_text, text_text};
ghost use Rattle.sp_codefile.specs.CodeText.{index_text, child_text, line, child_of, table_text};
ghost use Rattle.sp_codefile.specs.CodeText.{IsNumber, MayBeNumber, FormalFits, LayoutFits, ChildFits, TableFits};
ghost use Rattle.sp_codefile.specs.CodeText.{IsByte, InstrFits, IsTextOf};
ghost use Rattle.sp_base.specs.Adds.{Adds};

use sp_base::{Memory, Text, Writer};
use sp_code::{ChildTable, Code, ForkTable, Formal, Instr, Layout};
use std::alloc::Global;

/// Puts a number after a space.
fn put_number(out: &mut Writer<u8>, number: u32)
    ensures text { Adds out.old out.new (number_text number) }
    ensures fits { IsNumber number }
{
    out.extend(b" ");
    out.decimal(u64::from(number))
}

/// Puts each number after a space.
fn put_numbers(out: &mut Writer<u8>, numbers: &[u32])
    ensures text { Adds out.old out.new (flat_map number_text numbers.now) }
    ensures fits { All IsNumber numbers.now }
{
    for number in numbers {
        put_number(out, *number);
    }
}

fn put_formal(out: &mut Writer<u8>, formal: Formal)
    ensures text { Adds out.old out.new (formal_text formal) }
    ensures fits { FormalFits formal }
{
    match formal {
        Formal::Value(cells) => {
            out.extend(b" value");
            put_number(out, cells)
        }
        Formal::Reference(cells) => {
            out.extend(b" reference");
            put_number(out, cells)
        }
    }
}

fn put_formals(out: &mut Writer<u8>, formals: &[Formal])
    ensures text { Adds out.old out.new (flat_map formal_text formals.now) }
    ensures fits { All FormalFits formals.now }
{
    for formal in formals {
        put_formal(out, *formal);
    }
}

/// Puts the number of the block around a block.
fn put_parent(out: &mut Writer<u8>, parent: Option<u32>)
    ensures text { Adds out.old out.new (parent_text parent) }
    ensures fits { MayBeNumber parent }
{
    match parent {
        None => {
            out.extend(b" -");
        }
        Some(block) => put_number(out, block),
    }
}

/// Puts whether a block has a result.
fn put_answer(out: &mut Writer<u8>, answer: bool)
    ensures { Adds out.old out.new (answer_text answer) }
{
    if answer {
        out.extend(b" answer");
    } else {
        out.extend(b" none");
    }
}

/// Puts a layout's line without its line feed.
pub(crate) fn put_layout(out: &mut Writer<u8>, layout: &Layout)
    ensures text { Adds out.old out.new (layout_text layout.now) }
    ensures fits { LayoutFits layout.now }
{
    out.extend(b"layout");
    put_number(out, layout.block);
    put_number(out, layout.entry);
    put_parent(out, layout.parent);
    put_answer(out, layout.answer);
    out.extend(b" sizes");
    put_numbers(out, layout.sizes.items());
    out.extend(b" variables");
    put_numbers(out, layout.variables.items());
    out.extend(b" formals");
    put_formals(out, layout.formals.items())
}

/// Puts a byte as two digits.
fn put_byte(out: &mut Writer<u8>, byte: u8)
    ensures text { Adds out.old out.new (byte_text byte) }
    ensures fits { IsByte byte }
{
    out.put(digit(byte / 16));
    out.put(digit(byte % 16));
}

/// The digit of a number below 16.
fn digit(number: u8) -> u8
    requires { number < 16 }
    ensures { result ≡ digit_glyph false number }
{
    if number < 10 {
        48 + number
    } else {
        87 + number
    }
}

fn put_bytes(out: &mut Writer<u8>, bytes: &[u8])
    ensures text { Adds out.old out.new (flat_map byte_text bytes.now) }
    ensures fits { All IsByte bytes.now }
{
    for byte in bytes {
        put_byte(out, *byte);
    }
}

/// Puts a text's line without its line feed.
pub(crate) fn put_text(out: &mut Writer<u8>, text: &Text)
    ensures text { Adds out.old out.new (text_text text.now) }
    ensures fits { All IsByte text.now }
{
    out.extend(b"text ");
    put_bytes(out, text.bytes())
}

/// Puts an instruction's line without its line feed.
pub(crate) fn put_instr(out: &mut Writer<u8>, number: usize, instr: Instr)
    ensures text { Adds out.old out.new (decimal number ++ codes " " ++ instr_text instr) }
    ensures fits { InstrFits instr }
{
    out.decimal(number as u64);
    out.extend(b" ");
    let done = instr.put(&mut out.items);
    out.note(done);
}

/// Puts the index of a `forall`.
fn put_index(out: &mut Writer<u8>, index: Option<u32>)
    ensures text { Adds out.old out.new (index_text index) }
    ensures fits { MayBeNumber index }
{
    match index {
        None => {}
        Some(variable) => {
            out.extend(b" index");
            put_number(out, variable)
        }
    }
}

/// Puts where a child of a fork table stands, and its first instruction.
fn put_child_entry(out: &mut Writer<u8>, table: usize, number: usize, entry: u32)
    ensures { Adds out.old out.new (codes "table " ++ decimal table ++ codes " child "
        ++ decimal number ++ codes " entry " ++ decimal entry) }
{
    out.extend(b"table ");
    out.decimal(table as u64);
    out.extend(b" child ");
    out.decimal(number as u64);
    out.extend(b" entry ");
    out.decimal(u64::from(entry))
}

/// Puts what a child of a fork table begins with.
fn put_lists(out: &mut Writer<u8>, child: &ChildTable)
    ensures text { Adds out.old out.new (codes " moves" ++ flat_map number_text child.now.moved
        ++ codes " shares" ++ flat_map number_text child.now.shared) }
    ensures moved { All IsNumber child.now.moved }
    ensures shared { All IsNumber child.now.shared }
{
    out.extend(b" moves");
    put_numbers(out, child.moved.items());
    out.extend(b" shares");
    put_numbers(out, child.shared.items())
}

/// Puts the line of a child of a fork table without its line feed.
pub(crate) fn put_child(out: &mut Writer<u8>, table: usize, number: usize, child: &ChildTable)
    ensures text { Adds out.old out.new (child_text table number child.now) }
    ensures fits { ChildFits child.now }
{
    put_child_entry(out, table, number, child.entry);
    put_lists(out, child);
    put_index(out, child.index)
}

/// Puts a line for each layout.
fn put_layouts(out: &mut Writer<u8>, layouts: &[Layout])
    ensures text { Adds out.old out.new (flat_map (λ l. line (layout_text l)) layouts.now) }
    ensures fits { All LayoutFits layouts.now }
{
    for layout in layouts {
        put_layout(out, layout);
        out.extend(b"\n");
    }
}

/// Puts a line for each text.
fn put_texts(out: &mut Writer<u8>, texts: &[Text])
    ensures text { Adds out.old out.new (flat_map (λ t. line (text_text t)) texts.now) }
    ensures fits { All (All IsByte) texts.now }
{
    for text in texts {
        put_text(out, text);
        out.extend(b"\n");
    }
}

/// Puts a line for each instruction.
fn put_instrs(out: &mut Writer<u8>, instrs: &[Instr])
    ensures text { Adds out.old out.new (numbered_texts instr_line 0 instrs.now) }
    ensures fits { All InstrFits instrs.now }
{
    for (number, instr) in instrs.iter().enumerate() {
        put_instr(out, number, *instr);
        out.extend(b"\n");
    }
}

/// Puts a line for each child of a fork table.
fn put_table(out: &mut Writer<u8>, table: usize, children: &[ChildTable])
    ensures text { Adds out.old out.new (numbered_texts (child_of table) 0 children.now) }
    ensures fits { All ChildFits children.now }
    ensures count { length children.now < 2 ^ 64 }
{
    for (number, child) in children.iter().enumerate() {
        put_child(out, table, number, child);
        out.extend(b"\n");
    }
}

/// Puts the lines of all fork tables.
fn put_tables(out: &mut Writer<u8>, forks: &[ForkTable])
    ensures text { Adds out.old out.new (numbered_texts table_text 0 forks.now) }
    ensures fits { All TableFits forks.now }
{
    for (number, table) in forks.iter().enumerate() {
        put_table(out, number, table.children.items());
    }
}

/// The text of code, as a code file has it: a first line, and then a line for each layout, text, instruction and child
/// of a fork table. `docs/FORMATS.md` has its form. It is refused for want of memory alone.
pub fn encode(alloc: Global, code: &Code) -> Result<Vec<u8>, Memory>
    ensures { IfOk result (λ text. IsTextOf code.now text.items) }
{
    let parts = code.parts();
    let mut out = Writer::new(alloc);
    out.extend(b"superpascal code 1\n");
    put_layouts(&mut out, parts.layouts.items());
    put_texts(&mut out, parts.texts.items());
    put_instrs(&mut out, parts.instrs.items());
    put_tables(&mut out, parts.forks.items());
    out.finish()
}
