//! The listing of code (`listing`), a line for each instruction and each child of a fork table.

ghost use Rattle.std.specs.Prelude.{◌≡◌, ◌++◌, IfOk, codes, decimal};
ghost use Rattle.std.specs.List.{flat_map};
ghost use Rattle.sp_code.specs.Listing.{number_text, instr_line, child_line, table_lines, numbered_texts, listing_text};
ghost use Rattle.sp_base.specs.Adds.{Adds};

use crate::code::{ChildTable, Code, ForkTable};
use crate::instr::Instr;
use sp_base::{Memory, Writer};
use std::alloc::Global;

/// Puts each number after a space.
fn put_numbers(out: &mut Writer<u8>, numbers: &[u32])
    ensures { Adds out.old out.new (flat_map number_text numbers.now) }
{
    for number in numbers {
        out.extend(b" ");
        out.decimal(u64::from(*number));
    }
}

fn put_instr_line(out: &mut Writer<u8>, number: usize, instr: Instr)
    ensures { Adds out.old out.new (instr_line number instr) }
{
    out.decimal(number as u64);
    out.extend(b" ");
    let done = instr.put(&mut out.items);
    out.note(done);
    out.extend(b"\n");
}

/// Puts where a child of a fork table stands, and its first instruction.
fn put_child_entry(out: &mut Writer<u8>, table: usize, number: usize, entry: u32)
    ensures { Adds out.old out.new (codes "table " ++ decimal table ++ codes " child " ++ decimal number
        ++ codes " entry " ++ decimal entry) }
{
    out.extend(b"table ");
    out.decimal(table as u64);
    out.extend(b" child ");
    out.decimal(number as u64);
    out.extend(b" entry ");
    out.decimal(u64::from(entry));
}

/// Puts what a child of a fork table is handed.
fn put_lists(out: &mut Writer<u8>, child: &ChildTable)
    ensures { Adds out.old out.new (codes " moves" ++ flat_map number_text child.now.moved ++ codes " shares"
        ++ flat_map number_text child.now.shared ++ codes "\n") }
{
    out.extend(b" moves");
    put_numbers(out, child.moved.items());
    out.extend(b" shares");
    put_numbers(out, child.shared.items());
    out.extend(b"\n");
}

fn put_child_line(out: &mut Writer<u8>, table: usize, number: usize, child: &ChildTable)
    ensures { Adds out.old out.new (child_line table number child.now) }
{
    put_child_entry(out, table, number, child.entry);
    put_lists(out, child);
}

fn put_instrs(out: &mut Writer<u8>, instrs: &[Instr])
    ensures { Adds out.old out.new (numbered_texts instr_line 0 instrs.now) }
{
    for (number, instr) in instrs.iter().enumerate() {
        put_instr_line(out, number, *instr);
    }
}

fn put_children(out: &mut Writer<u8>, table: usize, children: &[ChildTable])
    ensures { Adds out.old out.new (numbered_texts (child_line table) 0 children.now) }
{
    for (number, child) in children.iter().enumerate() {
        put_child_line(out, table, number, child);
    }
}

fn put_tables(out: &mut Writer<u8>, forks: &[ForkTable])
    ensures { Adds out.old out.new (numbered_texts table_lines 0 forks.now) }
{
    for (number, table) in forks.iter().enumerate() {
        put_children(out, number, table.children.items());
    }
}

/// The text of code: a line for each instruction with its number, and then a line for each child of each fork table.
pub fn listing(alloc: Global, code: &Code) -> Result<Vec<u8>, Memory>
    ensures { IfOk result (λ text. text.items ≡ listing_text code.now) }
{
    let mut out = Writer::new(alloc);
    let parts = code.parts();
    put_instrs(&mut out, parts.instrs.items());
    put_tables(&mut out, parts.forks.items());
    out.finish()
}
