//! Reading a code file, line by line (`decode`). A line is taken only where the item that was read, written again, is
//! the line.

ghost use Rattle.std.specs.Prelude.{◌≡◌, ◌++◌, ◌∷◌, [], ◌<◌, ◌↔◌, IsTrue, IfOk, OnOk};
ghost use Rattle.sp_codefile.specs.CodeText.{IsCode};
ghost use Rattle.sp_codefile.specs.DecodeAnswers.{Decodes};
ghost use Rattle.sp_codefile.specs.Items.{last_children, with_child, item_text, ItemFits, HasRoom, after_item};
ghost use Rattle.sp_codefile.specs.Items.{IsNextItem};
ghost use Rattle.sp_base.specs.Adds.{Adds};

use crate::have;
use crate::item::Item;
use crate::line_reader::read_line;
use crate::line_writer::{put_child, put_instr, put_layout, put_text};
use sp_base::{List, Memory, Writer};
use sp_code::{ChildTable, Code, ForkTable, MAX_CODE, MAX_FRAME, Parts};
use sp_journal::split_first;
use std::alloc::Global;
use thiserror::Error;

/// Why bytes are not read as code.
#[derive(Clone, Copy, Debug, Error)]
pub enum DecodeError {
    /// This line, counted from 1, is the first with which the lines begin no code's text, or the next line, which is
    /// missing.
    #[error("line {0} begins no code's text")]
    BadLine(u64),
    /// Memory was refused.
    #[error("out of memory")]
    Memory,
}

/// How many children the last fork table has.
fn last_children(forks: &List<ForkTable>) -> usize
    ensures { result ≡ last_children forks.now }
{
    match forks.get(forks.len().saturating_sub(1)) {
        None => 0,
        Some(table) => table.children.len(),
    }
}

/// Puts the line of the item that comes next, without its line feed.
fn put_item(out: &mut Writer<u8>, parts: &Parts, item: &Item)
    requires { HasRoom parts.now item.now }
    ensures text { Adds out.old out.new (item_text parts.now item.now) }
    ensures fits { ItemFits item.now }
{
    match item {
        Item::Layout(layout) => put_layout(out, layout),
        Item::Text(text) => put_text(out, text),
        Item::Instr(instr) => put_instr(out, parts.instrs.len(), *instr),
        Item::Table(child) => put_child(out, parts.forks.len(), 0, child),
        Item::Child(child) => put_child(
            out,
            parts.forks.len() - 1,
            last_children(&parts.forks),
            child,
        ),
    }
}

/// Whether the item can come next, with its line in the right place and no more of its kind than code may have.
fn has_room(parts: &Parts, item: &Item) -> bool
    ensures { IsTrue result ↔ HasRoom parts.now item.now }
{
    match item {
        Item::Layout(layout) => {
            parts.texts.is_empty()
                && parts.instrs.is_empty()
                && parts.forks.is_empty()
                && parts.layouts.len() < MAX_CODE
                && layout.sizes.len() <= MAX_FRAME
        }
        Item::Text(_) => parts.instrs.is_empty()
            && parts.forks.is_empty()
            && parts.texts.len() < MAX_CODE,
        Item::Instr(_) => parts.forks.is_empty() && parts.instrs.len() < MAX_CODE,
        Item::Table(_) => parts.forks.len() < MAX_CODE,
        Item::Child(_) => { !parts.forks.is_empty() && last_children(&parts.forks) < usize::MAX }
    }
}

/// The item of which the line is the text, where it can come next.
fn next(alloc: Global, parts: &Parts, line: &[u8]) -> Result<Option<Item>, Memory>
    requires { IsCode parts.now }
    ensures { IfOk result (IsNextItem parts.now line.now) }
{
    let item = have!(read_line(alloc, line));
    if !has_room(parts, &item) {
        return Ok(None);
    }
    let mut text = Writer::new(alloc);
    put_item(&mut text, parts, &item);
    let text = have!(text.finish());
    if text.as_slice() == line {
        Ok(Some(item))
    } else {
        Ok(None)
    }
}

fn add_table(forks: &mut List<ForkTable>, child: ChildTable) -> Result<(), Memory>
    ensures { OnOk result (forks.new ≡ forks.old ++ record { children = child ∷ [] } ∷ []) }
{
    let mut children = List::new(forks.alloc());
    have!(children.push(child));
    have!(forks.push(ForkTable { children }));
    Ok(())
}

fn add_child(forks: &mut List<ForkTable>, child: ChildTable) -> Result<(), Memory>
    ensures { OnOk result (forks.new ≡ with_child forks.old child) }
{
    if let Some(mut table) = forks.pop() {
        have!(table.children.push(child));
        have!(forks.push(table));
    }
    Ok(())
}

/// Takes the next item in. After `Memory` the parts are of no more use.
fn add(parts: &mut Parts, item: Item) -> Result<(), Memory>
    ensures { OnOk result (parts.new ≡ after_item parts.old item) }
{
    match item {
        Item::Layout(layout) => have!(parts.layouts.push(layout)),
        Item::Text(text) => have!(parts.texts.push(text)),
        Item::Instr(instr) => have!(parts.instrs.push(instr)),
        Item::Table(child) => have!(add_table(&mut parts.forks, child)),
        Item::Child(child) => have!(add_child(&mut parts.forks, child)),
    }
    Ok(())
}

/// The code of which these bytes are the text, as `encode` writes it. There is one at most.
pub fn decode(alloc: Global, bytes: &[u8]) -> Result<Code, DecodeError>
    ensures { Decodes bytes.now result }
{
    let Some((first, mut rest)) = split_first(bytes, b'\n') else {
        return Err(DecodeError::BadLine(1));
    };
    if first != "superpascal code 1".as_bytes() {
        return Err(DecodeError::BadLine(1));
    }
    let mut parts = Parts {
        instrs: List::new(alloc),
        layouts: List::new(alloc),
        forks: List::new(alloc),
        texts: List::new(alloc),
    };
    let mut line = 2u64;
    while !rest.is_empty() {
        let Some((text, behind)) = split_first(rest, b'\n') else {
            return Err(DecodeError::BadLine(line)); // it has no line feed
        };
        let Some(item) = have!(next(alloc, &parts, text), DecodeError::Memory) else {
            return Err(DecodeError::BadLine(line));
        };
        have!(add(&mut parts, item), DecodeError::Memory);
        rest = behind;
        line += 1;
    }
    Ok(Code::of(parts))
}
