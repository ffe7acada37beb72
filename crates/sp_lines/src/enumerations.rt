//! The names of the constants of each enumeration that a text declares (`constants`).

ghost use Rattle.std.specs.Prelude.{◌≡◌, ◌++◌, map, IfOk, OnOk};
ghost use Rattle.sp_tree.specs.SyntaxOf.{block_of, part_of, parts, program_of};
ghost use Rattle.sp_lines.specs.Constants.{constants_of, kind_constants, names, part_constants, parts_constants};

use sp_base::{Boxed, List, Memory, Text};
use sp_tree::{Name, SynBlock, SynKind, SynPart, Syntax};
use std::alloc::Global;

/// Copies of these names.
fn names(alloc: Global, xs: &[Name]) -> Result<List<Text>, Memory>
    ensures { IfOk result (λ ys. ys ≡ names xs.now) }
{
    let mut out = List::new(alloc);
    for x in xs {
        let name = x.text.duplicate(alloc)?;
        out.push(name)?;
    }
    Ok(out)
}

/// The constants of a type, if it is an enumeration.
fn put_kind(alloc: Global, out: &mut List<List<Text>>, kind: &SynKind) -> Result<(), Memory>
    ensures { OnOk result (out.new ≡ out.old ++ kind_constants kind.now) }
{
    match kind {
        SynKind::Enumeration(xs) => {
            let constants = names(alloc, xs.items())?;
            out.push(constants)?;
            Ok(())
        }
        _ => Ok(()),
    }
}

/// Those that a declaration declares.
#[cycle(parts)]
fn put_part(alloc: Global, out: &mut List<List<Text>>, part: &SynPart) -> Result<(), Memory>
    ensures { OnOk result (out.new ≡ out.old ++ part_constants (part_of part.now)) }
{
    match part {
        SynPart::Kind(_, kind) => put_kind(alloc, out, kind),
        SynPart::Proc { block, .. } => put_boxed(alloc, out, block),
        SynPart::Const(..) | SynPart::Var(..) => Ok(()),
    }
}

/// Those of declarations, in their order.
#[cycle(parts)]
fn put_parts(
    alloc: Global,
    out: &mut List<List<Text>>,
    declared: &List<SynPart>,
) -> Result<(), Memory>
    ensures { OnOk result (out.new ≡ out.old ++ parts_constants (parts (map part_of declared.now))) }
{
    for part in declared.items() {
        put_part(alloc, out, part)?;
    }
    Ok(())
}

/// Those of a block.
#[cycle(parts)]
fn put_block(alloc: Global, out: &mut List<List<Text>>, block: &SynBlock) -> Result<(), Memory>
    ensures { OnOk result (out.new ≡ out.old ++ parts_constants (block_of block.now).parts) }
{
    put_parts(alloc, out, &block.parts)
}

/// Those of a block on the heap.
#[cycle(parts)]
fn put_boxed(
    alloc: Global,
    out: &mut List<List<Text>>,
    block: &Boxed<SynBlock>,
) -> Result<(), Memory>
    ensures { OnOk result (out.new ≡ out.old ++ parts_constants (block_of block.now).parts) }
{
    put_block(alloc, out, block.get())
}

/// The names of the constants of each enumeration that a text declares, in order of the text, in lower case. What is
/// made in this call takes its memory from `alloc`.
///
/// The one error is that memory was refused.
pub fn constants(alloc: Global, tree: &Syntax) -> Result<List<List<Text>>, Memory>
    ensures { IfOk result (λ cs. cs ≡ constants_of (program_of tree.now)) }
{
    let mut out = List::new(alloc);
    put_block(alloc, &mut out, &tree.block)?;
    Ok(out)
}
