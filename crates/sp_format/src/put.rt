//! Items put behind a text, each with the gap before it.

ghost use Rattle.std.specs.Prelude.{◌≡◌, ◌++◌, OnOk, map};
ghost use Rattle.sp_tree.specs.Characters.{lower_case_letter as lower_of, is_blank as is_a_blank};
ghost use Rattle.sp_scan.specs.Finds.{CutsByte};
ghost use Rattle.sp_format.specs.Items.{canonical_spelling};
ghost use Rattle.sp_format.specs.Layout.{indentation, gap};

use crate::context::{Context, breaks, depth};
use crate::kinds::touches;
use sp_tree::{Kind, lower};
use std::alloc::AllocError;

/// The first byte and the others, or none.
pub fn cut(bytes: &[u8]) -> Option<(u8, &[u8])>
    ensures { CutsByte bytes.now result }
{
    match bytes {
        [first, rest @ ..] => Some((*first, rest)),
        [] => None,
    }
}

/// Whether a byte is a space, a tab, a form feed, a carriage return or a line feed.
pub fn is_blank(byte: u8) -> bool
    ensures { result ≡ is_a_blank byte }
{
    matches!(byte, b' ' | b'\t' | 12 | b'\r' | b'\n')
}

fn put_lower(out: &mut Vec<u8>, bytes: &[u8]) -> Result<(), AllocError>
    ensures { OnOk result (out.new.items ≡ out.old.items ++ map lower_of bytes.now) }
{
    let mut rest = bytes;
    'more: while let [byte, after @ ..] = rest {
        out.push(lower(*byte))?;
        rest = after;
    }
    Ok(())
}

fn put_spelled(out: &mut Vec<u8>, kind: Option<Kind>, bytes: &[u8]) -> Result<(), AllocError>
    ensures { OnOk result (out.new.items ≡ out.old.items ++ canonical_spelling kind bytes.now) }
{
    match kind {
        Some(Kind::Name) | Some(Kind::Word(_)) => put_lower(out, bytes),
        _ => out.extend_from_slice(bytes),
    }
}

fn put_indentation(out: &mut Vec<u8>, steps: u32) -> Result<(), AllocError>
    ensures { OnOk result (out.new.items ≡ out.old.items ++ indentation steps) }
{
    let mut left = steps;
    'more: while left > 0 {
        out.push(b' ')?;
        out.push(b' ')?;
        left -= 1;
    }
    Ok(())
}

fn put_gap(out: &mut Vec<u8>, context: Context, kind: Option<Kind>) -> Result<(), AllocError>
    ensures { OnOk result (out.new.items ≡ out.old.items ++ gap context kind) }
{
    if context.first {
        return Ok(());
    }
    if breaks(context, kind) {
        out.push(b'\n')?;
        return put_indentation(out, depth(context, kind));
    }
    if !touches(context.previous, kind) {
        out.push(b' ')?;
    }
    Ok(())
}

/// Puts an item last, with what stands between the items before it and it.
pub fn put_item(
    out: &mut Vec<u8>,
    context: Context,
    kind: Option<Kind>,
    bytes: &[u8],
) -> Result<(), AllocError>
    ensures { OnOk result (out.new.items ≡ out.old.items ++ (gap context kind ++ canonical_spelling kind bytes.now)) }
{
    put_gap(out, context, kind)?;
    put_spelled(out, kind, bytes)
}
