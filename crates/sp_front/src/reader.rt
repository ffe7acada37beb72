//! The phases of characters and grammar, from the bytes of a text to its tree.

ghost use Rattle.sp_front.specs.Texts.{ParsesTo};

use sp_base::Halt;
use sp_parse::parse;
use sp_scan::scan;
use sp_tree::Syntax;
use std::alloc::Global;

/// The tree of a text that breaks no rule of its characters (L1, S1 to S5, U1, U2) and of its grammar (G1, L2, G2), or
/// the first rule that it breaks, with its place.
pub fn read_text(alloc: Global, text: &[u8]) -> Result<Syntax, Halt>
    ensures { ParsesTo text.now result }
{
    let tokens = scan(alloc, text)?;
    parse(alloc, text, tokens.items())
}
