//! Code files and listings, the text of sets, and canonical texts.

ghost use Rattle.std.specs.Prelude.{◌≡◌, IfOk};
ghost use Rattle.sp_tree.specs.CheckedOf.{program_of};
ghost use Rattle.sp_code.specs.Listing.{listing_text};
ghost use Rattle.sp_codefile.specs.CodeText.{IsTextOf};
ghost use Rattle.sp_codefile.specs.DecodeAnswers.{Decodes};
ghost use Rattle.sp_codefile.specs.VerifyAnswers.{Verifies};
ghost use Rattle.sp_varsets.specs.SetsText.{IsSetsText};
ghost use Rattle.sp_format.specs.Formats.{Formats};

use sp_base::{Halt, Memory};
use sp_code::Code;
use sp_codefile::{DecodeError, Rejected, Verified};
use sp_tree::Checked;
use sp_varsets::Sets;
use std::alloc::Global;

/// `sp_code::listing`.
pub fn listing(alloc: Global, code: &Code) -> Result<Vec<u8>, Memory>
    ensures { IfOk result (λ text. text.items ≡ listing_text code.now) }
{
    let listed = sp_code::listing(alloc, code);
    listed
}

/// `sp_codefile::encode`.
pub fn encode(alloc: Global, code: &Code) -> Result<Vec<u8>, Memory>
    ensures { IfOk result (λ text. IsTextOf code.now text.items) }
{
    let encoded = sp_codefile::encode(alloc, code);
    encoded
}

/// `sp_codefile::decode`.
pub fn decode(alloc: Global, bytes: &[u8]) -> Result<Code, DecodeError>
    ensures { Decodes bytes.now result }
{
    let decoded = sp_codefile::decode(alloc, bytes);
    decoded
}

/// `sp_codefile::verify`.
pub fn verify(code: Code) -> Result<Verified, Rejected>
    ensures { Verifies code result }
{
    let verified = sp_codefile::verify(code);
    verified
}

/// `sp_varsets::print_sets`.
pub fn print_sets(alloc: Global, checked: &Checked, sets: &Sets) -> Result<Vec<u8>, Memory>
    ensures { IfOk result (λ out. IsSetsText (program_of checked.now) sets.now out.items) }
{
    let printed = sp_varsets::print_sets(alloc, checked, sets);
    printed
}

/// `sp_format::format`.
pub fn format(alloc: Global, text: &[u8]) -> Result<Vec<u8>, Halt>
    ensures { Formats text.now result }
{
    let formatted = sp_format::format(alloc, text);
    formatted
}
