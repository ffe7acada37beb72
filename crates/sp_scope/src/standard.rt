//! The standard names, declared in a block of their own.

ghost use Rattle.std.specs.Prelude.{◌≡◌, true, Ok};
ghost use Rattle.sp_tree.specs.PhaseResults.{AnswersAs};
ghost use Rattle.sp_tree.specs.Scopes.{put, standard_scope};
ghost use Rattle.sp_scope.specs.Standard.{with_types, with_functions, with_procedures};
ghost use Rattle.sp_scope.specs.Walks.{entries_of};

use crate::scopes::put;
use indexmap::IndexMap;
use sp_base::{Halt, Text};
use sp_tree::{Meaning, StandardFn, StandardProcedure};
use std::alloc::Global;

/// Declares a standard name, and says whether there was memory for it.
fn enter(alloc: Global, b: &mut IndexMap<Text, Meaning>, name: &str, m: Meaning) -> bool
    ensures { result ≡ true → b.new.entries ≡ put b.old.entries name.now m }
{
    match Vec::from_slice(alloc, name.as_bytes()) {
        Ok(bytes) => put(b, Text::of(bytes), m).is_ok(),
        Err(_) => false,
    }
}

fn enter_types(alloc: Global, b: &mut IndexMap<Text, Meaning>) -> bool
    ensures { result ≡ true → b.new.entries ≡ with_types b.old.entries }
{
    enter(alloc, b, "integer", Meaning::Kind(0))
        && enter(alloc, b, "boolean", Meaning::Kind(1))
        && enter(alloc, b, "char", Meaning::Kind(2))
        && enter(alloc, b, "false", Meaning::Constant(0))
        && enter(alloc, b, "true", Meaning::Constant(1))
        && enter(alloc, b, "maxint", Meaning::Constant(2))
}

fn enter_functions(alloc: Global, b: &mut IndexMap<Text, Meaning>) -> bool
    ensures { result ≡ true → b.new.entries ≡ with_functions b.old.entries }
{
    enter(alloc, b, "abs", Meaning::StandardFunction(StandardFn::Abs))
        && enter(alloc, b, "sqr", Meaning::StandardFunction(StandardFn::Sqr))
        && enter(alloc, b, "odd", Meaning::StandardFunction(StandardFn::Odd))
        && enter(alloc, b, "ord", Meaning::StandardFunction(StandardFn::Ord))
        && enter(alloc, b, "chr", Meaning::StandardFunction(StandardFn::Chr))
        && enter(
            alloc,
            b,
            "succ",
            Meaning::StandardFunction(StandardFn::Succ),
        )
        && enter(
            alloc,
            b,
            "pred",
            Meaning::StandardFunction(StandardFn::Pred),
        )
        && enter(alloc, b, "eof", Meaning::StandardFunction(StandardFn::Eof))
        && enter(
            alloc,
            b,
            "eoln",
            Meaning::StandardFunction(StandardFn::Eoln),
        )
}

fn enter_procedures(alloc: Global, b: &mut IndexMap<Text, Meaning>) -> bool
    ensures { result ≡ true → b.new.entries ≡ with_procedures b.old.entries }
{
    enter(
        alloc,
        b,
        "read",
        Meaning::StandardProcedure(StandardProcedure::Read),
    ) && enter(
        alloc,
        b,
        "readln",
        Meaning::StandardProcedure(StandardProcedure::Readln),
    ) && enter(
        alloc,
        b,
        "write",
        Meaning::StandardProcedure(StandardProcedure::Write),
    ) && enter(
        alloc,
        b,
        "writeln",
        Meaning::StandardProcedure(StandardProcedure::Writeln),
    ) && enter(
        alloc,
        b,
        "open",
        Meaning::StandardProcedure(StandardProcedure::Open),
    ) && enter(
        alloc,
        b,
        "send",
        Meaning::StandardProcedure(StandardProcedure::Send),
    ) && enter(
        alloc,
        b,
        "receive",
        Meaning::StandardProcedure(StandardProcedure::Receive),
    )
}

/// The block of the standard names.
#[tactic(auto, using(crate::proofs::Standards::standard_is))]
pub fn standard(alloc: Global) -> Result<IndexMap<Text, Meaning>, Halt>
    ensures { AnswersAs entries_of result (Ok standard_scope) }
{
    let mut b = IndexMap::new(alloc);
    if enter_types(alloc, &mut b)
        && enter_functions(alloc, &mut b)
        && enter_procedures(alloc, &mut b)
    {
        Ok(b)
    } else {
        Err(Halt::Memory)
    }
}
