//! How the arguments of a call are passed.

ghost use Rattle.std.specs.Prelude.{◌≡◌, map};
ghost use Rattle.std.specs.Option.{option_copied};
ghost use Rattle.sp_tree.specs.NameRules.{next_passing, flags_left, references_of, rest_of};
ghost use Rattle.sp_tree.specs.NameWalk.{count, is_whole};
ghost use Rattle.sp_tree.specs.SyntaxOf.{arguments, argument_of, selectors, selector_of};

use sp_tree::{Meaning, Passing, StandardProcedure, SynArg, SynSelector};

/// For each parameter of what is called, whether it is a variable parameter.
pub fn references_of<'a>(m: Option<&'a Meaning>) -> &'a [bool]
    ensures { result.now ≡ references_of (option_copied m.entry) }
{
    match m {
        Some(Meaning::Procedure { references, .. }) => references.items(),
        Some(Meaning::Function { references, .. }) => references.items(),
        Some(Meaning::StandardProcedure(StandardProcedure::Receive)) => &[false],
        _ => &[],
    }
}

/// How the arguments behind those are passed.
pub fn rest_of(m: Option<&Meaning>) -> Passing
    ensures { result ≡ rest_of (option_copied m.entry) }
{
    match m {
        Some(Meaning::StandardProcedure(p)) => match p {
            StandardProcedure::Read
            | StandardProcedure::Readln
            | StandardProcedure::Open
            | StandardProcedure::Receive => Passing::Target,
            StandardProcedure::Write | StandardProcedure::Writeln => Passing::Written,
            StandardProcedure::Send => Passing::Value,
        },
        _ => Passing::Value,
    }
}

/// How the next argument is passed.
pub fn next_passing(flags: &[bool], rest: Passing) -> Passing
    ensures { result ≡ next_passing flags.now rest }
{
    match flags.first() {
        None => rest,
        Some(by_reference) => {
            if *by_reference {
                Passing::Reference
            } else {
                Passing::Value
            }
        }
    }
}

/// The flags behind the first.
pub fn others(flags: &[bool]) -> &[bool]
    ensures { result.now ≡ flags_left flags.now }
{
    match flags.split_first() {
        Some((_, rest)) => rest,
        None => flags,
    }
}

/// How many arguments there are.
#[tactic(auto, using(crate::proofs::ScopeTables::count_is))]
pub fn count(args: &[SynArg]) -> usize
    ensures { result ≡ count (arguments (map argument_of args.now)) }
{
    args.len()
}

/// Whether there are no selectors.
pub fn is_whole(xs: &[SynSelector]) -> bool
    ensures { result ≡ is_whole (selectors (map selector_of xs.now)) }
{
    xs.first().is_none()
}
