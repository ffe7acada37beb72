//! The rules of names at one name, by what it stands for: a function for each place of a name.

ghost use Rattle.std.specs.Prelude.{◌≡◌};
ghost use Rattle.std.specs.Option.{option_copied};
ghost use Rattle.sp_tree.specs.NameRules.{function_takes, procedure_takes, function_rule, procedure_rule, operand_rule};
ghost use Rattle.sp_tree.specs.NameRules.{target_rule, assign_rule, is_local};
ghost use Rattle.sp_tree.specs.NameRules.{loop_rule, width_rule, bare_rule, needs_variable};

use sp_base::{Place, Rule};
use sp_tree::{
    FirstRefusal, Meaning, Passing, Role, StandardFn, StandardProcedure, breaks, breaks_if,
    earlier_refusal,
};

fn function_takes(f: StandardFn, count: usize) -> bool
    ensures { result ≡ function_takes f count }
{
    match f {
        StandardFn::Eof | StandardFn::Eoln => 0 == count,
        _ => 1 == count,
    }
}

fn procedure_takes(p: StandardProcedure, count: usize) -> bool
    ensures { result ≡ procedure_takes p count }
{
    match p {
        StandardProcedure::Readln | StandardProcedure::Writeln => true,
        StandardProcedure::Read | StandardProcedure::Write | StandardProcedure::Open => 1 <= count,
        StandardProcedure::Send | StandardProcedure::Receive => 2 <= count,
    }
}

/// A call of a name in an expression, with so many arguments: N1, N3, N6.
pub fn function_rule(at: Place, count: usize, m: Option<&Meaning>) -> FirstRefusal
    ensures { result ≡ function_rule at count (option_copied m.entry) }
{
    match m {
        None => breaks(Rule::N1, at),
        Some(Meaning::Function { references, .. }) => {
            breaks_if(Rule::N6, at, references.len() != count)
        }
        Some(Meaning::StandardFunction(f)) => {
            breaks_if(Rule::N6, at, !function_takes(*f, count))
        }
        Some(_) => breaks(Rule::N3, at),
    }
}

/// A name in an expression, without selectors or with them: N1, N3, N6.
pub fn operand_rule(at: Place, whole: bool, m: Option<&Meaning>) -> FirstRefusal
    ensures { result ≡ operand_rule at whole (option_copied m.entry) }
{
    if whole {
        match m {
            Some(Meaning::Constant(_)) => None,
            Some(Meaning::Variable { .. }) => None,
            m => function_rule(at, 0, m),
        }
    } else {
        match m {
            None => breaks(Rule::N1, at),
            Some(Meaning::Variable { .. }) => None,
            Some(_) => breaks(Rule::N3, at),
        }
    }
}

/// A name as a target: N1, N3, N7.
pub fn target_rule(at: Place, m: Option<&Meaning>) -> FirstRefusal
    ensures { result ≡ target_rule at (option_copied m.entry) }
{
    match m {
        None => breaks(Rule::N1, at),
        Some(Meaning::Variable { role, .. }) => match role {
            Role::Index => breaks(Rule::N7, at),
            _ => None,
        },
        Some(Meaning::Constant(_)) => breaks(Rule::N7, at),
        Some(Meaning::Function { .. }) => breaks(Rule::N7, at),
        Some(Meaning::StandardFunction(_)) => breaks(Rule::N7, at),
        Some(_) => breaks(Rule::N3, at),
    }
}

/// The left side of an assignment in a block: N1, N3, N7.
pub fn assign_rule(block: u32, at: Place, whole: bool, m: Option<&Meaning>) -> FirstRefusal
    ensures { result ≡ assign_rule block at whole (option_copied m.entry) }
{
    if whole {
        match m {
            Some(Meaning::Function { block: b, .. }) => breaks_if(Rule::N7, at, *b != block),
            m => target_rule(at, m),
        }
    } else {
        target_rule(at, m)
    }
}

fn is_local(block: u32, m: Option<&Meaning>) -> bool
    ensures { result ≡ is_local block (option_copied m.entry) }
{
    match m {
        Some(Meaning::Variable { block: b, role, .. }) => match role {
            Role::Local => *b == block,
            _ => false,
        },
        _ => false,
    }
}

/// The variable of a `for` in a block: N1, N3, N7, N8.
pub fn loop_rule(block: u32, at: Place, m: Option<&Meaning>) -> FirstRefusal
    ensures { result ≡ loop_rule block at (option_copied m.entry) }
{
    earlier_refusal(
        target_rule(at, m),
        breaks_if(Rule::N8, at, !is_local(block, m)),
    )
}

/// A call as a statement, with so many arguments: N1, N3, N6.
pub fn procedure_rule(at: Place, count: usize, m: Option<&Meaning>) -> FirstRefusal
    ensures { result ≡ procedure_rule at count (option_copied m.entry) }
{
    match m {
        None => breaks(Rule::N1, at),
        Some(Meaning::Procedure { references, .. }) => {
            breaks_if(Rule::N6, at, references.len() != count)
        }
        Some(Meaning::StandardProcedure(p)) => {
            breaks_if(Rule::N6, at, !procedure_takes(*p, count))
        }
        Some(_) => breaks(Rule::N3, at),
    }
}

/// A width on an argument: N5.
pub fn width_rule(at: Place, p: Passing) -> FirstRefusal
    ensures { result ≡ width_rule at p }
{
    match p {
        Passing::Written => None,
        _ => breaks(Rule::N5, at),
    }
}

/// An argument that is not written as a variable: N5.
pub fn bare_rule(at: Place, p: Passing) -> FirstRefusal
    ensures { result ≡ bare_rule at p }
{
    match p {
        Passing::Target => breaks(Rule::N5, at),
        _ => None,
    }
}

/// Whether an argument is passed to something that it has to be a variable for.
pub fn needs_variable(p: Passing) -> bool
    ensures { result ≡ needs_variable p }
{
    matches!(p, Passing::Reference | Passing::Target)
}
