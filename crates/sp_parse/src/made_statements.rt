//! Constructors of statements, from their parts, each with the place of its first token.

ghost use Rattle.std.specs.Prelude.{◌≡◌};
ghost use Rattle.sp_tree.specs.PlainSyntax as tree;
ghost use Rattle.sp_tree.specs.SyntaxOf.{expression_of, arguments_of, variable_of, statement_of, statements_of, arm_of};
ghost use Rattle.sp_tree.specs.SyntaxOf.{branch_of};
ghost use Rattle.sp_parse.specs.Trees.{MakesTree, other_of, arms_of, branches_of};

use sp_base::{Boxed, List, Place};
use sp_tree::{Name, SynArg, SynArm, SynBranch, SynConst, SynExpr, SynForm, SynStmt, SynVar};
use std::alloc::{AllocError, Global};

pub fn empty_statement(at: Place) -> SynStmt
    ensures { statement_of result ≡ tree.Does at tree.Empty }
{
    SynStmt {
        at,
        form: SynForm::Empty,
    }
}

pub fn assign_statement(at: Place, to: SynVar, value: SynExpr) -> SynStmt
    ensures { statement_of result ≡ tree.Does at (tree.Assign (variable_of to) (expression_of value)) }
{
    SynStmt {
        at,
        form: SynForm::Assign(to, value),
    }
}

pub fn call_statement(at: Place, name: Name, args: List<SynArg>) -> SynStmt
    ensures { statement_of result ≡ tree.Does at (tree.Call name (arguments_of args)) }
{
    SynStmt {
        at,
        form: SynForm::Call(name, args),
    }
}

pub fn sequence_statement(at: Place, all: List<SynStmt>) -> SynStmt
    ensures { statement_of result ≡ tree.Does at (tree.Sequence (statements_of all)) }
{
    SynStmt {
        at,
        form: SynForm::Sequence(all),
    }
}

pub fn if_statement(
    alloc: Global,
    at: Place,
    test: SynExpr,
    body: SynStmt,
    other: Option<SynStmt>,
) -> Result<SynStmt, AllocError>
    ensures { MakesTree statement_of
        (tree.Does at (tree.If (expression_of test) (statement_of body) (other_of other))) result }
{
    let body = Boxed::new(alloc, body)?;
    let other = match other {
        Some(other) => Some(Boxed::new(alloc, other)?),
        None => None,
    };
    Ok(SynStmt {
        at,
        form: SynForm::If(test, body, other),
    })
}

pub fn while_statement(
    alloc: Global,
    at: Place,
    test: SynExpr,
    body: SynStmt,
) -> Result<SynStmt, AllocError>
    ensures { MakesTree statement_of (tree.Does at (tree.While (expression_of test) (statement_of body))) result }
{
    let body = Boxed::new(alloc, body)?;
    Ok(SynStmt {
        at,
        form: SynForm::While(test, body),
    })
}

pub fn repeat_statement(at: Place, body: List<SynStmt>, test: SynExpr) -> SynStmt
    ensures { statement_of result ≡ tree.Does at (tree.Repeat (statements_of body) (expression_of test)) }
{
    SynStmt {
        at,
        form: SynForm::Repeat(body, test),
    }
}

pub fn case_statement(at: Place, test: SynExpr, arms: List<SynArm>) -> SynStmt
    ensures { statement_of result ≡ tree.Does at (tree.Case (expression_of test) (arms_of arms)) }
{
    SynStmt {
        at,
        form: SynForm::Case(test, arms),
    }
}

pub fn for_statement(
    alloc: Global,
    at: Place,
    name: Name,
    from: SynExpr,
    down: bool,
    to: SynExpr,
    body: SynStmt,
) -> Result<SynStmt, AllocError>
    ensures { MakesTree statement_of
        (tree.Does at (tree.For name (expression_of from) down (expression_of to) (statement_of body))) result }
{
    let body = Boxed::new(alloc, body)?;
    Ok(SynStmt {
        at,
        form: SynForm::For {
            name,
            from,
            down,
            to,
            body,
        },
    })
}

pub fn forall_statement(
    alloc: Global,
    at: Place,
    name: Name,
    from: SynExpr,
    to: SynExpr,
    body: SynStmt,
) -> Result<SynStmt, AllocError>
    ensures { MakesTree statement_of
        (tree.Does at (tree.Forall name (expression_of from) (expression_of to) (statement_of body))) result }
{
    let body = Boxed::new(alloc, body)?;
    Ok(SynStmt {
        at,
        form: SynForm::Forall {
            name,
            from,
            to,
            body,
        },
    })
}

pub fn parallel_statement(at: Place, branches: List<SynBranch>) -> SynStmt
    ensures { statement_of result ≡ tree.Does at (tree.Parallel (branches_of branches)) }
{
    SynStmt {
        at,
        form: SynForm::Parallel(branches),
    }
}

pub fn assume_statement(at: Place, test: SynExpr) -> SynStmt
    ensures { statement_of result ≡ tree.Does at (tree.Assume (expression_of test)) }
{
    SynStmt {
        at,
        form: SynForm::Assume(test),
    }
}

pub fn arm(constants: List<SynConst>, body: SynStmt) -> SynArm
    ensures { arm_of result ≡ tree.On constants (statement_of body) }
{
    SynArm { constants, body }
}

/// The statements that one process makes.
pub fn process(statements: List<SynStmt>) -> SynBranch
    ensures { branch_of result ≡ statements_of statements }
{
    SynBranch { statements }
}
