//! Constructors of declarations and blocks, from their parts.

ghost use Rattle.std.specs.Prelude.{◌≡◌};
ghost use Rattle.sp_tree.specs.PlainSyntax as tree;
ghost use Rattle.sp_tree.specs.SyntaxOf.{part_of, parts_of, block_of, statements_of};
ghost use Rattle.sp_parse.specs.Trees.{MakesTree};

use crate::source::Source;
use crate::spelling::nameless;
use sp_base::{Boxed, List, Place};
use sp_tree::{Name, SynBlock, SynConst, SynForm, SynFormal, SynGroup, SynKind, SynPart, SynStmt};
use std::alloc::{AllocError, Global};

pub fn constant_declaration(name: Name, value: SynConst) -> SynPart
    ensures { part_of result ≡ tree.Const name value }
{
    SynPart::Const(name, value)
}

pub fn type_declaration(name: Name, kind: SynKind) -> SynPart
    ensures { part_of result ≡ tree.Kind name kind }
{
    SynPart::Kind(name, kind)
}

pub fn variable_declaration(of: SynGroup) -> SynPart
    ensures { part_of result ≡ tree.Var of.names of.kind }
{
    SynPart::Var(of.names, of.kind)
}

/// A procedure, or with an answer a function.
pub fn procedure_declaration(
    alloc: Global,
    name: Name,
    formals: List<SynFormal>,
    answer: Option<Name>,
    block: SynBlock,
) -> Result<SynPart, AllocError>
    ensures { MakesTree part_of (let b = block_of block in tree.Proc name formals answer b.parts b.body) result }
{
    let block = Boxed::new(alloc, block)?;
    Ok(SynPart::Proc {
        name,
        formals,
        answer,
        block,
    })
}

/// A block with these declarations and the statements behind the `begin` at this place.
pub fn whole_block(all: List<SynPart>, at: Place, statements: List<SynStmt>) -> SynBlock
    ensures { block_of result ≡ record {
      parts = parts_of all;
      body = tree.Does at (tree.Sequence (statements_of statements));
    } }
{
    SynBlock {
        parts: all,
        body: SynStmt {
            at,
            form: SynForm::Sequence(statements),
        },
    }
}

/// A declaration and a block that say nothing, for a reading that failed.
pub fn no_part(source: &Source) -> SynPart {
    SynPart::Var(List::new(source.alloc), nameless(source))
}

pub fn no_block(source: &Source) -> SynBlock {
    whole_block(List::new(source.alloc), source.end, List::new(source.alloc))
}
