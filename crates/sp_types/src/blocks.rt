//! The blocks of a program with types, each with the rules at its frame, its result and its statements.

ghost use Rattle.std.specs.Prelude.{◌≡◌, false, map};
ghost use Rattle.sp_tree.specs.NamedOf.{block_of};
ghost use Rattle.sp_tree.specs.Carried.{Keeps};
ghost use Rattle.sp_tree.specs.CheckedOf as checked;
ghost use Rattle.sp_types.specs.TypeWalk.{with_first_number, statement_after, blocks_after};
ghost use Rattle.sp_types.specs.Firsts.{statement_first};
ghost use Rattle.sp_types.specs.DeclarationFirsts.{answer_first, blocks_first};
ghost use Rattle.sp_types.specs.CheckedTree.{checked_block, checked_blocks};
ghost use Rattle.sp_types.specs.AfterTables.{starts_in};

use crate::bodies::count_before;
use crate::declarations::check_frame;
use crate::program_tables::answer_variable;
use crate::rules::answer_rule;
use crate::statement_counts::sum;
use crate::statements::type_statement;
use crate::tables::Tables;
use sp_base::{List, Place};
use sp_tree::{Block, FirstRefusal, NamedAnswer, NamedBlock, Variable, Walk, earlier_refusal};
use std::alloc::Global;

/// The result of a function: Y14.
fn check_answer(t: &Tables, answer: Option<NamedAnswer>, first: FirstRefusal) -> FirstRefusal
    ensures { result ≡ answer_first t.now answer first }
{
    match answer {
        None => first,
        Some(a) => earlier_refusal(first, answer_rule(t, a.at, t.variable_kind(a.variable))),
    }
}

/// A block, whose statements are numbered from `start` on.
fn type_block(b: NamedBlock, alloc: Global, t: &mut Tables, walk: &mut Walk, start: u32) -> Block
    ensures tree { Keeps walk.old walk.new
        (statement_first (with_first_number t.old start) (block_of b).body
        (answer_first (with_first_number t.old start) b.answer walk.old.first))
        (checked.block_of result ≡ checked_block (with_first_number t.old start) (block_of b)) }
    ensures after { walk.new.is_lost ≡ false
        → t.new ≡ statement_after (with_first_number t.old start) (block_of b).body }
{
    t.next = start;
    let NamedBlock {
        name,
        parent,
        formals,
        answer,
        body,
        at,
    } = b;
    walk.first = check_answer(t, answer, walk.first);
    let body = type_statement(body, alloc, t, walk);
    Block {
        name,
        parent,
        formals,
        answer: answer_variable(answer),
        body,
        at,
    }
}

/// The blocks, each with the rules at its frame, its result and its statements: L6, Y14, Y1 to Y12.
pub fn type_blocks(
    blocks: List<NamedBlock>,
    alloc: Global,
    t: &mut Tables,
    walk: &mut Walk,
    numbers: &[u32],
    cells: &[u32],
    variables: &[Variable],
    bodies: &[(Place, u32)],
) -> List<Block>
    ensures tree { Keeps walk.old walk.new
        (blocks_first numbers.now cells.now variables.now 0 t.old (starts_in bodies.now (map block_of blocks))
        (map block_of blocks) walk.old.first)
        (map checked.block_of result
        ≡ checked_blocks t.old (starts_in bodies.now (map block_of blocks)) (map block_of blocks)) }
    ensures after { walk.new.is_lost ≡ false → t.new ≡ blocks_after t.old (starts_in bodies.now (map block_of blocks))
        (map block_of blocks) }
{
    let mut out = Vec::new(alloc);
    let mut n = 0;
    for b in blocks.into_vec() {
        let start = count_before(walk, b.body.at, bodies);
        walk.note(check_frame(b.at, numbers, cells, n, variables));
        let block = type_block(b, alloc, t, walk, start);
        walk.push(&mut out, block);
        n = sum(walk, n, 1);
    }
    List::of(out)
}
