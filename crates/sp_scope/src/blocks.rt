//! The walk through blocks: what their parts declare, and their statement parts.

ghost use Rattle.std.specs.Prelude.{◌≡◌, ◌∷◌, false, map};
ghost use Rattle.sp_tree.specs.Scopes.{inner_env};
ghost use Rattle.sp_tree.specs.NameWalk.{part_local, parts_local};
ghost use Rattle.sp_tree.specs.NamedTree.{parts_named, part_named, inside_named, nothing_named, appended_tables};
ghost use Rattle.sp_tree.specs.NamedOf as named;
ghost use Rattle.sp_tree.specs.PlainSyntax.{Proc};
ghost use Rattle.sp_tree.specs.SyntaxOf.{block_of, part_of, parts};
ghost use Rattle.sp_scope.specs.Walks.{seen_block};
ghost use Rattle.sp_tree.specs.Carried.{Keeps};
ghost use Rattle.sp_scope.specs.Firsts.{parts_first, part_first, block_first, block_local};
ghost use Rattle.sp_scope.specs.Firsts.{opened_first, opened_local, opened_named};

use crate::block_parts::BlockParts;
use crate::headings::{declare_title, name_heading, procedure_part};
use crate::indices::indices;
use crate::parts::{name_constant, name_type, name_variables};
use crate::scopes::Scopes;
use crate::statements::name_statement;
use crate::variables::declare_formals;
use sp_base::{Boxed, List};
use sp_tree::{
    Name, Named, NamedAnswer, NamedBlock, NamedStmt, SynBlock, SynFormal, SynPart, Walk,
};
use std::alloc::Global;

fn nothing(alloc: Global) -> Named
    ensures { named.program_of result ≡ nothing_named }
{
    Named {
        constants: List::new(alloc),
        kinds: List::new(alloc),
        variables: List::new(alloc),
        blocks: List::new(alloc),
    }
}

/// What is declared in one part behind what is declared in another.
pub fn beside(alloc: Global, walk: &mut Walk, a: Named, b: Named) -> Named
    ensures { Keeps walk.old walk.new walk.old.first
        (named.program_of result ≡ appended_tables (named.program_of a) (named.program_of b)) }
{
    Named {
        constants: walk.join(alloc, a.constants, b.constants),
        kinds: walk.join(alloc, a.kinds, b.kinds),
        variables: walk.join(alloc, a.variables, b.variables),
        blocks: walk.join(alloc, a.blocks, b.blocks),
    }
}

/// A block of this name in front of others.
pub fn block_in_front(
    alloc: Global,
    walk: &mut Walk,
    x: &Name,
    parent: Option<u32>,
    formals: List<u32>,
    answer: Option<NamedAnswer>,
    body: NamedStmt,
    blocks: List<NamedBlock>,
) -> List<NamedBlock>
    ensures { Keeps walk.old walk.new walk.old.first
        (result ≡ record {
          name = x.now.text;
          parent = parent;
          formals = formals;
          answer = answer;
          body = body;
          at = x.now.at;
        } ∷ blocks) }
{
    let name = walk.text(alloc, &x.text);
    let mut out = Vec::new(alloc);
    walk.push(
        &mut out,
        NamedBlock {
            name,
            parent,
            formals,
            answer,
            body,
            at: x.at,
        },
    );
    walk.join(alloc, List::of(out), blocks)
}

/// A block's parts and statement part.
#[cycle(block)]
pub fn name_block(b: SynBlock, alloc: Global, scopes: &mut Scopes, walk: &mut Walk) -> BlockParts
    ensures found { Keeps walk.old walk.new
        (block_first scopes.old.around scopes.old.local (block_of b).parts (block_of b).body walk.old.first)
        (seen_block result ≡ inside_named scopes.old.around scopes.old.local (block_of b).parts (block_of b).body) }
    ensures after { walk.new.is_lost ≡ false → scopes.new ≡ inner_env scopes.old.around
        (block_local scopes.old.local (block_of b).parts (block_of b).body) }
{
    let SynBlock { parts, body } = b;
    let answer = scopes.answer();
    let indices = indices(alloc, walk, &body, scopes.block());
    let parts = name_parts(parts, alloc, scopes, walk);
    let body = name_statement(alloc, scopes, walk, body);
    BlockParts {
        answer,
        body,
        indices,
        parts,
    }
}

#[cycle(block)]
#[tactic(auto, using(crate::proofs::Tables::beside_beside, crate::proofs::Tables::beside_nothing))]
fn name_parts(ps: List<SynPart>, alloc: Global, scopes: &mut Scopes, walk: &mut Walk) -> Named
    ensures found { Keeps walk.old walk.new
        (parts_first scopes.old.around scopes.old.local (parts (map part_of ps)) walk.old.first)
        (named.program_of result ≡ parts_named scopes.old.around scopes.old.local (parts (map part_of ps))) }
    ensures after { walk.new.is_lost ≡ false → scopes.new ≡ inner_env scopes.old.around
        (parts_local scopes.old.local (parts (map part_of ps))) }
{
    let mut out = nothing(alloc);
    for p in ps.into_vec() {
        let part = name_part(p, alloc, scopes, walk);
        out = beside(alloc, walk, out, part);
    }
    out
}

#[cycle(block)]
fn name_part(p: SynPart, alloc: Global, scopes: &mut Scopes, walk: &mut Walk) -> Named
    ensures found { Keeps walk.old walk.new (part_first scopes.old.around scopes.old.local (part_of p) walk.old.first)
        (named.program_of result ≡ part_named scopes.old.around scopes.old.local (part_of p)) }
    ensures after { walk.new.is_lost ≡ false → scopes.new ≡ inner_env scopes.old.around
        (part_local scopes.old.local (part_of p)) }
{
    match p {
        SynPart::Const(x, c) => name_constant(alloc, scopes, walk, &x, &c),
        SynPart::Kind(x, k) => name_type(alloc, scopes, walk, &x, &k),
        SynPart::Var(xs, t) => name_variables(alloc, scopes, walk, xs.items(), &t),
        SynPart::Proc {
            name,
            formals,
            answer,
            block,
        } => name_procedure(block, alloc, scopes, walk, &name, formals.items(), &answer),
    }
}

#[cycle(block)]
fn name_procedure(
    b: Boxed<SynBlock>,
    alloc: Global,
    scopes: &mut Scopes,
    walk: &mut Walk,
    x: &Name,
    fs: &[SynFormal],
    answer: &Option<Name>,
) -> Named
    ensures found { Keeps walk.old walk.new
        (part_first scopes.old.around scopes.old.local
        (Proc x.now fs.now answer.now (block_of b).parts (block_of b).body) walk.old.first)
        (named.program_of result ≡ part_named scopes.old.around scopes.old.local
        (Proc x.now fs.now answer.now (block_of b).parts (block_of b).body)) }
    ensures after { walk.new.is_lost ≡ false → scopes.new ≡ inner_env scopes.old.around
        (part_local scopes.old.local (Proc x.now fs.now answer.now (block_of b).parts (block_of b).body)) }
{
    let heading = name_heading(alloc, scopes, walk, x, fs, answer);
    declare_title(alloc, scopes, walk, x, fs, answer);
    let inner = name_opened(b, alloc, scopes, walk, heading.block, fs, answer);
    procedure_part(alloc, walk, heading, x, answer, inner)
}

/// The block of a procedure with its parameters, in a scope of its own, from the block around it.
#[cycle(block)]
fn name_opened(
    b: Boxed<SynBlock>,
    alloc: Global,
    scopes: &mut Scopes,
    walk: &mut Walk,
    block: u32,
    fs: &[SynFormal],
    answer: &Option<Name>,
) -> BlockParts
    ensures found { Keeps walk.old walk.new
        (opened_first block scopes.old.around scopes.old.local fs.now answer.now (block_of b).parts (block_of b).body
        walk.old.first)
        (seen_block result ≡ opened_named block scopes.old.around scopes.old.local fs.now answer.now
        (block_of b).parts (block_of b).body) }
    ensures after { walk.new.is_lost ≡ false → scopes.new ≡ inner_env scopes.old.around
        (opened_local block scopes.old.local fs.now answer.now (block_of b).parts (block_of b).body) }
{
    let outer = scopes.block();
    let outer_answer = scopes.answer();
    scopes.open(alloc, walk, block, 0);
    declare_formals(alloc, scopes, walk, fs);
    scopes.number_answer(walk, answer);
    let inner = name_block(b.into_inner(), alloc, scopes, walk);
    scopes.leave(outer, outer_answer);
    inner
}
