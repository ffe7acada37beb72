//! The walk through headings of procedures and functions.

ghost use Rattle.std.specs.Prelude.{◌≡◌, ◌++◌};
ghost use Rattle.sp_tree.specs.Scopes.{inner_env};
ghost use Rattle.sp_tree.specs.NameWalk.{block_meaning, title_local};
ghost use Rattle.sp_tree.specs.NamedTree.{answer_named, answer_of};
ghost use Rattle.sp_tree.specs.NamedOf as named;
ghost use Rattle.sp_scope.specs.Walks.{seen_block, heading_named, declared_by};
ghost use Rattle.sp_tree.specs.Carried.{Keeps};
ghost use Rattle.sp_scope.specs.Flags.{flags, all_flags};
ghost use Rattle.sp_scope.specs.Firsts.{answer_first, title_first};

use crate::block_parts::{BlockParts, Heading};
use crate::blocks::block_in_front;
use crate::declarations::{check_declares, check_kind, kind_number};
use crate::numbers::{behind, next_variable};
use crate::scopes::Scopes;
use crate::variables::{name_formals, numbers};
use sp_base::List;
use sp_tree::{
    FirstRefusal, Meaning, Name, Named, NamedAnswer, Role, Sort, SynFormal, Variable, Walk,
    earlier_refusal,
};
use std::alloc::Global;

fn check_answer(scopes: &Scopes, answer: &Option<Name>, first: FirstRefusal) -> FirstRefusal
    ensures { result ≡ answer_first scopes.now answer.now first }
{
    match answer {
        None => first,
        Some(t) => earlier_refusal(first, check_kind(scopes, t)),
    }
}

fn name_answer(
    alloc: Global,
    scopes: &Scopes,
    walk: &mut Walk,
    block: u32,
    x: &Name,
    answer: &Option<Name>,
) -> List<Variable>
    ensures { Keeps walk.old walk.new walk.old.first (result ≡ answer_named scopes.now block x.now answer.now) }
{
    match answer {
        None => List::new(alloc),
        Some(t) => {
            let name = walk.text(alloc, &x.text);
            let kind = kind_number(scopes.find(&t.text));
            let mut out = Vec::new(alloc);
            walk.push(
                &mut out,
                Variable {
                    name,
                    kind,
                    block,
                    role: Role::Answer,
                    at: x.at,
                },
            );
            List::of(out)
        }
    }
}

/// What a heading gives for the table, and the rules that are broken there: N1 to N3, L4.
pub fn name_heading(
    alloc: Global,
    scopes: &Scopes,
    walk: &mut Walk,
    x: &Name,
    fs: &[SynFormal],
    answer: &Option<Name>,
) -> Heading
    ensures { Keeps walk.old walk.new (title_first scopes.now x.now fs.now answer.now walk.old.first)
        (result ≡ heading_named scopes.now x.now fs.now answer.now) }
{
    walk.note(check_declares(scopes, x, Sort::Block));
    let block = behind(walk, scopes.counts().blocks, 1);
    let formals = name_formals(alloc, scopes, walk, fs, block);
    walk.first = check_answer(scopes, answer, walk.first);
    let results = name_answer(alloc, scopes, walk, block, x, answer);
    let number = next_variable(walk, scopes.counts());
    let numbers = numbers(alloc, walk, number, formals.items());
    Heading {
        block,
        parent: scopes.block(),
        formals,
        numbers,
        results,
    }
}

fn push_flags(walk: &mut Walk, out: &mut Vec<bool>, xs: &[Name], by_reference: bool)
    ensures { Keeps walk.old walk.new walk.old.first (out.new.items ≡ out.old.items ++ flags by_reference xs.now) }
{
    for _x in xs {
        walk.push(out, by_reference);
    }
}

/// For each parameter, whether it is a variable parameter.
fn all_flags(alloc: Global, walk: &mut Walk, fs: &[SynFormal]) -> List<bool>
    ensures { Keeps walk.old walk.new walk.old.first (result ≡ all_flags fs.now) }
{
    let mut out = Vec::new(alloc);
    for f in fs {
        push_flags(walk, &mut out, f.names.items(), f.by_reference);
    }
    List::of(out)
}

#[tactic(auto, using(crate::proofs::ScopeTables::flags_are))]
fn block_meaning(
    alloc: Global,
    scopes: &Scopes,
    walk: &mut Walk,
    fs: &[SynFormal],
    answer: &Option<Name>,
) -> Meaning
    ensures { Keeps walk.old walk.new walk.old.first (result ≡ block_meaning scopes.now.local fs.now answer.now) }
{
    let block = behind(walk, scopes.counts().blocks, 1);
    let references = all_flags(alloc, walk, fs);
    match answer {
        None => Meaning::Procedure { block, references },
        Some(_) => Meaning::Function { block, references },
    }
}

/// Declares the name of a procedure or function in the block around it.
pub fn declare_title(
    alloc: Global,
    scopes: &mut Scopes,
    walk: &mut Walk,
    x: &Name,
    fs: &[SynFormal],
    answer: &Option<Name>,
)
    ensures { Keeps walk.old walk.new walk.old.first (scopes.new ≡ inner_env scopes.old.around
        (title_local scopes.old.local x.now fs.now answer.now)) }
{
    let m = block_meaning(alloc, scopes, walk, fs, answer);
    scopes.declare(alloc, walk, &x.text, Sort::Block, m);
}

fn answer_of(variable: u32, answer: &Option<Name>) -> Option<NamedAnswer>
    ensures { result ≡ answer_of variable answer.now }
{
    match answer {
        None => None,
        Some(t) => Some(NamedAnswer { variable, at: t.at }),
    }
}

/// What a procedure or function declares, by its heading and its block.
pub fn procedure_part(
    alloc: Global,
    walk: &mut Walk,
    h: Heading,
    x: &Name,
    answer: &Option<Name>,
    b: BlockParts,
) -> Named
    ensures { Keeps walk.old walk.new walk.old.first
        (named.program_of result ≡ declared_by h x.now answer.now (seen_block b)) }
{
    let BlockParts {
        answer: variable,
        body,
        indices,
        parts,
    } = b;
    let declared = walk.join(alloc, parts.variables, indices);
    let behind = walk.join(alloc, h.results, declared);
    let variables = walk.join(alloc, h.formals, behind);
    let answer = answer_of(variable, answer);
    let parent = Some(h.parent);
    let blocks = block_in_front(
        alloc,
        walk,
        x,
        parent,
        h.numbers,
        answer,
        body,
        parts.blocks,
    );
    Named {
        constants: parts.constants,
        kinds: parts.kinds,
        variables,
        blocks,
    }
}
