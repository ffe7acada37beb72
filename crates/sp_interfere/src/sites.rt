//! The rules at each place where one could be broken.

ghost use Rattle.std.specs.Prelude.{◌≡◌, ◌∷◌, [], Some, map, length, slice_get};
ghost use Rattle.std.specs.Option.{option_copied, option_map};
ghost use Rattle.sp_tree.specs.CheckedOf.{actuals, actual_of, block_of, statement_of, statements, program_of};
ghost use Rattle.sp_tree.specs.Sites.{CallsAt, LoopsAt, SpreadsAt, SplitsAt, StopsAt};
ghost use Rattle.sp_interfere.specs.Rules.{is_among, parent_of, stands_in, inside_rule, called_first, passed_first};
ghost use Rattle.sp_interfere.specs.Rules.{repeats_first, references};
ghost use Rattle.sp_interfere.specs.BlockRules.{rules_in};

use crate::block_context::BlockContext;
use crate::parts::parts_first;
use crate::set_tests::{has_declared, has_implicit, is_any};
use sp_base::{List, Place, Rule};
use sp_tree::{Actual, Block, Checked, FirstRefusal, Stmt, breaks_if, earlier_refusal};
use sp_varsets::Sets;

/// The block around a block.
fn parent_of(c: &Checked, b: u32) -> Option<u32>
    ensures { result ≡ parent_of (slice_get (program_of c.now).blocks b) }
{
    match c.blocks.get(b as usize) {
        None => None,
        Some(k) => k.parent,
    }
}

/// Whether block `d` is block `f` or stands in it.
#[tactic(auto, using(crate::proofs::BlockLevels::standing, crate::proofs::BlockLevels::standing_nowhere))]
fn stands_in(c: &Checked, d: u32, f: u32) -> bool
    ensures { result ≡ stands_in (program_of c.now).blocks (length (program_of c.now).blocks) (Some d) f }
{
    let mut here = Some(d);
    'up: for _ in 0..c.blocks.len() {
        match here {
            None => return false,
            Some(b) => {
                if b == f {
                    return true;
                }
                here = parent_of(c, b);
            }
        }
    }
    false
}

/// I6 at the heading of block `f`, which is called in block `d`.
fn inside_rule(d: u32, f: u32, at: Place, c: &Checked, s: &Sets) -> FirstRefusal
    ensures { result ≡ inside_rule s.now (program_of c.now) d f at }
{
    breaks_if(Rule::I6, at, stands_in(c, d, f) && has_declared(s, f))
}

/// Whether the variable is a variable parameter among these.
fn is_passed(y: u32, earlier: &[Actual]) -> bool
    ensures { result ≡ is_among y (references (actuals (map actual_of earlier.now))) }
{
    for a in earlier {
        match a {
            Actual::Value(_) => {}
            Actual::Reference(v) => {
                if y == v.variable {
                    return true;
                }
            }
        }
    }
    false
}

/// I4 at a parameter of a call, behind earlier ones.
fn repeat_first(earlier: &[Actual], a: &Actual, s: &Sets, first: FirstRefusal) -> FirstRefusal
    ensures { result ≡ repeats_first s.now (references (actuals (map actual_of earlier.now)))
        (actuals (map actual_of (a.now ∷ []))) first }
{
    match a {
        Actual::Value(_) => first,
        Actual::Reference(v) => {
            earlier_refusal(
                first,
                breaks_if(Rule::I4, v.at, is_passed(v.variable, earlier)),
            )
        }
    }
}

/// I4 at the parameters of a call.
fn repeats_first(args: &[Actual], s: &Sets, first: FirstRefusal) -> FirstRefusal
    ensures { result ≡ repeats_first s.now [] (actuals (map actual_of args.now)) first }
{
    let mut first = first;
    'each: for i in 0..args.len() {
        first = repeat_first(&args[..i], &args[i], s, first);
    }
    first
}

/// I5 at the parameters of a call of block `f`.
fn passed_first(f: u32, args: &[Actual], s: &Sets, first: FirstRefusal) -> FirstRefusal
    ensures { result ≡ passed_first s.now f (actuals (map actual_of args.now)) first }
{
    let mut first = first;
    for a in args {
        match a {
            Actual::Value(_) => {}
            Actual::Reference(v) => {
                let broken = has_implicit(s, f, v.variable);
                first = earlier_refusal(first, breaks_if(Rule::I5, v.at, broken));
            }
        }
    }
    first
}

/// I5, I6 and I9 at a call in a block.
fn called_first(
    k: Option<&Block>,
    f: u32,
    at: Place,
    args: &[Actual],
    block: &BlockContext,
    first: FirstRefusal,
) -> FirstRefusal
    ensures { result ≡ called_first block.now.sets.now (program_of block.now.checked.now)
        block.now.is_function block.now.number f at (actuals (map actual_of args.now))
        (option_map block_of (option_copied k.entry)) first }
{
    match k {
        None => first,
        Some(k) => {
            let first = passed_first(f, args, block.sets, first);
            let inside = inside_rule(block.number, f, k.at, block.checked, block.sets);
            let first = earlier_refusal(first, inside);
            let stops = block.is_function && block.sets.stops(f);
            earlier_refusal(first, breaks_if(Rule::I9, at, stops))
        }
    }
}

/// A call in a block.
#[tactic(auto, using(crate::proofs::BlockLevels::block_there))]
pub fn call_first(
    f: u32,
    at: Place,
    args: &List<Actual>,
    block: &BlockContext,
    first: FirstRefusal,
) -> FirstRefusal
    ensures { result ≡ rules_in block.now
        (CallsAt f at (actuals (map actual_of args.now))) first }
{
    let first = repeats_first(args.items(), block.sets, first);
    let k = block.checked.blocks.get(f as usize);
    called_first(k, f, at, args.items(), block, first)
}

/// A parallel statement.
pub fn split_first(parts: &List<Stmt>, block: &BlockContext, first: FirstRefusal) -> FirstRefusal
    ensures { result ≡ rules_in block.now
        (SplitsAt (statements (map statement_of parts.now))) first }
{
    parts_first(parts.items(), block.sets, first)
}

/// A forall statement with this element statement.
pub fn spread_first(
    at: Place,
    x: u32,
    t: &Stmt,
    block: &BlockContext,
    first: FirstRefusal,
) -> FirstRefusal
    ensures { result ≡ rules_in block.now (SpreadsAt at x (statement_of t.now)) first }
{
    earlier_refusal(
        first,
        breaks_if(Rule::I2, at, is_any(block.sets.targets(t.number))),
    )
}

/// A `for` statement with this variable and this body.
pub fn loop_first(
    x: u32,
    at: Place,
    t: &Stmt,
    block: &BlockContext,
    first: FirstRefusal,
) -> FirstRefusal
    ensures { result ≡ rules_in block.now (LoopsAt x at (statement_of t.now)) first }
{
    earlier_refusal(
        first,
        breaks_if(Rule::I3, at, block.sets.targets(t.number).contains(x)),
    )
}

/// A statement that a function may not have.
pub fn stop_first(at: Place, block: &BlockContext, first: FirstRefusal) -> FirstRefusal
    ensures { result ≡ rules_in block.now (StopsAt at) first }
{
    earlier_refusal(first, breaks_if(Rule::I9, at, block.is_function))
}
