//! The phase of interference as one call: all blocks of a program, and the rules at the headings of functions.

ghost use Rattle.std.specs.Prelude.{◌≡◌, ◌∷◌, [], ◌≤◌, ◌^◌, None, length, Ok};
ghost use Rattle.std.specs.Option.{option_copied};
ghost use Rattle.sp_tree.specs.CheckedOf.{block_of, program_of};
ghost use Rattle.sp_tree.specs.PhaseResults.{phase_result};
ghost use Rattle.sp_varsets.specs.AreSets.{AreSets, HaveEarlierParents};
ghost use Rattle.sp_interfere.specs.Tests.{is_any};
ghost use Rattle.sp_interfere.specs.Rules.{is_reference, is_function, formal_rule, formals_first, heading_first};
ghost use Rattle.sp_interfere.specs.Rules.{blocks_first, rules_first};
ghost use Rattle.sp_interfere.specs.Verdict.{IsVerdict};

use crate::block_context::BlockContext;
use crate::set_tests::is_any;
use crate::statements::statement_first;
use sp_base::{Refusal, Rule};
use sp_tree::{Block, Checked, FirstRefusal, Role, Variable, breaks_if, earlier_refusal};
use sp_varsets::Sets;

fn is_reference(role: Role) -> bool
    ensures { result ≡ is_reference role }
{
    match role {
        Role::Console => false,
        Role::Local => false,
        Role::Value => false,
        Role::Reference => true,
        Role::Index => false,
        Role::Answer => false,
    }
}

fn is_function(answer: Option<u32>) -> bool
    ensures { result ≡ is_function answer }
{
    match answer {
        None => false,
        Some(_) => true,
    }
}

/// I7 at a parameter of a function.
fn formal_rule(i: Option<&Variable>, c: &Checked, s: &Sets) -> FirstRefusal
    ensures { result ≡ formal_rule s.now (program_of c.now) (option_copied i.entry) }
{
    match i {
        None => None,
        Some(i) => breaks_if(Rule::I7, i.at, is_reference(i.role)),
    }
}

/// I7 at the parameters of a function.
fn formals_first(xs: &[u32], c: &Checked, s: &Sets, first: FirstRefusal) -> FirstRefusal
    ensures { result ≡ formals_first s.now (program_of c.now) xs.now first }
{
    let mut first = first;
    for x in xs {
        first = earlier_refusal(first, formal_rule(c.variables.get(*x as usize), c, s));
    }
    first
}

/// I7 and I8 at the heading of a function.
fn heading_first(b: u32, k: &Block, c: &Checked, s: &Sets, first: FirstRefusal) -> FirstRefusal
    ensures { result ≡ heading_first s.now (program_of c.now) (block_of k.now).answer b (block_of k.now) first }
{
    match k.answer {
        None => first,
        Some(_) => {
            let first = formals_first(k.formals.items(), c, s, first);
            earlier_refusal(
                first,
                breaks_if(Rule::I8, k.at, is_any(s.implicit_targets(b))),
            )
        }
    }
}

/// All rules of interference in block `b`.
fn block_first(b: u32, k: &Block, c: &Checked, s: &Sets, first: FirstRefusal) -> FirstRefusal
    ensures { result ≡ blocks_first s.now (program_of c.now) b (block_of k.now ∷ []) first }
{
    let first = heading_first(b, k, c, s, first);
    let block = BlockContext {
        checked: c,
        sets: s,
        is_function: is_function(k.answer),
        number: b,
    };
    statement_first(&k.body, &block, first)
}

fn rules_first(c: &Checked, s: &Sets) -> FirstRefusal
    requires { length c.now.blocks ≤ 2 ^ 32 }
    ensures { result ≡ rules_first s.now (program_of c.now) }
{
    let mut first = None;
    'each: for i in 0..c.blocks.len() {
        first = block_first(i as u32, &c.blocks.items()[i], c, s, first);
    }
    first
}

/// Whether the program breaks no rule of interference (I1 to I9) by these sets, or the first that it breaks so, with
/// its place. Where the sets are those that `sets_of` gives of it, that is the verdict on the program itself. It takes
/// no memory.
///
/// It recurses as deep as the longest chain of operators is long.
pub fn check_sets(checked: &Checked, sets: &Sets) -> Result<(), Refusal>
    requires { length checked.now.blocks ≤ 2 ^ 32 }
    ensures first { result ≡ phase_result (rules_first sets.now (program_of checked.now)) tt }
    ensures verdict { AreSets (program_of checked.now) sets.now → HaveEarlierParents (program_of checked.now)
        → IsVerdict (program_of checked.now) result }
{
    match rules_first(checked, sets) {
        None => Ok(()),
        Some(r) => Err(r),
    }
}
