//! The scopes around a place, the innermost first.

ghost use Rattle.std.specs.Prelude.{◌≡◌, IfOk};
ghost use Rattle.sp_tree.specs.Around.{is_block, is_index, level};
ghost use Rattle.sp_code.specs.TreeCode.{or_none};
ghost use Rattle.sp_generate.specs.Views.{scope_of, scopes};

use crate::numbers::narrow;
use sp_base::Memory;

/// A scope: a block, or the element statement of a forall, by the number of its index.
#[derive(Clone, Copy)]
pub enum Scope {
    Block(u32),
    Index(u32),
}

fn is_block(b: u32, s: Scope) -> bool
    ensures { result ≡ is_block b (scope_of s) }
{
    match s {
        Scope::Block(c) => b == c,
        Scope::Index(_) => false,
    }
}

fn is_index(x: u32, s: Scope) -> bool
    ensures { result ≡ is_index x (scope_of s) }
{
    match s {
        Scope::Block(_) => false,
        Scope::Index(y) => x == y,
    }
}

/// How many levels outward the block is, or 0 where it is not around.
#[tactic(auto, using(crate::proofs::Tables::more_on))]
pub fn block_level(sc: &[Scope], b: u32) -> Result<u32, Memory>
    ensures { IfOk result (λ n. n ≡ or_none (level (is_block b) (scopes sc.now))) }
{
    for (n, s) in sc.iter().enumerate() {
        if is_block(b, *s) {
            return narrow(n);
        }
    }
    Ok(0)
}

/// How many levels outward the forall of this index is, or 0 where it is not around.
#[tactic(auto, using(crate::proofs::Tables::more_on))]
pub fn index_level(sc: &[Scope], x: u32) -> Result<u32, Memory>
    ensures { IfOk result (λ n. n ≡ or_none (level (is_index x) (scopes sc.now))) }
{
    for (n, s) in sc.iter().enumerate() {
        if is_index(x, *s) {
            return narrow(n);
        }
    }
    Ok(0)
}
