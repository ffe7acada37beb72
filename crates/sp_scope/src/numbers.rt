//! Numbers behind others, and the next number of a variable. One that would not fit 32 bits loses the walk, as want of
//! memory does.

ghost use Rattle.std.specs.Prelude.{◌≡◌, ◌+◌};
ghost use Rattle.sp_tree.specs.Carried.{Keeps};
ghost use Rattle.sp_tree.specs.Scopes.{next_variable};

use sp_tree::{Counts, Walk};

/// A length as a number.
pub fn count_of(walk: &mut Walk, n: usize) -> u32
    ensures { Keeps walk.old walk.new walk.old.first (result ≡ n) }
{
    if n > 4294967295 {
        walk.is_lost = true;
        return 0;
    }
    n as u32
}

/// A number behind others.
pub fn behind(walk: &mut Walk, n: u32, m: u32) -> u32
    ensures { Keeps walk.old walk.new walk.old.first (result ≡ n + m) }
{
    match n.checked_add(m) {
        Some(k) => k,
        None => {
            walk.is_lost = true;
            0
        }
    }
}

/// The number of the next variable.
pub fn next_variable(walk: &mut Walk, counts: Counts) -> u32
    ensures { Keeps walk.old walk.new walk.old.first (result ≡ next_variable counts) }
{
    let n = behind(walk, counts.variables, counts.results);
    behind(walk, n, 2)
}
