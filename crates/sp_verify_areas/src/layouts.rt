//! What can be wrong with a layout in itself.

ghost use Rattle.std.specs.Prelude.{◌≡◌, ◌++◌, length};
ghost use Rattle.sp_verify_areas.specs.Alone.{LayoutFails, layout_fails};
ghost use Rattle.sp_verify_areas.specs.LeastPlaces.{IsLeast, Upto};
ghost use Rattle.sp_verify_rules.specs.NameRules.{answer_cells, begins_with, formal_cells, formals_cells, has_sizes};

use crate::least::{least, place_if};
use sp_code::{Formal, Layout};

// The cells of a formal in the frame.
fn formal_cells(formal: Formal) -> u32
    ensures { result ≡ formal_cells formal }
{
    match formal {
        Formal::Value(n) => n,
        Formal::Reference(_) => 1,
    }
}

// Whether sizes begin with those of formals and of an answer.
fn begins_with(formals: &[Formal], answer: bool, sizes: &[u32]) -> bool
    ensures { result ≡ begins_with (formals_cells formals.now ++ answer_cells answer) sizes.now }
{
    for k in 0..formals.len() {
        match sizes.get(k) {
            None => return false,
            Some(n) => {
                if formal_cells(formals[k]) != *n {
                    return false;
                }
            }
        }
    }
    match sizes.get(formals.len()) {
        None => !answer,
        Some(n) => !answer || *n == 1,
    }
}

// Whether a layout has a size for each variable, and begins with its formals and its answer.
fn has_sizes(l: &Layout) -> bool
    ensures { result ≡ has_sizes l.now }
{
    l.sizes.len() == l.variables.len() && begins_with(l.formals.items(), l.answer, l.sizes.items())
}

// Whether something is wrong with a layout in itself. The program has no parent, no formals and no answer.
fn layout_fails(l: &Layout, count: usize) -> bool
    ensures { result ≡ layout_fails count l.now }
{
    count <= l.entry as usize
        || !has_sizes(l)
        || (l.block == 0 && (l.parent.is_some() || l.formals.len() != 0 || l.answer))
}

/// The least entry of a layout with which something is wrong in itself.
pub(crate) fn first_layout(layouts: &[Layout], count: usize) -> Option<u32>
    ensures { IsLeast (Upto (LayoutFails (layout_fails count) layouts.now) (length layouts.now)) result }
{
    let mut first = None;
    for l in layouts {
        first = least(first, place_if(layout_fails(l, count), l.entry));
    }
    first
}
