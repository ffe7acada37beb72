//! The rules of types at declarations: constants, and the cells of types and frames. Those at the bounds of types
//! stand with the types.

ghost use Rattle.std.specs.Prelude.{◌≡◌, ◌∷◌, [], drop, ◌++◌, false};
ghost use Rattle.sp_tree.specs.Carried.{Keeps};
ghost use Rattle.sp_types.specs.TypeRules.{frame_rule, frame_cells};
ghost use Rattle.sp_types.specs.TypeWalk.{place_by, places_of};
ghost use Rattle.sp_types.specs.DeclarationFirsts.{constants_first, cells_first};

use crate::signed_constants::const_value;
use crate::sizes::frame_cells;
use crate::tables::Ordinal;
use sp_base::{List, Place, Rule};
use sp_tree::{
    FirstRefusal, NamedConstant, NamedKind, NamedKindForm, Variable, Walk, breaks_if,
    earlier_refusal,
};
use std::alloc::Global;

/// How many cells a type may have, and a block's frame.
const MOST_CELLS: u32 = 1_048_576;

fn check_constant(walk: &mut Walk, known: &[Option<Ordinal>], c: &NamedConstant)
    ensures { walk.new.is_lost ≡ false → (walk.old.is_lost ≡ false)
        × (walk.new.first ≡ constants_first known.now (c.now ∷ []) walk.old.first) }
{
    match c {
        NamedConstant::Value(c) => {
            let is_wrong = const_value(walk, known, c).is_wrong;
            walk.note(breaks_if(Rule::Y14, c.at, is_wrong));
        }
        NamedConstant::Enumerated { .. } => {}
    }
}

/// The declared constants: Y14.
#[tactic(auto, using(crate::proofs::DeclarationRules::constants_on))]
pub fn check_constants(walk: &mut Walk, known: &[Option<Ordinal>], constants: &[NamedConstant])
    ensures { walk.new.is_lost ≡ false → (walk.old.is_lost ≡ false)
        × (walk.new.first ≡ constants_first known.now constants.now walk.old.first) }
{
    for c in constants {
        check_constant(walk, known, c);
    }
}

/// One place more, where a type is no other name of one.
fn push_place(walk: &mut Walk, out: &mut Vec<Place>, k: &NamedKind)
    ensures { Keeps walk.old walk.new walk.old.first
        (out.new.items ≡ out.old.items ++ place_by k.now.at k.now.form) }
{
    match &k.form {
        NamedKindForm::Alias(_) => {}
        _ => walk.push(out, k.at),
    }
}

/// The places of the names of types; another name of a type makes none.
pub fn places_of(alloc: Global, walk: &mut Walk, kinds: &[NamedKind]) -> List<Place>
    ensures { Keeps walk.old walk.new walk.old.first (result ≡ places_of kinds.now) }
{
    let mut out = Vec::new(alloc);
    for k in kinds {
        push_place(walk, &mut out, k);
    }
    List::of(out)
}

fn check_cells_at(at: Place, cells: &[u32], i: usize, first: FirstRefusal) -> FirstRefusal
    ensures { result ≡ cells_first (at ∷ []) (drop i cells.now) first }
{
    match cells.get(i) {
        None => first,
        Some(cells) => earlier_refusal(first, breaks_if(Rule::L3, at, MOST_CELLS < *cells)),
    }
}

/// The cells of types, whose names stand at these places: L3.
pub fn check_cells(places: &[Place], cells: &[u32], first: FirstRefusal) -> FirstRefusal
    ensures { result ≡ cells_first places.now cells.now first }
{
    let mut first = first;
    for (i, at) in places.iter().enumerate() {
        first = check_cells_at(*at, cells, i, first);
    }
    first
}

/// The cells of a block's frame: L6.
#[tactic(auto, using(crate::proofs::CellCaps::frame_rule_same))]
pub fn check_frame(
    at: Place,
    numbers: &[u32],
    cells: &[u32],
    block: u32,
    variables: &[Variable],
) -> FirstRefusal
    ensures { result ≡ frame_rule at (frame_cells numbers.now cells.now block variables.now) }
{
    let cells = frame_cells(numbers, cells, block, variables);
    breaks_if(Rule::L6, at, MOST_CELLS < cells)
}
