//! The phase of types as one call: tables, blocks, and the checked tree of the whole.

ghost use Rattle.std.specs.Prelude.{◌≡◌, ◌++◌, ◌∷◌, [], drop, false};
ghost use Rattle.sp_tree.specs.Carried.{Keeps};
ghost use Rattle.sp_tree.specs.PhaseResults.{AnswersAs, FirstRefusal, phase_result};
ghost use Rattle.sp_tree.specs.NamedOf as plain;
ghost use Rattle.sp_tree.specs.CheckedOf as checked;
ghost use Rattle.sp_tree.specs.PlainChecked as c;
ghost use Rattle.sp_types.specs.CheckedTree.{checked_variables};
ghost use Rattle.sp_types.specs.TypeFirst.{types_outcome};

use crate::blocks::type_blocks;
use crate::bodies::bodies;
use crate::constants::constants_of;
use crate::declarations::{check_cells, check_constants, places_of};
use crate::kinds::kinds_of;
use crate::numbers::numbers_of;
use crate::program_tables::{kinds_in, tables_of};
use crate::sizes::sizes_of;
use crate::statement_counts::sum;
use crate::values::or_zero;
use sp_base::{Halt, List};
use sp_tree::{Checked, Named, Variable, Walk};
use std::alloc::Global;

/// One variable more behind others, with its type.
fn push_variable(
    walk: &mut Walk,
    out: &mut Vec<Variable>,
    kinds: &[Option<u32>],
    i: u32,
    x: Variable,
)
    ensures { Keeps walk.old walk.new walk.old.first
        (out.new.items ≡ out.old.items ++ checked_variables (drop i kinds.now) (x ∷ [])) }
{
    match kinds.get(i as usize) {
        None => {}
        Some(k) => {
            let Variable {
                name,
                kind: _,
                block,
                role,
                at,
            } = x;
            let kind = or_zero(*k);
            walk.push(
                out,
                Variable {
                    name,
                    kind,
                    block,
                    role,
                    at,
                },
            );
        }
    }
}

/// The variables with their types.
fn typed_variables(
    alloc: Global,
    walk: &mut Walk,
    kinds: &[Option<u32>],
    variables: List<Variable>,
) -> List<Variable>
    ensures { Keeps walk.old walk.new walk.old.first (result ≡ checked_variables kinds.now variables) }
{
    let mut out = Vec::new(alloc);
    let mut i = 0;
    for x in variables.into_vec() {
        push_variable(walk, &mut out, kinds, i, x);
        i = sum(walk, i, 1);
    }
    List::of(out)
}

/// What the phase answers: want of memory, the first broken rule, or the tree.
fn outcome(walk: Walk, tree: Checked) -> Result<Checked, Halt>
    ensures { (first : FirstRefusal) (program : c.Program)
        → (walk.is_lost ≡ false → (walk.first ≡ first) × (checked.program_of tree ≡ program))
        → AnswersAs checked.program_of result (phase_result first program) }
{
    if walk.is_lost {
        return Err(Halt::Memory);
    }
    match walk.first {
        Some(broken) => Err(Halt::Refused(broken)),
        None => Ok(tree),
    }
}

/// The checked tree, or the first rule among Y1 to Y14, L3 and L6 that is broken: of the earliest place, and of several
/// at one place the one that stands first in the table of rules. The tree with numbers for names is consumed.
pub fn type_check(alloc: Global, named: Named) -> Result<Checked, Halt>
    ensures { AnswersAs checked.program_of result (types_outcome (plain.program_of named)) }
{
    let Named {
        constants,
        kinds,
        variables,
        blocks,
    } = named;
    let mut walk = Walk {
        first: None,
        is_lost: false,
    };
    let numbers = numbers_of(alloc, &mut walk, kinds.items());
    let known = constants_of(alloc, &mut walk, numbers.items(), constants.items());
    check_constants(&mut walk, known.items(), constants.items());
    let places = places_of(alloc, &mut walk, kinds.items());
    let kinds = kinds_of(alloc, &mut walk, numbers.items(), known.items(), kinds);
    let cells = sizes_of(alloc, &mut walk, kinds.items());
    let first = check_cells(places.items(), cells.items(), walk.first);
    walk.first = first;
    let mut t = tables_of(
        alloc,
        &mut walk,
        numbers.items(),
        known,
        kinds,
        variables.items(),
        blocks.items(),
    );
    let bodies = bodies(alloc, &mut walk, blocks.items());
    let blocks = type_blocks(
        blocks,
        alloc,
        &mut t,
        &mut walk,
        numbers.items(),
        cells.items(),
        variables.items(),
        bodies.items(),
    );
    let variables = typed_variables(alloc, &mut walk, t.variables.items(), variables);
    let kinds = kinds_in(alloc, &mut walk, t.kinds);
    let tree = Checked {
        kinds,
        variables,
        blocks,
    };
    outcome(walk, tree)
}
