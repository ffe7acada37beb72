//! Which variables blocks have, each under the first instruction of its block.

ghost use Rattle.std.specs.Prelude.{◌≡◌, IfOk, OnOk};
ghost use Rattle.sp_verify_effects.specs.Variables.{AddsPairs, AreOwn, IsOwnOf, goes_out, owns};

use crate::have;
use sp_base::Memory;
use sp_code::Code;
use std::collections::BTreeSet;

/// Whether the block with this first instruction has a variable.
pub(crate) fn owns(own: &BTreeSet<(u32, u32)>, entry: u32, x: u32) -> bool
    ensures { result ≡ owns own.now.keys entry x }
{
    let key = (entry, x);
    own.contains(&key)
}

// Puts the variables of a block.
fn put_own(own: &mut BTreeSet<(u32, u32)>, entry: u32, variables: &[u32]) -> Result<(), Memory>
    ensures { OnOk result (AddsPairs own.old.keys own.new.keys (IsOwnOf entry variables.now)) }
{
    for i in 0..variables.len() {
        have!(own.insert((entry, variables[i])));
    }
    Ok(())
}

/// The variables of all blocks.
pub(crate) fn own_of(code: &Code) -> Result<BTreeSet<(u32, u32)>, Memory>
    ensures { IfOk result (λ own. AreOwn code.now own.keys) }
{
    let layouts = code.parts().layouts.items();
    let mut own = BTreeSet::new(code.parts().instrs.alloc());
    for j in 0..layouts.len() {
        let layout = &layouts[j];
        have!(put_own(&mut own, layout.entry, layout.variables.items()));
    }
    Ok(own)
}

/// Whether one of these variables, from a number on, is not of the block with this first instruction.
pub(crate) fn goes_out(own: &BTreeSet<(u32, u32)>, entry: u32, from: u32, xs: &[u32]) -> bool
    ensures { result ≡ goes_out own.now.keys entry from xs.now }
{
    for x in xs {
        if from <= *x && !owns(own, entry, *x) {
            return true;
        }
    }
    false
}
