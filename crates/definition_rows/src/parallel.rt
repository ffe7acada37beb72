//! What is said of `parallel x := 1 | x := 2`, which breaks the rules of interference: it is not disjoint, and no end
//! is that of all its schedules.

ghost use Rattle.sp_meaning.specs.Runs.{StateOf, IsDisjointRun};
ghost use Rattle.sp_race.specs.Runs.{AllEndAlike};
ghost use Rattle.definition_rows.specs.Programs.{both_set};

/// Two processes that write one variable are seen.
pub fn writes_to_one_variable_are_seen()
    ensures { IsDisjointRun both_set → ⊥ }
{}

/// A run has six steps, and in one order of the two assignments x is 1 at its end, in the other 2.
pub fn two_ends_are_seen()
    ensures { (t : StateOf both_set) → AllEndAlike both_set 6 t → ⊥ }
{}
