//! What follows from the definitions of the meaning, for every program, input and limits. These functions do nothing:
//! each one's contract is a law, and whoever rests on the law calls it or cites it.

ghost use Rattle.std.specs.Prelude.{◌≡◌, ◌≢◌, ℕ, ◌++◌, length, Some};
ghost use Rattle.std.specs.Prelude.{List};
ghost use Rattle.sp_journal.specs.Names.{Name, Occurrence};
ghost use Rattle.sp_meaning.specs.LocalWork.{RunInput, Loc};
ghost use Rattle.sp_meaning.specs.SuperPascal.{superpascal};
ghost use Rattle.sp_meaning.specs.Steps.{Laws, Sound};
ghost use Rattle.sp_tree.specs.Interference.{IsFreeOfInterference};
ghost use Rattle.sp_meaning.specs.Disjoint.{AreParallel};
ghost use Rattle.sp_meaning.specs.Runs.{StateOf, start, next_state, Lawful, IsDisjointRun};
ghost use Rattle.sp_meaning.specs.Along.{IsAlong, IsClean};
ghost use Rattle.sp_meaning.specs.Ends.{IsDone, IsIdle};
ghost use Rattle.sp_meaning.specs.Fronts.{IsLongestFront, longest_front};
ghost use Rattle.sp_meaning.specs.Laws.{IsReached, IsBounded, HasNotFallen, IsUnwritten, IsAlone, OwnIs};

/// What a step evaluates comes to its end: between two ticks only a bounded stretch of the program is run.
pub fn steps_end()
    ensures { (g : RunInput) (s : StateOf g) → IsReached g s → (q : Name) → IsBounded g s q }
{}

/// The front of a lawful schedule is lawful.
pub fn fronts_are_lawful()
    ensures { (g : RunInput) (ps qs : List Name) (t : StateOf g) → Lawful g (start g) (ps ++ qs) t → (m : StateOf g)
        × Lawful g (start g) ps m × Lawful g m qs t }
{}

/// Each schedule has exactly one longest lawful front: `longest_front` gives its length and its state.
pub fn longest_fronts_are_exact()
    ensures is_one { (g : RunInput) (qs : List Name) → IsLongestFront g (start g) qs (longest_front g qs).0
        (longest_front g qs).1 }
    ensures is_only { (g : RunInput) (qs : List Name) (n : ℕ) (t : StateOf g) → IsLongestFront g (start g) qs n t
        → longest_front g qs ≡ (n, t) }
{}

/// Along a journal without a fault the names of the steps are a lawful schedule, as long as the run has steps.
pub fn journals_have_schedules()
    ensures { (g : RunInput) (turn : ℕ) (es : List Occurrence) (n : ℕ) (t : StateOf g) → IsAlong g turn es n t
        → IsClean es
        → (qs : List Name) × (length qs ≡ n) × Lawful g (start g) qs t }
{}

/// A process that has not ended never has fewer ticks than before.
pub fn ticks_never_fall()
    ensures { (g : RunInput) (s : StateOf g) → IsReached g s → (p : Name) (t : StateOf g) → next_state g s p ≡ Some t
        → (q : Name) → HasNotFallen g s t q }
{}

/// A step changes no location that nobody writes in it.
pub fn unwritten_stays()
    ensures { (g : RunInput) (s : StateOf g) (p : Name) (t : StateOf g) → next_state g s p ≡ Some t → (l : Loc)
        → IsUnwritten g s p l → t.store l ≡ s.store l }
{}

/// A step gives the same in two stores that agree on what it reads and writes.
pub fn steps_are_local()
    ensures { (g : RunInput) → Laws (superpascal g) }
{}

/// A process's own part has its name and its count of forks.
pub fn own_parts_agree()
    ensures { (g : RunInput) (s : StateOf g) → IsReached g s → (q : Name) → OwnIs q (s.forks q) (s.condition q) }
{}

/// A pending offer's process waits on its channel, the children of a fork that was not made yet are absent, and the
/// parent of a child that lives joins it.
pub fn states_are_sound()
    ensures { (g : RunInput) (s : StateOf g) → IsReached g s → Sound s }
{}

/// Two processes that run or wait for a message are parallel.
pub fn active_are_parallel()
    ensures { (g : RunInput) (s : StateOf g) → IsReached g s → (a b : Name) → IsAlone g s a → IsAlone g s b → a ≢ b
        → AreParallel a b }
{}

/// Where the root has ended, no process is running.
pub fn done_is_idle()
    ensures { (g : RunInput) (s : StateOf g) → IsReached g s → IsDone g s → IsIdle g s }
{}

/// A program that keeps the rules of interference is disjoint: on no input, with no limits and in no lawful schedule
/// does a process write what a parallel one reads or writes. The rules are those of the SuperPascal papers on
/// interference control (I1, I2, I4 and I5 here); of names and types it needs where parents, consoles and answers are.
pub fn rule_keepers_are_disjoint()
    ensures { (g : RunInput) → IsFreeOfInterference g.program → IsDisjointRun g }
{}
