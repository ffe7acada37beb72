//! The laws of ordered runs, whose contracts are all that the functions have.

ghost use Rattle.std.specs.Prelude.{◌≡◌, ℕ, ◌↔◌, ◌⊎◌, List, true};
ghost use Rattle.sp_journal.specs.Names.{Name, Occurrence};
ghost use Rattle.sp_journal.specs.Past.{AreOrdered};
ghost use Rattle.sp_tree.specs.Interference.{IsFreeOfInterference};
ghost use Rattle.sp_meaning.specs.LocalWork.{RunInput};
ghost use Rattle.sp_meaning.specs.Runs.{StateOf, start, system_of, Lawful};
ghost use Rattle.sp_meaning.specs.Along.{IsAlong, IsClean};
ghost use Rattle.sp_meaning.specs.Ends.{IsDone, IsIdle};
ghost use Rattle.sp_meaning.specs.Schedules.{EndsAlike};
ghost use Rattle.sp_race.specs.OfferOrder.{AreKnown};
ghost use Rattle.sp_race.specs.OrderTest.{order_test};

/// The theorem on ordered runs. A program keeps the rules of interference; a run of it, of n steps, along a journal
/// without a fault has come to t, which is done or in a deadlock; and the order condition holds of the journal. Then
/// every lawful schedule of the same program, input and limits has at most n names, meets no fault, and is the front of
/// one with n names that leads to t. So the output and the end are those of the run in every schedule.
pub fn ordered_runs_end_alike()
    ensures { (g : RunInput) (turn : ℕ) (es : List Occurrence) (n : ℕ) (t : StateOf g)
        → IsFreeOfInterference g.program → IsAlong g turn es n t → IsClean es → (IsDone g t ⊎ IsIdle g t)
        → AreOrdered es
        → (qs : List Name) (u : StateOf g) → Lawful g (start g) qs u → EndsAlike (system_of g) (start g) n t qs u }
{}

/// The order condition asks that a later offer's process knows the completion of each earlier offer of its way on its
/// channel. That is the same as to know the earlier offer itself: the two come to be known together.
pub fn order_conditions_agree()
    ensures { (es : List Occurrence) → AreOrdered es ↔ AreKnown es }
{}

/// The order condition can be computed.
pub fn order_is_decided()
    ensures { (es : List Occurrence) → (order_test es ≡ true) ↔ AreOrdered es }
{}
