//! The laws of clocks and verdicts, and what a verdict promises of a run along a journal. The functions do nothing:
//! each one's contract is a law.

ghost use Rattle.std.specs.Prelude.{◌≡◌, ℕ, List, nat_lt};
ghost use Rattle.sp_journal.specs.Names.{Name, Occurrence};
ghost use Rattle.sp_journal.specs.Past.{knowledge_of};
ghost use Rattle.sp_journal.specs.declared.outcome.End.{End};
ghost use Rattle.sp_journal.specs.declared.outcome.Verdict.{Verdict};
ghost use Rattle.sp_tree.specs.Interference.{IsFreeOfInterference};
ghost use Rattle.sp_meaning.specs.LocalWork.{RunInput};
ghost use Rattle.sp_meaning.specs.Runs.{StateOf};
ghost use Rattle.sp_meaning.specs.Along.{IsAlong, IsClean};
ghost use Rattle.sp_meaning.specs.Ends.{EndIs};
ghost use Rattle.sp_race.specs.Prefixes.{WaitersAreSilent, KnowsCounted, KnowsPrefixes};
ghost use Rattle.sp_race.specs.Counts.{PlaceOf, clocks_of};
ghost use Rattle.sp_race.specs.Races.{IsFault, IsVerdict};
ghost use Rattle.sp_race.specs.Runs.{IsRunVerdict};

/// In every journal in which no process makes an entry while its own offer waits, a process that knows a counted
/// entry of another one knows all earlier counted entries of that one, and it knows counted entries alone. Fork,
/// open, send, receive and end are counted.
pub fn knows_prefixes()
    ensures prefixes { (es : List Occurrence) → WaitersAreSilent es → KnowsPrefixes es }
    ensures counted { (es : List Occurrence) → WaitersAreSilent es → KnowsCounted es }
{}

/// After every journal in which no process makes an entry while its own offer waits, the clocks say what each process
/// knows: the counted entry of a process with k counted ones of it before is known exactly where the count is above k.
pub fn clocks_say_what_is_known()
    ensures { (es : List Occurrence) → WaitersAreSilent es → (p q : Name) (i k : ℕ) → PlaceOf es q i k
        → (knowledge_of es).past p i ≡ nat_lt k (clocks_of es p q) }
{}

/// In every run along a journal, with faults or without, no process makes an entry while its own offer waits.
pub fn runs_are_silent()
    ensures { (g : RunInput) (turn : ℕ) (es : List Occurrence) (n : ℕ) (t : StateOf g) → IsAlong g turn es n t
        → WaitersAreSilent es }
{}

/// A run whose end is no fault has a journal without a fault.
pub fn runs_without_a_fault_are_clean()
    ensures { (g : RunInput) (turn : ℕ) (es : List Occurrence) (n : ℕ) (t : StateOf g) (e : End)
        → IsAlong g turn es n t → EndIs g t e → (IsFault e → ⊥) → IsClean es }
{}

/// A journal and an end have at most one verdict: so it is unjudged exactly where the end is a fault, ordered exactly
/// where it is none and the order condition holds, and a race exactly where neither is so, with the least pair.
pub fn verdicts_are_exact()
    ensures { (es : List Occurrence) (e : End) (v w : Verdict) → IsVerdict es e v → IsVerdict es e w → v ≡ w }
{}

/// What a verdict promises of a run. A program keeps the rules of interference, and a run of it, of n steps, along a
/// journal has come to t, whose end this is. Then, where the verdict is ordered, every lawful schedule of the same
/// program, input and limits has at most n names, meets no fault, and is the front of one with n names that leads to t:
/// so the output and the end are those of the run in every schedule. Else the verdict says what it says of the journal.
pub fn verdicts_hold_of_runs()
    ensures { (g : RunInput) (turn : ℕ) (es : List Occurrence) (n : ℕ) (t : StateOf g) (e : End) (v : Verdict)
        → IsFreeOfInterference g.program → IsAlong g turn es n t → EndIs g t e → IsVerdict es e v
        → IsRunVerdict g es n t e v }
{}
