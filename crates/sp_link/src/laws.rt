//! What follows for all processes of a run, of the source and of its code, along a journal. These functions do nothing:
//! each one's contract is a law.

ghost use Rattle.std.specs.Prelude.{◌≡◌, ◌<◌, ℕ, List, Some, None, true, false};
ghost use Rattle.sp_base.specs.declared.fault.Fault.{Fault};
ghost use Rattle.sp_base.specs.declared.fault.Fault.TheVariants as fault;
ghost use Rattle.sp_base.specs.declared.limits.Limits.{Limits};
ghost use Rattle.sp_tree.specs.Plain.{Stmt};
ghost use Rattle.sp_journal.specs.declared.entry.Entry.{Entry};
ghost use Rattle.sp_journal.specs.declared.entry.Event.TheVariants as event;
ghost use Rattle.sp_journal.specs.declared.entry.Note.{Note};
ghost use Rattle.sp_journal.specs.declared.outcome.End.{End};
ghost use Rattle.sp_journal.specs.Births.{first_births, births, occurrences_from, NameableFrom};
ghost use Rattle.sp_cell.specs.Map.{Plain};
ghost use Rattle.sp_meaning.specs.Entries.{Occurrence};
ghost use Rattle.sp_meaning.specs.LocalWork.{RunInput};
ghost use Rattle.sp_meaning.specs.Runs.{StateOf, output_of};
ghost use Rattle.sp_meaning.specs.Ends.{Waiting, WaitsSo, IsDone, IsIdle, IsDeadlock, HasFault, EndIs};
ghost use Rattle.sp_meaning.specs.Along.{IsAlong};
ghost use Rattle.sp_code.specs.Control.{control_at_start, entries_of};
ghost use Rattle.sp_code.specs.TreeCode.{program_code};
ghost use Rattle.sp_code.specs.Machine.{Config, Stop};
ghost use Rattle.sp_code.specs.Memory.{Memory, memory};
ghost use Rattle.sp_code.specs.PlainStore.{plain};
ghost use Rattle.sp_code.specs.Sound.{IsSound};
ghost use Rattle.sp_code.specs.System.{System, Working, Over, IsSystem, IsLegal, OutputIs, event_of, store_in};
ghost use Rattle.sp_code.specs.System.{opening_system};
ghost use Rattle.sp_code.specs.Turns.{Stopped, IsSafe};
ghost use Rattle.sp_code.specs.Agreement.{Reaches};
ghost use Rattle.sp_link.specs.Endings.{HasFaultEntry, WaitsAs, IsStuck, ControlEndsAt, MeetsItsWay};
ghost use Rattle.sp_link.specs.Premises.{IsReady, AreAlong, run_by};

/// Along a journal the meaning comes to at most one state, by one number of steps.
pub fn journals_have_one_state()
    ensures { (g : RunInput) (turn : ℕ) (es : List Occurrence) (n k : ℕ) (s t : StateOf g) → IsAlong g turn es n s
        → IsAlong g turn es k t → (n ≡ k) × (s ≡ t) }
{}

/// Along a journal the machine has a system, with the code of a program, exactly where the program has a state; and
/// then no turn lacks what it needs.
pub fn code_runs_as_the_program_means()
    ensures means { (g : RunInput) (moves shares : Stmt → List ℕ) (pause : ℕ) → IsReady g moves shares
        → (es : List Entry) (t : System Plain)
        → IsSystem plain (run_by g moves shares pause) es t → (n : ℕ) × (s : StateOf g)
        × IsAlong g pause (occurrences_from first_births es) n s }
    ensures runs { (g : RunInput) (moves shares : Stmt → List ℕ) (pause : ℕ) → IsReady g moves shares
        → (es : List Entry)
        → NameableFrom first_births es
        → (n : ℕ) (s : StateOf g) → IsAlong g pause (occurrences_from first_births es) n s
        → (t : System Plain) × IsSystem plain (run_by g moves shares pause) es t }
    ensures safe { (g : RunInput) (moves shares : Stmt → List ℕ) (pause : ℕ) → IsReady g moves shares
        → (es : List Entry) (t : System Plain)
        → IsSystem plain (run_by g moves shares pause) es t → (i : ℕ) (d : Config (Memory Plain))
        → t.condition i ≡ Working d
        → IsSafe (memory plain (run_by g moves shares pause)) (program_code g.program moves shares) d }
{}

/// The code of a program is sound: for every input, all limits and every journal each turn ends and lacks nothing, a
/// fork can be carried out, a child that ends can be joined, and a message fits where it goes.
pub fn code_is_sound()
    ensures { (g : RunInput) (moves shares : Stmt → List ℕ) → IsReady g moves shares
        → IsSound (program_code g.program moves shares) }
{}

/// Along a journal both come to the same output; the first process has ended in the one where it has in the other; and
/// nobody runs in the program where nobody runs in its code and no fault stands.
pub fn code_ends_as_the_program_does()
    ensures output { (g : RunInput) (moves shares : Stmt → List ℕ) (pause : ℕ) (es : List Entry) (t : System Plain)
        (n : ℕ) (s : StateOf g)
        → AreAlong g moves shares pause es t n s → OutputIs plain (run_by g moves shares pause) t (output_of g s) }
    ensures done { (g : RunInput) (moves shares : Stmt → List ℕ) (pause : ℕ) (es : List Entry) (t : System Plain)
        (n : ℕ)
        (s : StateOf g)
        → AreAlong g moves shares pause es t n s → (d : Config (Memory Plain)) → t.condition 0 ≡ Over d → IsDone g s }
    ensures over { (g : RunInput) (moves shares : Stmt → List ℕ) (pause : ℕ) (es : List Entry) (t : System Plain)
        (n : ℕ)
        (s : StateOf g)
        → AreAlong g moves shares pause es t n s → IsDone g s → (d : Config (Memory Plain)) × (t.condition 0 ≡ Over d) }
    ensures idle { (g : RunInput) (moves shares : Stmt → List ℕ) (pause : ℕ) (es : List Entry) (t : System Plain)
        (n : ℕ)
        (s : StateOf g)
        → AreAlong g moves shares pause es t n s → t.faulted ≡ false
        → ((i : ℕ) (d : Config (Memory Plain)) → t.condition i ≡ Working d → ⊥) → IsIdle g s }
{}

/// Along a journal the same processes wait in both, with the same way and channel; so a deadlock of the one is a
/// deadlock of the other. A fault stands in both where an entry of the journal says it, and then it is that process's
/// and that fault.
pub fn code_waits_and_faults_as_the_program_does()
    ensures waits { (g : RunInput) (moves shares : Stmt → List ℕ) (pause : ℕ) (es : List Entry) (t : System Plain)
        (n : ℕ) (s : StateOf g)
        → AreAlong g moves shares pause es t n s → (w : Waiting) → WaitsAs t w → WaitsSo g s w }
    ensures waiting { (g : RunInput) (moves shares : Stmt → List ℕ) (pause : ℕ) (es : List Entry) (t : System Plain)
        (n : ℕ) (s : StateOf g)
        → AreAlong g moves shares pause es t n s → (w : Waiting) → WaitsSo g s w → WaitsAs t w }
    ensures stuck { (g : RunInput) (moves shares : Stmt → List ℕ) (pause : ℕ) (es : List Entry) (t : System Plain)
        (n : ℕ) (s : StateOf g)
        → AreAlong g moves shares pause es t n s → (ws : List Waiting) → IsStuck t ws → IsDeadlock g s ws }
    ensures deadlock { (g : RunInput) (moves shares : Stmt → List ℕ) (pause : ℕ) (es : List Entry) (t : System Plain)
        (n : ℕ) (s : StateOf g)
        → AreAlong g moves shares pause es t n s → (ws : List Waiting) → IsDeadlock g s ws → IsStuck t ws }
    ensures fault { (g : RunInput) (moves shares : Stmt → List ℕ) (pause : ℕ) (es : List Entry) (t : System Plain)
        (n : ℕ) (s : StateOf g)
        → AreAlong g moves shares pause es t n s → (p : ℕ) (f : Fault) → HasFaultEntry es p f
        → HasFault g s ((births es).name p) f }
    ensures faulted { (g : RunInput) (moves shares : Stmt → List ℕ) (pause : ℕ) (es : List Entry) (t : System Plain)
        (n : ℕ) (s : StateOf g)
        → AreAlong g moves shares pause es t n s → t.faulted ≡ true → (p : ℕ) × (f : Fault) × HasFaultEntry es p f }
    ensures no_fault { (g : RunInput) (moves shares : Stmt → List ℕ) (pause : ℕ) (es : List Entry) (t : System Plain)
        (n : ℕ) (s : StateOf g)
        → AreAlong g moves shares pause es t n s → t.faulted ≡ false → s.fault ≡ None }
{}

/// A legal history of the kernel over the code of a program is a run of the program along the journal of its notes.
/// Where the control of the notes stands at an end, the program has come to the same one: done, a deadlock with all
/// that wait, or the fault of the journal; and the output that a process holds is the program's.
pub fn histories_end_as_the_program_does()
    ensures means { (g : RunInput) (moves shares : Stmt → List ℕ) (pause : ℕ) → IsReady g moves shares
        → (ns : List Note)
        → IsLegal plain (run_by g moves shares pause) ns → (n : ℕ) × (s : StateOf g)
        × IsAlong g pause (occurrences_from first_births (entries_of ns)) n s }
    ensures output { (g : RunInput) (moves shares : Stmt → List ℕ) (pause : ℕ) → IsReady g moves shares
        → (ns : List Note) (t : System Plain)
        → Reaches plain (run_by g moves shares pause) control_at_start
        (opening_system plain (run_by g moves shares pause)) ns
        t
        → (n : ℕ) (s : StateOf g) → IsAlong g pause (occurrences_from first_births (entries_of ns)) n s
        → OutputIs plain (run_by g moves shares pause) t (output_of g s) }
    ensures held { (g : RunInput) (moves shares : Stmt → List ℕ) (pause : ℕ) → IsReady g moves shares
        → (ns : List Note) (t : System Plain)
        → Reaches plain (run_by g moves shares pause) control_at_start
        (opening_system plain (run_by g moves shares pause)) ns
        t
        → (n : ℕ) (s : StateOf g) → IsAlong g pause (occurrences_from first_births (entries_of ns)) n s
        → (q : ℕ) (m : Plain) (bs : List ℕ) → store_in (t.condition q) ≡ Some m → plain.output m ≡ Some bs
        → bs ≡ output_of g s }
    ensures ends { (g : RunInput) (moves shares : Stmt → List ℕ) (pause : ℕ) → IsReady g moves shares → (ns : List Note)
        → IsLegal plain (run_by g moves shares pause) ns → (n : ℕ) (s : StateOf g)
        → IsAlong g pause (occurrences_from first_births (entries_of ns)) n s
        → (e : End) → ControlEndsAt ns e → EndIs g s e }
{}

/// Contention is an entry exactly where an offer meets a pending one of its own way and the journal is not full.
pub fn offers_of_one_way_are_contention()
    ensures meets { (lim : Limits) (t : System Plain) (stop : Stop) (d : Config (Memory Plain)) → t.faulted ≡ false
        → event_of lim t (Stopped stop d) ≡ event.Fault fault.F6 → MeetsItsWay t stop × (t.entries < lim.entries) }
    ensures entry { (lim : Limits) (t : System Plain) (stop : Stop) (d : Config (Memory Plain)) → t.faulted ≡ false
        → MeetsItsWay t stop → t.entries < lim.entries → event_of lim t (Stopped stop d) ≡ event.Fault fault.F6 }
{}
