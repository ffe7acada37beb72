//! What follows from the definitions of legal histories of the kernel, for every code, input and limits. These
//! functions do nothing: each one's contract is a law, and whoever rests on the law cites it.

ghost use Rattle.std.specs.Prelude.{◌≡◌, ◌≢◌, ℕ, List, [], ◌++◌, None, Some, slice_get};
ghost use Rattle.sp_cell.specs.Map.{Plain};
ghost use Rattle.sp_journal.specs.declared.entry.Note.{Note};
ghost use Rattle.sp_journal.specs.declared.entry.Birth.{Birth};
ghost use Rattle.sp_journal.specs.declared.entry.Entry.{Entry};
ghost use Rattle.sp_journal.specs.Births.{first_births, NameableFrom};
ghost use Rattle.sp_journal.specs.Queue.{first_queue, InTurnFrom};
ghost use Rattle.sp_code.specs.Machine.{Config, Stop};
ghost use Rattle.sp_code.specs.Turns.{Stopped, IsTurn};
ghost use Rattle.sp_code.specs.Sound.{AreLimits, IsSafeSystem};
ghost use Rattle.sp_code.specs.Memory.{CodeRun, Memory, memory};
ghost use Rattle.sp_code.specs.PlainStore.{plain};
ghost use Rattle.sp_code.specs.Control.{Out, Joining, Gone, control, control_at_start, entries_of};
ghost use Rattle.sp_code.specs.System.{System, Working, IsSystem, IsLegal, opening_system};
ghost use Rattle.sp_code.specs.Agreement.{IsOrderly, AgreesWithSystem, Reaches, NoneBy, HasOuts, IsOver, Running};
ghost use Rattle.sp_code.specs.Agreement.{phase_in};
ghost use Rattle.sp_code.specs.Channels.{StopHas};
ghost use Rattle.sp_code.specs.NamesChannels.{NamesChannels, IsThere};
ghost use Rattle.sp_code.specs.WorkerHistory.{OneByOne};
ghost use Rattle.sp_code.specs.Faults.{IsFaulty};
ghost use Rattle.sp_code.specs.OutputHolder.{IsOutputOf};

/// A legal history leads to exactly one system: the one along the journal of its notes. The control of its notes and
/// that system tell the same of every process; and the control counts the processes that are out.
pub fn histories_lead_to_systems()
    ensures leads { (g : CodeRun) (ns : List Note) → IsLegal plain g ns → (s : System Plain)
        × Reaches plain g control_at_start (opening_system plain g) ns s }
    ensures legal { (g : CodeRun) (ns : List Note) (s : System Plain)
        → Reaches plain g control_at_start (opening_system plain g) ns s → IsLegal plain g ns }
    ensures journal { (g : CodeRun) (ns : List Note) (s : System Plain)
        → Reaches plain g control_at_start (opening_system plain g) ns s
        → IsSystem plain g (entries_of ns) s }
    ensures one { (g : CodeRun) (ns : List Note) (s t : System Plain)
        → Reaches plain g control_at_start (opening_system plain g) ns s
        → Reaches plain g control_at_start (opening_system plain g) ns t → s ≡ t }
    ensures alike { (g : CodeRun) (ns : List Note) (s : System Plain)
        → Reaches plain g control_at_start (opening_system plain g) ns s
        → IsOrderly (control ns) × AgreesWithSystem (control ns) s × HasOuts (control ns) }
{}

/// While a worker leaves no note, a process that is out with it stays out, in the very same state. Where no process is
/// ready and none is out or was given up, none runs in the system; and once the run has ended and nothing is out, no
/// history makes another event.
pub fn histories_keep_what_is_out()
    ensures stays { (g : CodeRun) (ns more : List Note) (s t : System Plain) (p w : ℕ) (c : Config (Memory Plain))
        → Reaches plain g control_at_start (opening_system plain g) ns s → Reaches plain g (control ns) s more t
        → NoneBy w more → (control ns).doing p ≡ Out w → s.condition p ≡ Working c
        → ((control (ns ++ more)).doing p ≡ Out w) × (t.condition p ≡ Working c) }
    ensures idle { (g : CodeRun) (ns : List Note) (s : System Plain)
        → Reaches plain g control_at_start (opening_system plain g) ns s
        → (control ns).ready ≡ [] → (control ns).out ≡ 0
        → ((q : ℕ) → (control ns).doing q ≢ Gone) → (q : ℕ) → phase_in (s.condition q) ≢ Running }
    ensures over { (g : CodeRun) (ns more : List Note) (s t : System Plain)
        → Reaches plain g control_at_start (opening_system plain g) ns s → IsOver (control ns)
        → Reaches plain g (control ns) s more t
        → entries_of more ≡ [] }
{}

/// Every process of a run has the number at which it stands, and all channels in its operands, its offer and its
/// variables are there; so a turn that ends at an offer offers on a channel that is there. The journal of a run with
/// limits of 32 bits is nameable, and has one fault at most.
pub fn journals_name_what_is_there()
    ensures spoken { (g : CodeRun) (es : List Entry) (s : System Plain) → IsSystem plain g es s → NamesChannels s }
    ensures offered { (g : CodeRun) (es : List Entry) (s : System Plain) (q : ℕ) (c d : Config (Memory Plain))
        (stop : Stop)
        → IsSystem plain g es s → s.condition q ≡ Working c
        → IsTurn (memory plain g) g.code c (Stopped stop d) → StopHas (IsThere s) stop }
    ensures nameable { (g : CodeRun) (es : List Entry) (s : System Plain) → AreLimits g.limits → IsSystem plain g es s
        → NameableFrom first_births es }
    ensures fault { (g : CodeRun) (es : List Entry) (s : System Plain) (i j : ℕ) (d e : Entry) → IsSystem plain g es s
        → slice_get es i ≡ Some d → slice_get es j ≡ Some e → IsFaulty d.event → IsFaulty e.event → i ≡ j }
{}

/// After a legal history the parent of a process that is out waits for its children. Where one worker hands in with
/// each ask what it holds, the journal is first in, first out.
pub fn histories_keep_turns()
    ensures joined { (g : CodeRun) (ns : List Note) (s : System Plain) (q w : ℕ) (b : Birth)
        → Reaches plain g control_at_start (opening_system plain g) ns s → (control ns).doing q ≡ Out w
        → (control ns).births.birth q ≡ Some b
        → (n : ℕ) × ((control ns).doing b.parent ≡ Joining n) }
    ensures turns { (g : CodeRun) (ns : List Note) (s : System Plain)
        → Reaches plain g control_at_start (opening_system plain g) ns s
        → OneByOne None ns → InTurnFrom first_births first_queue (entries_of ns) }
{}

/// After a legal history of safe code exactly one process holds the output.
pub fn one_process_holds_the_output()
    ensures { (g : CodeRun) (ns : List Note) (s : System Plain)
        → ((es : List Entry) (t : System Plain) → IsSystem plain g es t → IsSafeSystem g t)
        → Reaches plain g control_at_start (opening_system plain g) ns s
        → (q : ℕ) × (bs : List ℕ) × IsOutputOf s q bs }
{}
