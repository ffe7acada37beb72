//! What `where` shows of the variables of a process is what the meaning has of them. These functions do nothing: each
//! one's contract is a law.

ghost use Rattle.std.specs.Prelude.{◌≡◌, ℕ, List, Some, Bool, true, false, slice_get};
ghost use Rattle.sp_base.specs.declared.limits.Limits.{Limits};
ghost use Rattle.sp_tree.specs.Bare.{without_places};
ghost use Rattle.sp_tree.specs.Plain.{Stmt};
ghost use Rattle.sp_tree.specs.PlainChecked.{Program};
ghost use Rattle.sp_journal.specs.declared.entry.Entry.{Entry};
ghost use Rattle.sp_journal.specs.Births.{births};
ghost use Rattle.sp_cell.specs.Map.{Plain};
ghost use Rattle.sp_code.specs.declared.code.Layout.{Layout};
ghost use Rattle.sp_code.specs.TreeCode.{program_code};
ghost use Rattle.sp_code.specs.Machine.{Config, layout_of};
ghost use Rattle.sp_code.specs.Memory.{Memory, memory};
ghost use Rattle.sp_code.specs.Memory as machine;
ghost use Rattle.sp_code.specs.PlainStore.{plain};
ghost use Rattle.sp_code.specs.System.{System, Working};
ghost use Rattle.sp_code.specs.Turns.{frames_fit};
ghost use Rattle.sp_lines.specs.declared.mark.Mark.{Mark};
ghost use Rattle.sp_link.specs.Premises.{AreAlong, run_by};
ghost use Rattle.sp_meaning.specs.LocalWork.{Frame, RunInput};
ghost use Rattle.sp_meaning.specs.Model.{Name};
ghost use Rattle.sp_meaning.specs.Run.{Store};
ghost use Rattle.sp_meaning.specs.Runs.{StateOf};
ghost use Rattle.sp_where.specs.StateVariables.{Known, own_variables};
ghost use Rattle.sp_where.specs.Truth.{AreRead, FaultsStand, HasMemory, MayRead, ProcessStands, Situation};
ghost use Rattle.sp_where.specs.Truth.{known_of, lines_of, run_of};

/// Along a journal, each process of the machine that runs, waits or joins has a process of the same name in the
/// meaning, with the same frames; and the line of each variable that this one has for its own, has still to use, or
/// waits for, says the value that the variable has in the store of the meaning.
pub fn values_stand()
    ensures { (tree : Program) (input : List ℕ) (limits : Limits) (moves shares : Stmt → List ℕ) (pause : ℕ)
        (es : List Entry) (t : System Plain) (n : ℕ) (s : StateOf (run_of tree input limits))
        → AreAlong (run_of tree input limits) moves shares pause es t n s
        → (constants : List (List (List ℕ))) (marks : List Mark) (i : ℕ) (joins : Bool) (m : Memory Plain)
        → HasMemory (run_by (run_of tree input limits) moves shares pause) (t.condition i) joins m
        → ProcessStands (known_of tree moves shares es constants marks) (run_of tree input limits)
        ((births es).name i) (s.condition ((births es).name i)) s.store m joins }
{}

/// So the lines of a whole frame are those of the meaning, of a process that does not join children: of each frame for
/// a block of which it may read all variables.
pub fn frames_stand()
    ensures { (w : Known) (g : RunInput) (q : Name) (c : Situation) (s : Store) (n : Memory Plain)
        → (z : ProcessStands w g q c s n false)
        → (h : ℕ) (f : machine.Frame) (o : Frame) → slice_get n.frames h ≡ Some f
        → slice_get z.process.own.frames h ≡ Some o
        → (b : ℕ) (l : Layout) → f.home ≡ machine.OfBlock b → layout_of w.code.layouts b ≡ Some l
        → AreRead w g s o (MayRead g.program q c z.process) l.variables
        → own_variables w n.store f f.home ≡ lines_of w g s o l.variables }
{}

/// At a fault too: where in such a state the turn of a process ends in a fault in the meaning, it does so in the
/// machine, and the line of each variable of the process's own, those of functions that an expression calls among them,
/// says the value that the variable has in the store there.
pub fn faults_stand()
    ensures { (tree : Program) (input : List ℕ) (limits : Limits) (moves shares : Stmt → List ℕ) (pause : ℕ)
        (es : List Entry) (t : System Plain) (n : ℕ) (s : StateOf (run_of tree input limits))
        → AreAlong (run_of tree input limits) moves shares pause es t n s
        → (constants : List (List (List ℕ))) (marks : List Mark) (i : ℕ) (d : Config (Memory Plain))
        → t.condition i ≡ Working d
        → frames_fit (memory plain (run_by (run_of tree input limits) moves shares pause))
        (program_code (without_places tree) moves shares) d ≡ true
        → FaultsStand (known_of tree moves shares es constants marks) (run_of tree input limits)
        (run_by (run_of tree input limits) moves shares pause) ((births es).name i)
        (s.condition ((births es).name i)) s.store d }
{}
