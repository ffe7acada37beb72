//! What follows for the marks of a tree and its code. These functions do nothing: each one's contract is a law.

ghost use Rattle.std.specs.Prelude.{◌≡◌, ℕ, List, Some, true, length, slice_get};
ghost use Rattle.sp_base.specs.declared.fault.Fault.{Fault};
ghost use Rattle.sp_base.specs.declared.place.Place.{Place};
ghost use Rattle.sp_tree.specs.PlainChecked.{Expression, Statement, Block, Program};
ghost use Rattle.sp_tree.specs.Plain as plain;
ghost use Rattle.sp_tree.specs.Bare.{bare_expression, bare_statement, without_places};
ghost use Rattle.sp_cell.specs.Map.{Plain};
ghost use Rattle.sp_code.specs.Machine.{Config, Stop};
ghost use Rattle.sp_code.specs.Memory.{CodeRun, Memory, memory};
ghost use Rattle.sp_code.specs.PlainStore.{plain as plain_store};
ghost use Rattle.sp_code.specs.Turns.{Turn, Faulted, Stopped, IsTurn, frames_fit};
ghost use Rattle.sp_code.specs.Scopes.{Scope};
ghost use Rattle.sp_code.specs.TreeCode.{value_code, code, program_code};
ghost use Rattle.sp_lines.specs.Marks.{marks, value_marks, statement_marks};
ghost use Rattle.sp_lines.specs.Beside.{IsIn, HasBeside};
ghost use Rattle.sp_lines.specs.AtTurn.{at_turn, StopStands};
ghost use Rattle.sp_journal.specs.declared.entry.Entry.{Entry};
ghost use Rattle.sp_code.specs.System.{System, Working, EntryLeads, IsSystem};
ghost use Rattle.sp_journal.specs.declared.entry.Event.{Event};
ghost use Rattle.sp_lines.specs.EntryPlaces.{EntryTells, DescribesEntries, lasts_after, told_of};
ghost use Rattle.sp_lines.specs.declared.entry_place.Told.{Told};
ghost use Rattle.sp_lines.specs.WaitPlaces.{IsShown};
ghost use Rattle.sp_lines.specs.Kinds.{HasStatement, IsOf, IsOfProgram};
ghost use Rattle.sp_lines.specs.declared.mark.Mark.{Mark};
ghost use Rattle.sp_code.specs.declared.instr.Instr.{Instr};

/// Each part of a tree has as many marks as its code has instructions, wherever it stands. Marks and code are put
/// together from those of the parts in the same order, so the mark with the number of an instruction is of the part
/// that the instruction is of. The whole program has a mark for each instruction.
pub fn marks_go_with_the_code()
    ensures value { (p : plain.Program) (sc : List Scope) (s : Place) (e : Expression)
        → length (value_marks s e) ≡ length (value_code p sc (bare_expression e)) }
    ensures statement { (p : plain.Program) (sc : List Scope) (t n q : ℕ) (a : Statement)
        → length (statement_marks p.kinds a) ≡ length (code p sc t n q (bare_statement a)) }
    ensures program { (p : Program) (moves shares : plain.Stmt → List ℕ)
        → length (marks p) ≡ length (program_code (without_places p) moves shares).instrs }
{}

/// Wherever a statement of a program stands in its code, its marks stand in the program's marks: with as many of them
/// before.
pub fn marks_stand()
    ensures { (p : Program) (moves shares : plain.Stmt → List ℕ) (f : ℕ) (b : Block) (u : Statement)
        → slice_get p.blocks f ≡ Some b → IsIn u b.body
        → HasBeside (without_places p) u (marks p) (program_code (without_places p) moves shares).instrs }
{}

/// If a turn stops, the instruction at which it ends is that of the stop: the `send` of a send, and so on.
pub fn turns_end_at_their_instruction()
    ensures { (g : CodeRun) (c d : Config (Memory Plain)) (z : Stop)
        → IsTurn (memory plain_store g) g.code c (Stopped z d) → StopStands g.code z (at_turn (Stopped z d)) }
{}

/// An instruction that stops has the mark of a statement of the text of its kind: that of a `send` is where a send
/// statement begins, and so with `receive`, `open`, `parallel` and `forall`.
pub fn stops_have_their_statements()
    ensures { (p : Program) (moves shares : plain.Stmt → List ℕ) (q : ℕ) (m : Mark) (o : Instr)
        → slice_get (marks p) q ≡ Some m
        → slice_get (program_code (without_places p) moves shares).instrs q ≡ Some o → IsOf (IsOfProgram p) m o }
{}

/// One thing is told of a journal if the machine has a system along it, and else nothing.
pub fn journals_are_told()
    ensures told { (g : CodeRun) (es : List Entry) (t : System Plain) → IsSystem plain_store g es t
        → (ws : List Told) × DescribesEntries g es ws t }
    ensures once { (g : CodeRun) (es : List Entry) (ws xs : List Told) (t u : System Plain) → DescribesEntries g es ws t
        → DescribesEntries g es xs u → ws ≡ xs }
    ensures leads { (g : CodeRun) (es : List Entry) (ws : List Told) (t : System Plain) → DescribesEntries g es ws t
        → IsSystem plain_store g es t }
{}

/// What is told of an entry of a run of a program's code: the instruction has a mark, and if the entry forks, opens,
/// sends or receives, a statement of the text that does so begins at that place.
pub fn entries_are_told_at_their_statements()
    ensures { (p : Program) (moves shares : plain.Stmt → List ℕ) (g : CodeRun)
        → g.code ≡ program_code (without_places p) moves shares
        → (s t : System Plain) (q : ℕ) (e : Event) (w : Told) → EntryTells g s q e w t
        → HasStatement p e w.instruction }
{}

/// If an entry leads from a system to another, and the entry's process makes this turn there, then what is told of the
/// entry is that of the turn: so whoever follows a journal and sees each turn can tell it.
pub fn turns_are_told()
    ensures { (g : CodeRun) (s t : System Plain) (q : ℕ) (e : Event) → EntryLeads plain_store g s q e t
        → (c : Config (Memory Plain)) → s.condition q ≡ Working c → (turn : Turn (Memory Plain))
        → IsTurn (memory plain_store g) g.code c turn → EntryTells g s q e (told_of s turn) t }
{}

/// Along a journal of a run of a program's code, a process that waits to send or to receive, or for its children, is
/// shown at an instruction that has a mark, and a statement of the text that does so begins at that place.
pub fn waiting_processes_are_shown()
    ensures { (p : Program) (moves shares : plain.Stmt → List ℕ) (g : CodeRun)
        → g.code ≡ program_code (without_places p) moves shares
        → (es : List Entry) (ws : List Told) (t : System Plain) → DescribesEntries g es ws t → (r : ℕ)
        → IsShown p (t.condition r) (lasts_after es ws (λ _. 0) r) }
{}

/// In a run of a program's code an instruction that faults has a mark: of each turn but the first of a program whose
/// variables do not fit.
pub fn faults_have_marks()
    ensures { (p : Program) (moves shares : plain.Stmt → List ℕ) (g : CodeRun) (c d : Config (Memory Plain)) (f : Fault)
        → IsTurn (memory plain_store g) (program_code (without_places p) moves shares) c (Faulted f d)
        → frames_fit (memory plain_store g) (program_code (without_places p) moves shares) c ≡ true
        → (m : Mark) × (slice_get (marks p) (at_turn (Faulted f d)) ≡ Some m) }
{}
