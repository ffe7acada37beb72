//! What follows from the definitions of what code does, for every code, input and limits. These functions do nothing:
//! each one's contract is a law, and whoever rests on the law calls it or cites it.

ghost use Rattle.std.specs.Prelude.{◌≡◌, ℕ, suc, List, length, slice_get, Some};
ghost use Rattle.sp_tree.specs.Plain.{Program, Stmt, Block};
ghost use Rattle.sp_cell.specs.Map.{Plain};
ghost use Rattle.sp_journal.specs.declared.entry.Event.{Event};
ghost use Rattle.sp_journal.specs.declared.entry.Entry.{Entry};
ghost use Rattle.sp_code.specs.Machine.{Config, Goes, next_step, layout_of};
ghost use Rattle.sp_code.specs.declared.code.Layout.{Layout};
ghost use Rattle.sp_code.specs.Turns.{Turn, Ended, IsTurn, IsSafe, turn_within};
ghost use Rattle.sp_code.specs.Memory.{CodeRun, Memory, memory};
ghost use Rattle.sp_code.specs.PlainStore.{plain};
ghost use Rattle.sp_code.specs.System.{System, EntryLeads, IsSystem};
ghost use Rattle.sp_code.specs.Ranks.{IsRanked, IsRankedAlong};
ghost use Rattle.sp_code.specs.Budgets.{IsOver, most_steps};
ghost use Rattle.sp_code.specs.Scopes.{Scope};
ghost use Rattle.sp_code.specs.Lengths.{stmt_length};
ghost use Rattle.sp_code.specs.Places.{tree_length};
ghost use Rattle.sp_code.specs.TreeCode.{code, program_code};
ghost use Rattle.sp_code.specs.CodeOfTree.{IsSoundBlock, BlocksAt};
ghost use Rattle.sp_code.specs.NeverStops.{NeverStops};

/// One instruction, and one turn, is a function of the process; and where a turn is computed to an end, that is its
/// end.
pub fn turns_are_functions()
    ensures instruction { (g : CodeRun) (c d e : Config (Memory Plain)) → next_step (memory plain g) g.code c ≡ Goes d
        → next_step (memory plain g) g.code c ≡ Goes e → d ≡ e }
    ensures turn { (g : CodeRun) (c : Config (Memory Plain)) (t u : Turn (Memory Plain))
        → IsTurn (memory plain g) g.code c t
        → IsTurn (memory plain g) g.code c u → t ≡ u }
    ensures computed { (g : CodeRun) (n : ℕ) (c : Config (Memory Plain)) (t : Turn (Memory Plain))
        → turn_within (memory plain g) g.code n c ≡ Ended t → IsTurn (memory plain g) g.code c t }
{}

/// A turn along which the ranks fall comes to its end, or to an instruction that lacks what it needs, within a number
/// of instructions that is computed from the code and the process. So a turn in which none lacks anything has an end.
/// Where each instruction of the code makes the rank fall, the ranks fall along every turn.
pub fn turns_of_ranked_code_end()
    ensures within { (g : CodeRun) (c : Config (Memory Plain)) → IsRankedAlong (memory plain g) g.code c
        → IsOver (turn_within (memory plain g) g.code (suc (most_steps g c)) c) }
    ensures safe { (g : CodeRun) (c : Config (Memory Plain)) → IsRankedAlong (memory plain g) g.code c
        → IsSafe (memory plain g) g.code c → (t : Turn (Memory Plain)) × IsTurn (memory plain g) g.code c t }
    ensures everywhere { (g : CodeRun) → IsRanked g.code.instrs → (c : Config (Memory Plain))
        → IsRankedAlong (memory plain g) g.code c }
{}

/// A turn makes at most one event, and there is at most one system along a journal.
pub fn systems_are_functions()
    ensures event { (g : CodeRun) (s : System Plain) (q : ℕ) (e f : Event) (t u : System Plain)
        → EntryLeads plain g s q e t
        → EntryLeads plain g s q f u → e ≡ f }
    ensures system { (g : CodeRun) (es : List Entry) (t u : System Plain) → IsSystem plain g es t
        → IsSystem plain g es u → t ≡ u }
{}

/// The code of a statement has exactly the number of instructions that the table of lengths says, and that of a whole
/// program has the tree's length.
pub fn code_has_its_length()
    ensures statement { (p : Program) (sc : List Scope) (t n q : ℕ) (s : Stmt)
        → length (code p sc t n q s) ≡ stmt_length p s }
    ensures program { (p : Program) (moves shares : Stmt → List ℕ)
        → length (program_code p moves shares).instrs ≡ tree_length p }
{}

/// Where each block keeps the rules of names, types and variables, its code stands in the code of the program as it
/// should; and a call finds the layout that the block has in the tree.
pub fn code_stands()
    ensures blocks { (p : Program) (moves shares : Stmt → List ℕ)
        → ((f q : ℕ) (b : Block) → slice_get p.blocks f ≡ Some b → IsSoundBlock p moves shares (NeverStops p) f q b)
        → BlocksAt p moves shares (program_code p moves shares) (NeverStops p) }
    ensures layouts { (p : Program) (moves shares : Stmt → List ℕ) (f : ℕ) (l : Layout)
        → slice_get (program_code p moves shares).layouts f ≡ Some l
        → layout_of (program_code p moves shares).layouts f ≡ Some l }
{}
