//! Where jumps lead in the code of a program. This function does nothing: its contract is a law.

ghost use Rattle.std.specs.Prelude.{◌≡◌, ℕ, List, Some, true, slice_get};
ghost use Rattle.sp_tree.specs.PlainChecked.{Program};
ghost use Rattle.sp_tree.specs.Plain as plain;
ghost use Rattle.sp_tree.specs.Bare.{without_places};
ghost use Rattle.sp_cell.specs.Map.{Plain};
ghost use Rattle.sp_code.specs.TreeCode.{program_code};
ghost use Rattle.sp_code.specs.Machine.{Config};
ghost use Rattle.sp_code.specs.Memory.{CodeRun, Memory, memory};
ghost use Rattle.sp_code.specs.PlainStore.{plain as plain_store};
ghost use Rattle.sp_code.specs.Turns.{IsSafe, frames_fit};
ghost use Rattle.sp_lines.specs.AtTurn.{next_of};
ghost use Rattle.sp_lines.specs.declared.mark.Mark.{Mark};
ghost use Rattle.sp_lines.specs.Marks.{marks};
ghost use Rattle.sp_lines.specs.JumpTargets.{landing};

/// In a run of a program's code, jumps from the next instruction of a process lead to one that has a mark, where no
/// instruction of its turn lacks what it needs and its variables fit.
pub fn landings_have_marks()
    ensures { (p : Program) (moves shares : plain.Stmt → List ℕ) (g : CodeRun) (c : Config (Memory Plain))
        → g.code ≡ program_code (without_places p) moves shares
        → IsSafe (memory plain_store g) g.code c → frames_fit (memory plain_store g) g.code c ≡ true
        → (m : Mark) × (slice_get (marks p) (landing g.code.instrs (next_of c)) ≡ Some m) }
{}
