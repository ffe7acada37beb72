//! The law that the stores of verified code are held apart, for every code, input, journal and limits. The function
//! does nothing: its contract is the law.

ghost use Rattle.std.specs.Prelude.{ℕ, List};
ghost use Rattle.sp_base.specs.declared.limits.Limits.{Limits};
ghost use Rattle.sp_cell.specs.Map.{Plain};
ghost use Rattle.sp_journal.specs.declared.entry.Entry.{Entry};
ghost use Rattle.sp_code.specs.declared.code.Parts.{Parts};
ghost use Rattle.sp_code.specs.PlainStore.{plain};
ghost use Rattle.sp_code.specs.Sizes.{KeepsSizes};
ghost use Rattle.sp_code.specs.Sound.{AreLimits, Held, run_of};
ghost use Rattle.sp_code.specs.System.{System, IsSystem};
ghost use Rattle.sp_verify_rules.specs.Verdict.{IsVerified};

/// In the system of code that breaks no rule, along every journal: each variable of a live frame is own in the store of
/// one process at most; where it is shared, all that share it have equal cells and none owns it; and every other store
/// that knows it has it away.
pub fn verified_code_is_held()
    ensures { (c : Parts) → KeepsSizes c → IsVerified c → (input : List ℕ) (lim : Limits) → AreLimits lim
        → (es : List Entry) (s : System Plain) → IsSystem plain (run_of c input lim) es s → Held s }
{}
