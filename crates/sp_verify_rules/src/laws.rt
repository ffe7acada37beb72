//! The law that code which breaks no rule is sound, for every code, input and limits. The function does nothing: its
//! contract is the law, and whoever rests on the law calls it or cites it.

ghost use Rattle.sp_code.specs.declared.code.Parts.{Parts};
ghost use Rattle.sp_code.specs.Sizes.{KeepsSizes};
ghost use Rattle.sp_code.specs.Sound.{IsSound};
ghost use Rattle.sp_verify_rules.specs.Activations.{AnswersWithoutStop};
ghost use Rattle.sp_verify_rules.specs.Verdict.{IsVerified};

/// Code that breaks no rule is sound: along every journal each turn of each process ends, lacks no operand, jumps to no
/// instruction that is not there and touches nothing that its process does not hold; and each fork, join and message
/// can be carried out. While a block that answers is being called, its process stops at nothing but a fault or a pause.
pub fn verified_code_is_sound()
    ensures sound { (c : Parts) → KeepsSizes c → IsVerified c → IsSound c }
    ensures without_stop { (c : Parts) → KeepsSizes c → IsVerified c → AnswersWithoutStop c }
{}
