//! The law that the options of every command that words ask for are in their ranges. The function does nothing: its
//! contract is the law.

ghost use Rattle.std.specs.Prelude.{◌≡◌, ◌≤◌, ℕ, List, Some};
ghost use Rattle.sp_words.specs.declared.command.Command.{Command};
ghost use Rattle.sp_words.specs.Ranges.{AreInRange, IsInRange, default_limits};
ghost use Rattle.sp_words.specs.Words.{command_of, limits_from, no_value};

/// The options of every command that words ask for are in their ranges, with the size of a `gen`. So are the limits
/// where no option is given.
pub fn accepted_options_are_in_range()
    ensures accepted { (words : List (List ℕ)) (command : Command) → command_of words ≡ Some command
        → AreInRange command }
    ensures defaults { (workers : ℕ) → 1 ≤ workers → workers ≤ 64 → IsInRange workers default_limits }
    ensures nothing_given { limits_from no_value ≡ default_limits }
{}
