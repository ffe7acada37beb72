//! The faults that end a run, and their names.

ghost use Rattle.std.specs.Prelude.{◌≡◌, Some};
ghost use Rattle.sp_base.specs.Faults.{fault_name};

use std::fmt;

/// A run-time fault, by its name in `docs/LANGUAGE.md`.
#[derive(Clone, Copy, Debug, PartialEq, Eq)]
pub enum Fault {
    /// Range: an index, `chr`, `succ` or `pred` leaves its range, or a width is below 1.
    F1,
    /// Overflow: an integer leaves `-MAXINT` to `MAXINT`.
    F2,
    /// Divisor: `div` by 0, or `mod` by a number that is not positive.
    F3,
    /// Undefined value: an undefined ordinal is read, or a function ends without a result.
    F4,
    /// Undefined channel: an undefined channel value is read.
    F5,
    /// Contention: an offer meets a pending offer of its direction.
    F6,
    /// Message type: an offer meets a pending offer of another type.
    F7,
    /// False assumption: the expression of `assume` is false.
    F8,
    /// No case: no constant of a `case` statement matches.
    F9,
    /// Ticks: a process makes more ticks than its limit.
    F10,
    /// Depth: a call or a fork goes deeper than the limit.
    F11,
    /// Cells: the live frames of a process have more cells than the limit.
    F12,
    /// Processes: a fork would make more processes than the limit.
    F13,
    /// Channels: an `open` would make more channels than the limit.
    F14,
    /// Journal: the journal would have more entries of the counted kinds than the limit.
    F15,
    /// Output: the output would be longer than the limit.
    F16,
    /// No number: `read` of an integer finds no number.
    F17,
    /// Past the end: `read` finds the end of the input.
    F18,
}

impl Fault {
    /// The fault's name, as `F12`.
    pub fn name(self) -> &'static str
        ensures { result.now ≡ fault_name self }
    {
        match self {
            Fault::F1 => "F1",
            Fault::F2 => "F2",
            Fault::F3 => "F3",
            Fault::F4 => "F4",
            Fault::F5 => "F5",
            Fault::F6 => "F6",
            Fault::F7 => "F7",
            Fault::F8 => "F8",
            Fault::F9 => "F9",
            Fault::F10 => "F10",
            Fault::F11 => "F11",
            Fault::F12 => "F12",
            Fault::F13 => "F13",
            Fault::F14 => "F14",
            Fault::F15 => "F15",
            Fault::F16 => "F16",
            Fault::F17 => "F17",
            Fault::F18 => "F18",
        }
    }
}

impl fmt::Display for Fault {
    ghost output = { λ f. Some (fault_name f) };

    fn fmt<W: fmt::Write>(&self, f: &mut fmt::Formatter<W>) -> fmt::Result {
        write!(f, "{}", self.name())
    }
}
