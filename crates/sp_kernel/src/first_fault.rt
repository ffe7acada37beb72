//! The run of a program whose frame has more cells than the limit: it is one fault, before the first instruction.

ghost use Rattle.std.specs.Prelude.{◌≡◌, ◌≢◌, MatchBool};
ghost use Rattle.sp_kernel.specs.FirstFaults.{first_fault, first_fault_end};

use sp_base::{Fault, List, ProcName};
use sp_journal::{End, Entry, Event};
use std::alloc::Global;

/// Its only entry.
pub fn first_fault() -> Entry
    ensures { result ≡ first_fault }
{
    Entry {
        process: 0,
        event: Event::Fault(Fault::F12),
    }
}

/// Whether an entry is that one.
pub fn is_first_fault(entry: Entry) -> bool
    ensures { MatchBool result (entry ≡ first_fault) (entry ≢ first_fault) }
{
    entry == first_fault()
}

/// Its end.
pub fn first_fault_end(alloc: Global) -> End
    ensures { result ≡ first_fault_end }
{
    End::Fault {
        process: ProcName {
            pairs: List::new(alloc),
        },
        fault: Fault::F12,
    }
}
