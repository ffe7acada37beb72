//! That a process may go to the thread that runs it (`Send`).

ghost use Rattle.std.specs.Prelude.{◌≡◌};

use crate::proc::Proc;

fn sent<T: Send>(value: T) -> T
    ensures { result ≡ value }
{
    value
}

/// That a `Proc` is `Send` is proved here.
pub(crate) fn to_a_thread(proc: Proc) -> Proc
    ensures { result ≡ proc }
{
    sent(proc)
}
