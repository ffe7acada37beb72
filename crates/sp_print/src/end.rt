//! The lines of an end of a run.

ghost use Rattle.std.specs.Prelude.{◌≡◌, IfOk};
ghost use Rattle.std.specs.List.{flat_map};
ghost use Rattle.sp_print.specs.OutcomeLines.{waiter_line, end_text, HasLines};
ghost use Rattle.sp_base.specs.Adds.{Adds};

use sp_base::{Memory, Writer};
use sp_journal::{End, Waiter};
use std::alloc::Global;

/// The lines of an end that is not `Memory`: `done`; or `deadlock` and then `waits NAME send CHANNEL` or
/// `waits NAME receive CHANNEL` for each process that waits; or `fault F NAME`.
pub fn end_lines(alloc: Global, end: &End) -> Result<Vec<u8>, Memory>
    requires { HasLines end.now }
    ensures { IfOk result (λ text. text.items ≡ end_text end.now) }
{
    let mut out = Writer::new(alloc);
    match end {
        End::Done => out.extend(b"done\n"),
        End::Deadlock(waiters) => {
            out.extend(b"deadlock\n");
            put_waiters(&mut out, waiters.items());
        }
        End::Fault { process, fault } => {
            out.extend(b"fault ");
            out.extend(fault.name().as_bytes());
            out.extend(b" ");
            out.name(process);
            out.extend(b"\n");
        }
        End::Memory => {}
    }
    out.finish()
}

fn put_waiters(out: &mut Writer<u8>, waiters: &[Waiter])
    ensures { Adds out.old out.new (flat_map waiter_line waiters.now) }
{
    for waiter in waiters {
        put_waiter(out, waiter);
    }
}

fn put_waiter(out: &mut Writer<u8>, waiter: &Waiter)
    ensures { Adds out.old out.new (waiter_line waiter.now) }
{
    out.extend(b"waits ");
    out.name(&waiter.process);
    out.extend(b" ");
    out.extend(waiter.way.word().as_bytes());
    out.extend(b" ");
    out.channel(&waiter.channel);
    out.extend(b"\n");
}
