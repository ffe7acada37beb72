//! What one worker does: it serves the room with what it holds, and runs one turn of what it gets.

ghost use Rattle.std.specs.Prelude.{◌≡◌, ◌<◌, []};
ghost use Rattle.sp_code.specs.WorkerHistory.{OneByOne};
ghost use Rattle.sp_room.specs.Seats.{IsSeatOf, SamePlace, claims_of_seat, opening_of, number_of, seen_by, own_of};
ghost use Rattle.sp_runner.specs.Works.{IsRunOf, AreOwnNotes, LeftAfter, refused_process};

use sp_base::Limits;
use sp_code::Code;
use sp_kernel::{Ask, Got, Handed, Kernel};
use sp_machine::{Proc, Stop};
use sp_outside::Gate;
use sp_room::{Room, RoomSeat};
use std::sync::Wait;

// The process that a refused ask held.
fn held(refused: Option<Handed>) -> Option<Proc>
    ensures { result ≡ refused_process refused }
{
    match refused {
        None => None,
        Some(handed) => {
            let Handed { proc, stop: _ } = handed;
            Some(proc)
        }
    }
}

/// One worker, from its first ask to its last. It gives its seat back once the run is over and nothing is out, or once
/// it gave up for want of memory.
pub(crate) fn work<R: Wait, G: Gate>(
    rt: &R,
    room: &Room<Kernel>,
    mut seat: RoomSeat<Kernel>,
    code: &Code,
    limits: &Limits,
    gate: &G,
) -> RoomSeat<Kernel>
    requires seat { IsSeatOf room.now seat }
    requires run { IsRunOf (opening_of room.now) code.now limits.now }
    requires knows { AreOwnNotes (seen_by seat) (own_of seat) (number_of seat) × (own_of seat ≡ []) }
    requires claim { 0 < claims_of_seat seat }
    ensures place { SamePlace seat result }
    ensures left { LeftAfter (seen_by result) }
    ensures calls { OneByOne None (own_of result) }
{
    let mut ask = Ask::Turn(None);
    for _ in rt.forever() {
        match seat.serve(rt, room, ask) {
            Got::Work(mut proc) => {
                gate.enter(seat.number(), proc.number());
                match proc.turn(code, limits) {
                    Stop::Memory => {
                        seat.serve(rt, room, Ask::Abandon(Some(proc)));
                        return seat;
                    }
                    stop => ask = Ask::Turn(Some(Handed { proc, stop })),
                }
            }
            Got::Nothing => {
                seat.rest(rt, room);
                ask = Ask::Turn(None);
            }
            Got::Finished => return seat,
            Got::Refused(handed) => {
                seat.serve(rt, room, Ask::Abandon(held(handed)));
                return seat;
            }
        }
    }
    unreachable!()
}
