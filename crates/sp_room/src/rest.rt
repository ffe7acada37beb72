//! What a seat does that found nothing to take: it looks, sleeps briefly and rests. No clause speaks of it.

use crate::kept::Kept;
use crate::seat::Room;
use crate::turn::count_of;
use crate::wait_counts::pause;
use std::sync::Wait;
use std::thread::yield_now;

/// How often a seat looks before it sleeps.
const LOOKS: u32 = 8;

/// How often the processor pauses in one look, one or two microseconds: more than from one note to the next of a seat
/// that goes from message to message, which so keeps the processes that it wakes itself.
const PAUSES: u32 = 40;

/// How often a seat sleeps briefly before it rests.
const BRIEF_SLEEPS: u32 = 100;

// What a seat has seen.
#[derive(Clone, Copy)]
enum LookResult {
    // Something is left to take, and no note came in a while.
    Left,
    // Notes come.
    Notes,
    // Nothing is left to take, and no note came.
    Nothing,
}

// Returns when something is left to take.
pub(crate) fn rest_in<K: Kept, R: Wait>(rt: &R, room: &Room<K>) {
    room.wait_counts.start_looking();
    let mut sleeps = 0;
    for _ in rt.forever() {
        match look(room) {
            LookResult::Left => break,
            LookResult::Notes if sleeps < BRIEF_SLEEPS => {
                sleeps += 1;
                room.wait_counts.sleep_briefly(rt);
            }
            _ => {
                sleeps = 0;
                room.wait_counts.rest(rt);
            }
        }
    }
    room.wait_counts.stop_looking();
}

// Looks a few times.
fn look<K: Kept>(room: &Room<K>) -> LookResult {
    let before = count_of(room);
    for _ in 0..LOOKS {
        let count = count_of(room);
        pause(PAUSES);
        let left = room.wait_counts.left();
        if left == u64::MAX || (left > 0 && count_of(room) == count) {
            return LookResult::Left;
        }
        yield_now();
    }
    if count_of(room) == before {
        LookResult::Nothing
    } else {
        LookResult::Notes
    }
}
