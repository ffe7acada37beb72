//! Which seats sleep or look for something to take, and whom a note wakes. No promise rests on it: it is beside the
//! table, and its numbers are read in no contract.
use std::hint::spin_loop;
use std::sync::Wait;
use std::sync::atomic::AtomicU64;
use std::sync::atomic::Ordering::SeqCst;
use std::time::Duration;

/// How long a seat sleeps between looks, in microseconds.
const BRIEF_SLEEP: u64 = 100;

/// How often a wake looks whom it wakes while others change the numbers, before it wakes all.
const TRIES: u32 = 64;

/// How many seats rest, and how many of those that did a note has woken which are not awake yet.
#[derive(Clone, Copy)]
struct Sleepers {
    resting: u32,
    coming: u32,
}

impl Sleepers {
    fn of(word: u64) -> Sleepers {
        Sleepers {
            resting: (word % (1 << 32)) as u32,
            coming: (word >> 32) as u32,
        }
    }

    // Both in one word, since a wake changes both in one step.
    fn word(self) -> u64 {
        ((self.coming as u64) << 32) + self.resting as u64
    }

    // A seat that rested is awake.
    fn risen(self) -> Sleepers {
        if self.coming > 0 {
            Sleepers {
                resting: self.resting,
                coming: self.coming - 1,
            }
        } else {
            Sleepers {
                resting: self.resting.saturating_sub(1),
                coming: 0,
            }
        }
    }

    // So many that rest are woken.
    fn woken(self, count: u32) -> Sleepers {
        Sleepers {
            resting: self.resting.saturating_sub(count),
            coming: self.coming.saturating_add(count),
        }
    }
}

/// The numbers that wakes go by.
#[derive(Drop)]
pub(crate) struct WaitCounts {
    /// How much is left to take, by the last note.
    left: AtomicU64,
    /// The `Sleepers`.
    sleepers: AtomicU64,
    /// How many seats are awake with nothing in hand.
    looking: AtomicU64,
    /// How many seats sleep until the turn is free.
    waiting: AtomicU64,
    /// Counts the wakes. Seats rest on it.
    wakes: AtomicU64,
    /// Never changes. Seats sleep briefly on it, so that no wake is spent on one that is counted as awake.
    still: AtomicU64,
}

impl WaitCounts {
    pub(crate) fn new(left: u64) -> WaitCounts {
        WaitCounts {
            left: AtomicU64::new(left),
            sleepers: AtomicU64::new(0),
            looking: AtomicU64::new(0),
            waiting: AtomicU64::new(0),
            wakes: AtomicU64::new(0),
            still: AtomicU64::new(0),
        }
    }

    /// Says how much is left to take. Only who holds the turn says so.
    pub(crate) fn set_left(&self, left: u64) {
        if self.left.load(SeqCst) != left {
            self.left.store(left, SeqCst);
        }
    }

    /// How much is left to take.
    pub(crate) fn left(&self) -> u64 {
        self.left.load(SeqCst)
    }

    /// A seat is awake with nothing in hand from here on.
    pub(crate) fn start_looking(&self) {
        self.looking.fetch_add(1, SeqCst);
    }

    /// A seat goes to take.
    pub(crate) fn stop_looking(&self) {
        self.looking.fetch_sub(1, SeqCst);
    }

    /// A seat is about to sleep until the turn is free.
    pub(crate) fn start_waiting(&self) {
        self.waiting.fetch_add(1, SeqCst);
    }

    /// It sleeps no more.
    pub(crate) fn stop_waiting(&self) {
        self.waiting.fetch_sub(1, SeqCst);
    }

    /// Whether a seat sleeps until the turn is free.
    pub(crate) fn has_waiting(&self) -> bool {
        self.waiting.load(SeqCst) > 0
    }

    /// Sleeps for a short time. It counts as looking meanwhile.
    pub(crate) fn sleep_briefly<R: Wait>(&self, rt: &R) {
        self.still
            .park_timeout(rt, 0, Duration::from_micros(BRIEF_SLEEP));
    }

    /// Rests until a note wakes the seat, unless something is left to take.
    ///
    /// It is counted before it looks what is left, and a note says what is left before it looks who is counted: so one
    /// of the two sees the other.
    pub(crate) fn rest<R: Wait>(&self, rt: &R) {
        let wakes = self.wakes.load(SeqCst);
        self.sleepers.fetch_add(1, SeqCst);
        self.looking.fetch_sub(1, SeqCst);
        if self.left() == 0 {
            self.wakes.park(rt, low_bits(wakes));
        }
        self.looking.fetch_add(1, SeqCst);
        for _ in rt.forever() {
            let word = self.sleepers.load(SeqCst);
            let risen = Sleepers::of(word).risen().word();
            if self
                .sleepers
                .compare_exchange(word, risen, SeqCst, SeqCst)
                .is_ok()
            {
                return;
            }
        }
    }

    /// Wakes as many of those that rest as there is more left to take than seats that are about to take.
    pub(crate) fn wake_resting(&self) {
        for _ in 0..TRIES {
            let word = self.sleepers.load(SeqCst);
            let sleepers = Sleepers::of(word);
            let count = self.to_wake(sleepers);
            if count == 0 {
                return;
            }
            let woken = sleepers.woken(count).word();
            if self
                .sleepers
                .compare_exchange(word, woken, SeqCst, SeqCst)
                .is_ok()
            {
                return self.wake_some(count, sleepers.resting);
            }
        }
        self.wake_some(1, 1);
    }

    fn to_wake(&self, sleepers: Sleepers) -> u32 {
        if sleepers.resting == 0 {
            return 0;
        }
        let about = self
            .looking
            .load(SeqCst)
            .saturating_add(self.waiting.load(SeqCst))
            .saturating_add(sleepers.coming as u64);
        let more = self.left().saturating_sub(about);
        more.min(sleepers.resting as u64) as u32
    }

    // Wakes so many of those that rest.
    fn wake_some(&self, count: u32, resting: u32) {
        self.wakes.fetch_add(1, SeqCst);
        if count == resting {
            self.wakes.wake_all();
            return;
        }
        for _ in 0..count {
            self.wakes.wake_one();
        }
    }
}

/// Lets the processor pause so often.
pub(crate) fn pause(times: u32) {
    for _ in 0..times {
        spin_loop();
    }
}

/// What `park` compares of a word.
pub(crate) fn low_bits(word: u64) -> u32 {
    (word % (1 << 32)) as u32
}
