//! Sinks in memory: one whose calls may be made to fail, and one whose calls never fail.

ghost use Rattle.std.specs.Prelude.{◌≡◌, ◌↔◌, ◌<◌, ◌≤◌, Ok, min, take, length, IfOk, OnErr, IsErr, IsTrue};
ghost use Rattle.std.specs.Prelude.{vec_len};
ghost use Rattle.sp_outside.specs.Counts.{Rose};
ghost use Rattle.sp_outside.specs.Visible.{Grows};

use crate::failures::Failed;
use crate::output_buffer::OutputBuffer;
use crate::plan::Plan;
use crate::sink::Sink;
use sp_base::List;

/// Takes at most `most` bytes a call and copies them into the vector that it was given, whose length is its room.
/// It tells what was put while all of it has fitted; once something does not fit, the rest is dropped and nothing is
/// told any more. The calls whose numbers, from 0, are in `failing` fail, and no other. It takes no memory.
#[derive(Drop)]
pub struct MemorySink {
    buffer: OutputBuffer,
    most: usize,
    plan: Plan,
    ghost most_not_zero: { 1 ≤ most },
}

impl MemorySink {
    ghost use Rattle.sp_outside.specs.OutputBuffers.{IsEmptyBuffer, kept_bytes};
    ghost use Rattle.sp_outside.specs.Plans.{first_plan};

    pub fn new(room: Vec<u8>, most: usize, failing: List<u32>) -> MemorySink
        requires { 1 ≤ most }
        ensures buffer { IsEmptyBuffer (vec_len room) result.buffer }
        ensures most { result.most ≡ most }
        ensures plan { result.plan ≡ first_plan failing }
    {
        MemorySink {
            buffer: OutputBuffer::new(room),
            most,
            plan: Plan::new(failing),
        }
    }

    /// What has fitted.
    pub fn bytes(&self) -> &[u8]
        ensures { result.now ≡ kept_bytes self.now.buffer }
    {
        self.buffer.fitted()
    }
}

impl Sink for MemorySink {
    ghost use Rattle.sp_outside.specs.OutputBuffers.{visible_bytes, IsPut};
    ghost use Rattle.sp_outside.specs.Plans.{fails_next, plan_after_call};

    ghost written = { λ s. visible_bytes s.buffer };

    ghost faults = { λ s. s.plan.faults };

    fn put(&mut self, piece: &[u8]) -> Result<usize, Failed>
        ensures within { IfOk result (λ n. n ≤ length piece.now) }
        ensures some { IfOk result (λ n. 0 < length piece.now → 0 < n) }
        ensures ok { IfOk result
            (λ n. Grows (visible_bytes self.old.buffer) (visible_bytes self.new.buffer) (take n piece.now)) }
        ensures failed { OnErr result (Rose self.old.plan.faults self.new.plan.faults) }
        ensures unchanged { OnErr result (visible_bytes self.new.buffer ≡ visible_bytes self.old.buffer) }
        ensures counted { self.old.plan.faults ≤ self.new.plan.faults }

        // Exactly the calls that are to fail do. What fits of the bytes taken is kept.
        ensures exact { IsErr result ↔ IsTrue (fails_next self.old.plan) }
        ensures plan { self.new.plan ≡ plan_after_call (fails_next self.old.plan) self.old.plan }
        ensures most { self.new.most ≡ self.old.most }
        ensures count { IfOk result (λ n. n ≡ min (length piece.now) self.old.most) }
        ensures kept { IfOk result (λ n. IsPut self.old.buffer (take n piece.now) self.new.buffer) }
        ensures same { OnErr result (self.new.buffer ≡ self.old.buffer) }
    {
        if self.plan.call() {
            return Err(Failed);
        }
        let count = piece.len().min(self.most);
        self.buffer.put(&piece[..count]);
        Ok(count)
    }
}

/// Takes every piece whole, and otherwise is as a `MemorySink` of which no call fails.
#[derive(Drop)]
pub struct SureSink {
    buffer: OutputBuffer,
}

impl SureSink {
    ghost use Rattle.sp_outside.specs.OutputBuffers.{IsEmptyBuffer, kept_bytes};

    pub fn new(room: Vec<u8>) -> SureSink
        ensures { IsEmptyBuffer (vec_len room) result.buffer }
    {
        SureSink {
            buffer: OutputBuffer::new(room),
        }
    }

    /// What has fitted.
    pub fn bytes(&self) -> &[u8]
        ensures { result.now ≡ kept_bytes self.now.buffer }
    {
        self.buffer.fitted()
    }
}

impl Sink for SureSink {
    ghost use Rattle.sp_outside.specs.OutputBuffers.{visible_bytes, IsPut};

    ghost written = { λ s. visible_bytes s.buffer };

    ghost faults = { λ _. 0 };

    fn put(&mut self, piece: &[u8]) -> Result<usize, Failed>
        ensures within { IfOk result (λ n. n ≤ length piece.now) }
        ensures some { IfOk result (λ n. 0 < length piece.now → 0 < n) }
        ensures ok { IfOk result
            (λ n. Grows (visible_bytes self.old.buffer) (visible_bytes self.new.buffer) (take n piece.now)) }
        ensures failed { OnErr result (Rose 0 0) }
        ensures unchanged { OnErr result (visible_bytes self.new.buffer ≡ visible_bytes self.old.buffer) }
        ensures counted { 0 ≤ 0 }

        // Each piece is taken whole. What fits of it is kept.
        ensures all { result ≡ Ok (length piece.now) }
        ensures kept { IsPut self.old.buffer piece.now self.new.buffer }
    {
        self.buffer.put(piece);
        Ok(piece.len())
    }
}
