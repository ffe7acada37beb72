//! Sources in memory: one whose calls may be made to fail, and one whose calls never fail.

ghost use Rattle.std.specs.Prelude.{◌≡◌, ◌↔◌, ◌<◌, ◌≤◌, Some, Ok, min, take, drop, length, IfOk, OnErr, IsErr, IsTrue};
ghost use Rattle.sp_outside.specs.Visible.{Shrinks, IsAtEnd};
ghost use Rattle.sp_outside.specs.Counts.{Rose};

use crate::failures::Failed;
use crate::input_buffer::InputBuffer;
use crate::plan::Plan;
use crate::source::Source;
use sp_base::List;

/// Gives at most `most` bytes a call, and tells what is left. The calls whose numbers, from 0, are in `failing`
/// fail, and no other.
#[derive(Drop)]
pub struct MemorySource {
    buffer: InputBuffer,
    most: usize,
    plan: Plan,
    ghost most_not_zero: { 1 ≤ most },
}

impl MemorySource {
    ghost use Rattle.sp_outside.specs.InputBuffers.{bytes_left};
    ghost use Rattle.sp_outside.specs.Plans.{first_plan};

    pub fn new(bytes: Vec<u8>, most: usize, failing: List<u32>) -> MemorySource
        requires { 1 ≤ most }
        ensures left { bytes_left result.buffer ≡ bytes.items }
        ensures most { result.most ≡ most }
        ensures plan { result.plan ≡ first_plan failing }
    {
        MemorySource {
            buffer: InputBuffer::new(bytes),
            most,
            plan: Plan::new(failing),
        }
    }
}

impl Source for MemorySource {
    ghost use Rattle.sp_outside.specs.InputBuffers.{bytes_left};
    ghost use Rattle.sp_outside.specs.Plans.{fails_next, plan_after_call};

    ghost left = { λ s. Some (bytes_left s.buffer) };

    ghost faults = { λ s. s.plan.faults };

    fn take(&mut self, buf: &mut [u8]) -> Result<usize, Failed>
        ensures within { IfOk result (λ n. n ≤ length buf.old) }
        ensures moved { IfOk result (λ n.
            Shrinks (Some (bytes_left self.old.buffer)) (Some (bytes_left self.new.buffer)) (take n buf.new)) }
        ensures rest { IfOk result (λ n. drop n buf.new ≡ drop n buf.old) }
        ensures end { IfOk result (λ n. n ≡ 0 → 0 < length buf.old → IsAtEnd (Some (bytes_left self.old.buffer))) }
        ensures failed { OnErr result (Rose self.old.plan.faults self.new.plan.faults) }
        ensures unchanged { OnErr result (Some (bytes_left self.new.buffer) ≡ Some (bytes_left self.old.buffer)) }
        ensures counted { self.old.plan.faults ≤ self.new.plan.faults }

        // Exactly the calls that are to fail do, and the others give all that they may.
        ensures exact { IsErr result ↔ IsTrue (fails_next self.old.plan) }
        ensures plan { self.new.plan ≡ plan_after_call (fails_next self.old.plan) self.old.plan }
        ensures most { self.new.most ≡ self.old.most }
        ensures count { IfOk result (λ n. n ≡ min (min (length buf.old) self.old.most)
            (length (bytes_left self.old.buffer))) }
    {
        if self.plan.call() {
            return Err(Failed);
        }
        Ok(self.buffer.give(buf, self.most))
    }
}

/// As a `MemorySource` of which no call fails, and that gives as many bytes a call as the buffer takes.
#[derive(Drop)]
pub struct SureSource {
    buffer: InputBuffer,
}

impl SureSource {
    ghost use Rattle.sp_outside.specs.InputBuffers.{bytes_left};

    pub fn new(bytes: Vec<u8>) -> SureSource
        ensures { bytes_left result.buffer ≡ bytes.items }
    {
        SureSource {
            buffer: InputBuffer::new(bytes),
        }
    }
}

impl Source for SureSource {
    ghost use Rattle.sp_outside.specs.InputBuffers.{bytes_left};

    ghost left = { λ s. Some (bytes_left s.buffer) };

    ghost faults = { λ _. 0 };

    fn take(&mut self, buf: &mut [u8]) -> Result<usize, Failed>
        ensures within { IfOk result (λ n. n ≤ length buf.old) }
        ensures moved { IfOk result (λ n.
            Shrinks (Some (bytes_left self.old.buffer)) (Some (bytes_left self.new.buffer)) (take n buf.new)) }
        ensures rest { IfOk result (λ n. drop n buf.new ≡ drop n buf.old) }
        ensures end { IfOk result (λ n. n ≡ 0 → 0 < length buf.old → IsAtEnd (Some (bytes_left self.old.buffer))) }
        ensures failed { OnErr result (Rose 0 0) }
        ensures unchanged { OnErr result (Some (bytes_left self.new.buffer) ≡ Some (bytes_left self.old.buffer)) }
        ensures counted { 0 ≤ 0 }

        // Each call gives all that it may.
        ensures all { result ≡ Ok (min (length buf.old) (length (bytes_left self.old.buffer))) }
    {
        let most = buf.len();
        Ok(self.buffer.give(buf, most))
    }
}
