//! Which calls of an outside in memory fail, and how many have failed. A call number above 4,294,967,295 is in no
//! list of failing calls, so the counter of calls may stay at its last value.

ghost use Rattle.std.specs.Prelude.{◌≡◌, ◌≤◌, true};
ghost use Rattle.sp_outside.specs.Counts.{Rose};
ghost use Rattle.sp_outside.specs.Plans.{first_plan, fails_next, plan_after_call, with_failed_call};

use crate::count::raised;
use sp_base::List;

/// The numbers, from 0, of the calls that are to fail, and how many calls and faults there were. Both counts stay
/// at their last value, which is no number of a call that fails.
#[derive(Drop)]
pub struct Plan {
    failing: List<u32>,
    calls: u64,
    faults: u64,
}

impl Plan {
    pub fn new(failing: List<u32>) -> Plan
        ensures { result ≡ first_plan failing }
    {
        Plan {
            failing,
            calls: 0,
            faults: 0,
        }
    }

    // Whether the next call is one that is to fail.
    fn fails(&self) -> bool
        ensures { result ≡ fails_next self.now }
    {
        let calls = self.calls;
        self.failing
            .items()
            .iter()
            .any(|number| u64::from(*number) == calls)
    }

    /// Counts a call, and says whether it is one that is to fail: then it counts a fault too.
    pub fn call(&mut self) -> bool
        ensures value { result ≡ fails_next self.old }
        ensures plan { self.new ≡ plan_after_call (fails_next self.old) self.old }
        ensures rose { result ≡ true → Rose self.old.faults self.new.faults }
        ensures counted { self.old.faults ≤ self.new.faults }
    {
        let fails = self.fails();
        self.calls = raised(self.calls);
        if fails {
            self.fault();
        }
        fails
    }

    /// Counts a fault.
    pub fn fault(&mut self)
        ensures value { self.new ≡ with_failed_call self.old }
        ensures rose { Rose self.old.faults self.new.faults }
        ensures counted { self.old.faults ≤ self.new.faults }
    {
        self.faults = raised(self.faults);
    }
}
