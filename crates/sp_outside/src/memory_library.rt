//! Libraries in memory: one whose calls may be made to fail, and one whose calls never fail.

ghost use Rattle.std.specs.Prelude.{◌≡◌, ◌≢◌, ◌↔◌, ◌||◌, ℕ, List, [], Some, None, is_none, ◌<◌, ◌≤◌, length, IfOk};
ghost use Rattle.std.specs.Prelude.{IfSome, IsTrue, vec_len, unwrap_or};
ghost use Rattle.std.specs.Option.{option_copied};
ghost use Rattle.sp_outside.specs.Counts.{Rose};
ghost use Rattle.sp_outside.specs.Plans.{fails_next, plan_after_call, first_plan};
ghost use Rattle.sp_outside.specs.Files.{bytes_under};

use crate::failures::LoadError;
use crate::library::Library;
use crate::plan::Plan;
use sp_base::{List, Text};
use std::alloc::Global;

/// Files in memory, of which the first one under a name counts. It tells its bytes. The calls whose numbers, from 0,
/// are in `failing` fail, and so does each call with a name that is not there. No other call does.
#[derive(Drop)]
pub struct MemoryLibrary {
    files: List<(Text, Text)>,
    plan: Plan,
}

impl MemoryLibrary {
    pub fn new(files: List<(Text, Text)>, failing: List<u32>) -> MemoryLibrary
        ensures { result ≡ record { files = files; plan = first_plan failing } }
    {
        MemoryLibrary {
            files,
            plan: Plan::new(failing),
        }
    }
}

impl Library for MemoryLibrary {
    ghost held = { λ l name. bytes_under l.files name };

    ghost faults = { λ l _. l.plan.faults };

    fn load(&mut self, alloc: Global, name: &str, limit: u32) -> Result<Vec<u8>, LoadError>
        ensures ok { IfOk result (λ bytes. IfSome (bytes_under self.old.files name.now) (λ all. bytes.items ≡ all)) }
        ensures fits { IfOk result (λ bytes. vec_len bytes ≤ limit) }
        ensures too_long { IfSome (bytes_under self.old.files name.now) (λ all.
            (result ≡ Err LoadError.TooLong) ↔ ((limit < length all) × (result ≢ Err LoadError.Failed))) }
        ensures failed { result ≡ Err LoadError.Failed → Rose self.old.plan.faults self.new.plan.faults }
        ensures counted { List ℕ → self.old.plan.faults ≤ self.new.plan.faults }
        ensures unchanged { (other : List ℕ) → bytes_under self.new.files other ≡ bytes_under self.old.files other }

        // Exactly the calls that are to fail do, and those with a name that is not there.
        ensures exact { (result ≡ Err LoadError.Failed) ↔
            IsTrue (fails_next self.old.plan || is_none (bytes_under self.old.files name.now)) }
        ensures plan { self.new.plan ≡
            plan_after_call (fails_next self.old.plan || is_none (bytes_under self.old.files name.now)) self.old.plan }
    {
        if self.plan.call() {
            return Err(LoadError::Failed);
        }
        let Some(text) = find(self.files.items(), name) else {
            self.plan.fault();
            return Err(LoadError::Failed);
        };
        copy_within(alloc, text.bytes(), limit)
    }
}

/// As a `MemoryLibrary` of which no call fails: under a name that is not in its files it holds the empty text.
#[derive(Drop)]
pub struct SureLibrary {
    files: List<(Text, Text)>,
}

impl SureLibrary {
    pub fn new(files: List<(Text, Text)>) -> SureLibrary
        ensures { result ≡ record { files = files } }
    {
        SureLibrary { files }
    }
}

impl Library for SureLibrary {
    ghost held = { λ l name. Some (unwrap_or (bytes_under l.files name) []) };

    ghost faults = { λ _ _. 0 };

    fn load(&mut self, alloc: Global, name: &str, limit: u32) -> Result<Vec<u8>, LoadError> {
        match find(self.files.items(), name) {
            Some(text) => copy_within(alloc, text.bytes(), limit),
            None => copy_within(alloc, &[], limit),
        }
    }
}

/// The text of the first file of this name.
fn find<'a>(files: &'a [(Text, Text)], name: &str) -> Option<&'a Text>
    ensures { option_copied result ≡ bytes_under files.now name.now }
{
    for file in files {
        if name.as_bytes() == file.0.bytes() {
            return Some(&file.1);
        }
    }
    None
}

/// A copy of the bytes, if they are no more than the limit.
fn copy_within(alloc: Global, bytes: &[u8], limit: u32) -> Result<Vec<u8>, LoadError>
    ensures ok { IfOk result (λ copy. copy.items ≡ bytes.now) }
    ensures too_long { (result ≡ Err LoadError.TooLong) ↔ (limit < length bytes.now) }
    ensures sure { result ≢ Err LoadError.Failed }
{
    if bytes.len() > limit as usize {
        return Err(LoadError::TooLong);
    }
    Ok(Vec::from_slice(alloc, bytes)?)
}
