//! Files of the system as a library (`FileLibrary`). What they hold is not told, since no contract can say it.

ghost use Rattle.std.specs.Prelude.{◌≡◌, None, IfOk, IfSome, take};

use crate::count::raised;
use crate::failures::LoadError;
use crate::library::Library;
use std::alloc::Global;
use std::io::{ErrorKind, Read};
use std::rt::Files;
use std::{fs, io};

/// The files of the runtime, each under its path. Each error of the system but want of memory is a fault.
#[derive(Drop)]
pub struct FileLibrary<'a, R: Files> {
    rt: &'a R,
    faults: u64,
}

impl<'a, R: Files> FileLibrary<'a, R> {
    pub fn new(rt: &'a R) -> FileLibrary<'a, R>
        ensures { result.faults ≡ 0 }
    {
        FileLibrary { rt, faults: 0 }
    }
}

impl<R: Files> Library for FileLibrary<'_, R> {
    ghost held = { λ _ _. None };

    ghost faults = { λ l _. l.faults };

    fn load(&mut self, alloc: Global, name: &str, limit: u32) -> Result<Vec<u8>, LoadError> {
        match read_file(self.rt, alloc, name, limit) {
            Ok(bytes) => {
                if bytes.len() > limit as usize {
                    return Err(LoadError::TooLong);
                }
                Ok(bytes)
            }
            Err(error) => {
                if error.kind() == ErrorKind::OutOfMemory {
                    return Err(LoadError::Memory);
                }
                self.faults = raised(self.faults);
                Err(LoadError::Failed)
            }
        }
    }
}

/// The bytes of a file, but no more than `limit` and one of them.
fn read_file<R: Files>(rt: &R, alloc: Global, name: &str, limit: u32) -> io::Result<Vec<u8>> {
    read_first(alloc, fs::open(rt, name)?, u64::from(limit) + 1)
}

/// The first `count` bytes that the reader gives, or all of them.
fn read_first<F: Read>(alloc: Global, reader: F, count: u64) -> io::Result<Vec<u8>>
where
    F: Drop,
    ensures { IfOk result (λ bytes. IfSome (F.remaining reader) (λ all. bytes.items ≡ take count all)) }
{
    let mut bytes = Vec::new(alloc);
    reader.take(count).read_to_end(&mut bytes)?;
    Ok(bytes)
}
