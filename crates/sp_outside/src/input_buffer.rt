//! Bytes that are given out from the first to the last.

ghost use Rattle.std.specs.Prelude.{◌≡◌, ◌≤◌, ◌++◌, take, drop, length, min, vec_len};

/// The bytes, and how many of them were given.
#[derive(Drop)]
pub struct InputBuffer {
    bytes: Vec<u8>,
    given: usize,
    ghost given_in_bytes: { given ≤ vec_len bytes },
}

impl InputBuffer {
    ghost use Rattle.sp_outside.specs.InputBuffers.{bytes_left};

    pub fn new(bytes: Vec<u8>) -> InputBuffer
        ensures { bytes_left result ≡ bytes.items }
    {
        InputBuffer { bytes, given: 0 }
    }

    /// Moves the next bytes into the front of the buffer, as many as it takes and `most` allows.
    pub fn give(&mut self, buf: &mut [u8], most: usize) -> usize
        ensures count { result ≡ min (min (length buf.old) most) (length (bytes_left self.old)) }
        ensures moved { bytes_left self.old ≡ take result buf.new ++ bytes_left self.new }
        ensures rest { drop result buf.new ≡ drop result buf.old }
    {
        let (_, left) = self.bytes.as_slice().split_at(self.given);
        let count = buf.len().min(most).min(left.len());
        buf[..count].copy_from_slice(&left[..count]);
        self.given += count;
        count
    }
}
