//! Bytes that are put into a vector whose length is their room.

ghost use Rattle.std.specs.Prelude.{◌≡◌, ◌≤◌, vec_len, vec_capacity};

/// The bytes that have fitted, how many there may be, and whether all that was put has fitted.
#[derive(Drop)]
pub struct OutputBuffer {
    bytes: Vec<u8>,
    size: usize,
    whole: bool,
    ghost within_size: { vec_len bytes ≤ size },
    ghost size_within_capacity: { size ≤ vec_capacity bytes },
}

impl OutputBuffer {
    ghost use Rattle.sp_outside.specs.OutputBuffers.{IsEmptyBuffer, kept_bytes, visible_bytes, IsPut};
    ghost use Rattle.sp_outside.specs.Visible.{Grows};

    /// A buffer as long as the vector, with nothing in it.
    pub fn new(mut bytes: Vec<u8>) -> OutputBuffer
        ensures { IsEmptyBuffer (vec_len bytes) result }
    {
        let size = bytes.len();
        bytes.clear();
        OutputBuffer {
            bytes,
            size,
            whole: true,
        }
    }

    /// Puts as much of the piece as fits. It takes no memory, since the vector has room.
    pub fn put(&mut self, piece: &[u8])
        ensures put { IsPut self.old piece.now self.new }
        ensures told { Grows (visible_bytes self.old) (visible_bytes self.new) piece.now }
    {
        let count = piece.len().min(self.size - self.bytes.len());
        let _ = self.bytes.extend_from_slice(&piece[..count]);
        if count < piece.len() {
            self.whole = false;
        }
    }

    /// What has fitted.
    pub fn fitted(&self) -> &[u8]
        ensures { result.now ≡ kept_bytes self.now }
    {
        self.bytes.as_slice()
    }
}
