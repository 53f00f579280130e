//! Where the bytes of messages come from.

ghost use Rattle.std.specs.Prelude.{◌≡◌, ◌≤◌, ℕ, IfOk, List, Option, length};
ghost use Rattle.std.specs.Io.KnownBytes.{ReadConsumes};

use std::io::Read;

/// A read that failed.
#[derive(Clone, Copy)]
pub struct InFault;

/// A source of bytes.
pub trait In {
    // The bytes that reads will give from here on, where they are known.
    ghost remaining: { Self → Option (List ℕ) };

    /// Puts some bytes into the front of the buffer, and says how many. There are none at the end of the source.
    fn read(&mut self, buffer: &mut [u8]) -> Result<usize, InFault>
        ensures bound { IfOk result (λ n. n ≤ length buffer.new) }
        ensures bytes { ReadConsumes (remaining self.old) (remaining self.new) result buffer.new };
}

/// A source that takes its bytes from a reader.
#[derive(Drop)]
pub struct StdIn<R: Read> {
    reader: R,
}

impl<R: Read> StdIn<R> {
    pub fn new(reader: R) -> StdIn<R>
        ensures { result.reader ≡ reader }
    {
        StdIn { reader }
    }
}

impl<R: Read> In for StdIn<R> {
    ghost remaining = { λ s. R.remaining s.reader };

    fn read(&mut self, buffer: &mut [u8]) -> Result<usize, InFault> {
        match self.reader.read(buffer) {
            Ok(count) => Ok(count),
            Err(_) => Err(InFault),
        }
    }
}
