//! Where the text of replies goes.

ghost use Rattle.std.specs.Prelude.{◌≡◌, ◌≤◌, ℕ, List, [], Option, Some, length, map, IfOk, is_ok, if◌then◌else◌};
ghost use Rattle.std.specs.Io.KnownBytes.{Keeps, WriteAppends};
ghost use Rattle.sml_reply.specs.Sinks.{failures_after, in_turn, one_more, Prints};

use std::alloc::Global;
use std::io::Write;

/// A call of a sink that failed.
#[derive(Clone, Copy, PartialEq, Eq, Debug)]
pub struct OutFault;

/// A sink of bytes. A count of 0 for a nonempty slice counts as a failure.
pub trait Out {
    // The bytes taken so far, where they are known.
    ghost taken: { Self → Option (List ℕ) };

    // How many calls failed. The count stops at the greatest number of its type.
    ghost failures: { Self → ℕ };

    /// Takes some bytes from the front of the slice, and says how many.
    fn write(&mut self, bytes: &[u8]) -> Result<usize, OutFault>
        ensures bound { IfOk result (λ n. n ≤ length bytes.now) }
        ensures appended { WriteAppends (taken self.old) (taken self.new) result bytes.now }
        ensures counted { failures self.new ≡ failures_after (failures self.old) result bytes.now };
}

/// A sink that keeps the bytes. A refused growth is a failed call.
#[derive(Drop)]
pub struct VecOut {
    bytes: Vec<u8>,
    failures: u64,
}

impl VecOut {
    /// A sink that took nothing yet.
    pub fn new(alloc: Global) -> VecOut
        ensures bytes { result.bytes.items ≡ [] }
        ensures failures { result.failures ≡ 0 }
    {
        VecOut {
            bytes: Vec::new(alloc),
            failures: 0,
        }
    }

    /// The bytes taken so far.
    pub fn bytes(&self) -> &[u8]
        ensures { result.now ≡ self.now.bytes.items }
    {
        self.bytes.as_slice()
    }
}

impl Out for VecOut {
    ghost taken = { λ s. Some s.bytes.items };

    ghost failures = { λ s. s.failures };

    fn write(&mut self, bytes: &[u8]) -> Result<usize, OutFault> {
        match self.bytes.extend_from_slice(bytes) {
            Ok(_) => Ok(bytes.len()),
            Err(_) => {
                self.failures = self.failures.saturating_add(1);
                Err(OutFault)
            }
        }
    }
}

/// A sink that hands the bytes on to a writer.
#[derive(Drop)]
pub struct StdOut<W: Write> {
    writer: W,
    failures: u64,
}

impl<W: Write> StdOut<W> {
    /// A sink that took what the writer holds.
    pub fn new(writer: W) -> StdOut<W>
        ensures writer { result.writer ≡ writer }
        ensures failures { result.failures ≡ 0 }
    {
        StdOut {
            writer,
            failures: 0,
        }
    }

    /// Flushes the writer. A flush that fails is a failed call of the sink.
    pub fn flush(&mut self) -> Result<(), OutFault>
        ensures kept { Keeps (W.contents self.old.writer) (W.contents self.new.writer) }
        ensures counted { self.new.failures ≡ (if is_ok result then self.old.failures else one_more self.old.failures) }
    {
        match self.writer.flush() {
            Ok(_) => Ok(()),
            Err(_) => {
                self.failures = self.failures.saturating_add(1);
                Err(OutFault)
            }
        }
    }
}

impl<W: Write> Out for StdOut<W> {
    ghost taken = { λ s. W.contents s.writer };

    ghost failures = { λ s. s.failures };

    fn write(&mut self, bytes: &[u8]) -> Result<usize, OutFault> {
        match self.writer.write(bytes) {
            Ok(count) => {
                if count == 0 && !bytes.is_empty() {
                    self.failures = self.failures.saturating_add(1);
                }
                Ok(count)
            }
            Err(_) => {
                self.failures = self.failures.saturating_add(1);
                Err(OutFault)
            }
        }
    }
}

/// Writes the whole slice.
pub fn write_all<O: Out>(out: &mut O, bytes: &[u8]) -> Result<(), OutFault>
    ensures { Prints (O.taken out.old) (O.taken out.new) (O.failures out.old) (O.failures out.new) result bytes.now }
{
    let mut start = 0;
    while start < bytes.len() {
        match out.write(&bytes[start..]) {
            Ok(0) => return Err(OutFault),
            Ok(count) => start += count,
            Err(fault) => return Err(fault),
        }
    }
    Ok(())
}

/// Writes the slices, one after the other.
pub fn write_each<O: Out>(out: &mut O, parts: &[&[u8]]) -> Result<(), OutFault>
    ensures { Prints (O.taken out.old) (O.taken out.new) (O.failures out.old) (O.failures out.new) result (in_turn (map (λ p. p.now) parts.now)) }
{
    for part in parts {
        match write_all(out, *part) {
            Ok(_) => {}
            Err(fault) => return Err(fault),
        }
    }
    Ok(())
}
