//! Frames: a head, and as many bytes as it tells.

ghost use Rattle.std.specs.Prelude.{◌≡◌, ◌∷◌, ◌==◌, ◌||◌, ℕ, List, [], Option, IfOk, OnOk, codes, decimal, length, not, take, drop};
ghost use Rattle.std.specs.List.{list_any};
ghost use Rattle.std.specs.Io.KnownBytes.{Keeps};
ghost use Rattle.sml_reply.specs.Sinks.{Prints, in_turn};
ghost use Rattle.sml_client.specs.Streams.{IsSkipped, IsTaken, IsTakenAfter, stream};

use crate::heads::{Head, head_of};
use crate::streams::In;
use itoa::Buffer;
use sml_lex::fault::Memory;
use sml_reply::sink::{Out, OutFault, write_each};
use std::alloc::{AllocError, Global};
use std::mem::replace;

/// How many bytes are asked for at once.
const CHUNK: usize = 65_536;

/// How many bytes the body of a frame has at most: 16 MiB.
const MOST_BYTES: u64 = 16_777_216;

/// Why no frame can be read.
#[derive(Clone, Copy)]
pub enum Broken {
    Read,
    Memory,
}

impl From<AllocError> for Broken {
    fn from(_error: AllocError) -> Broken {
        Broken::Memory
    }
}

/// What was read.
#[derive(Drop)]
pub enum Frame {
    /// The bytes after a head.
    Body(Vec<u8>),
    /// A head that tells no length. It was passed over.
    NoLength,
    /// A frame over the limit. It was passed over.
    TooLarge,
    /// The source ended between frames.
    Ended,
    /// The source ended inside a frame.
    CutOff,
}

/// The bytes that were read and not yet taken.
#[derive(Drop)]
pub struct Held {
    alloc: Global,
    bytes: Vec<u8>,
    chunk: Vec<u8>,
}

impl Held {
    pub fn new(alloc: Global) -> Result<Held, Memory>
        ensures { IfOk result (λ h. h.bytes.items ≡ []) }
    {
        Ok(Held {
            alloc,
            bytes: Vec::new(alloc),
            chunk: vec![in alloc; 0; CHUNK]?,
        })
    }

    /// Whether the beginning of another frame was read.
    pub fn has_more(&self) -> bool
        ensures { result ≡ list_any (λ b. not (b == 13 || b == 10)) self.now.bytes.items }
    {
        self.bytes
            .iter()
            .any(|byte| !(*byte == b'\r' || *byte == b'\n'))
    }

    /// Takes the first so many bytes, or all where there are fewer.
    fn take(&mut self, count: usize) -> Result<Vec<u8>, Broken>
        ensures taken { IfOk result (λ b. b.items ≡ take count self.old.bytes.items) }
        ensures left { OnOk result (self.new.bytes.items ≡ drop count self.old.bytes.items) }
    {
        let count = count.min(self.bytes.len());
        let rest = Vec::from_slice(self.alloc, &self.bytes[count..])?;
        let mut taken = replace(&mut self.bytes, rest);
        taken.truncate(count);
        Ok(taken)
    }

    /// Reads some more bytes, and says whether there were any.
    fn fill<I: In>(&mut self, input: &mut I) -> Result<bool, Broken>
        ensures { OnOk result (Keeps (stream self.old.bytes.items (I.remaining input.old)) (stream self.new.bytes.items (I.remaining input.new))) }
    {
        let Ok(count) = input.read(self.chunk.as_mut_slice()) else {
            return Err(Broken::Read);
        };
        self.bytes.extend_from_slice(&self.chunk[..count])?;
        Ok(count > 0)
    }
}

/// The next frame. A body is the bytes of the stream after its head, as many as that tells; what stands after it is left.
pub fn next_frame<I: In>(held: &mut Held, input: &mut I) -> Result<Frame, Broken>
    ensures { IfOk result (IsTaken (stream held.old.bytes.items (I.remaining input.old)) (stream held.new.bytes.items (I.remaining input.new))) }
{
    for _ in 0..u64::MAX {
        match head_of(&held.bytes) {
            Head::Open => {
                if !held.fill(input)? {
                    return Ok(end_of(held));
                }
            }
            Head::Blank(size) => {
                held.take(size)?;
            }
            Head::Bad(size) => {
                held.take(size)?;
                return Ok(Frame::NoLength);
            }
            Head::Whole(size, length) => {
                held.take(size)?;
                return body(held, input, length);
            }
        }
    }
    Ok(Frame::Ended)
}

/// What is read at the end of the source.
fn end_of(held: &Held) -> Frame
    ensures { (old new : Option (List ℕ)) → IsTaken old new result }
{
    if held.has_more() {
        Frame::CutOff
    } else {
        Frame::Ended
    }
}

/// The frame of this length, after its head.
fn body<I: In>(held: &mut Held, input: &mut I, size: u64) -> Result<Frame, Broken>
    ensures { IfOk result (IsTakenAfter size (stream held.old.bytes.items (I.remaining input.old)) (stream held.new.bytes.items (I.remaining input.new))) }
{
    if size > MOST_BYTES {
        return skip(held, input, size);
    }
    for _ in 0..u64::MAX {
        if held.bytes.len() as u64 >= size {
            return Ok(Frame::Body(held.take(size as usize)?));
        }
        if !held.fill(input)? {
            return Ok(Frame::CutOff);
        }
    }
    Ok(Frame::CutOff)
}

/// Passes over so many bytes.
fn skip<I: In>(held: &mut Held, input: &mut I, length: u64) -> Result<Frame, Broken>
    ensures { IfOk result (IsSkipped (stream held.old.bytes.items (I.remaining input.old)) (stream held.new.bytes.items (I.remaining input.new))) }
{
    let mut left = length;
    for _ in 0..u64::MAX {
        let count = (held.bytes.len() as u64).min(left);
        held.take(count as usize)?;
        left = left.saturating_sub(count);
        if left == 0 {
            return Ok(Frame::TooLarge);
        }
        if !held.fill(input)? {
            return Ok(Frame::CutOff);
        }
    }
    Ok(Frame::CutOff)
}

/// Writes a frame: its head, which tells the length of the body, and the body.
pub fn write_frame<O: Out>(out: &mut O, body: &[u8]) -> Result<(), OutFault>
    ensures { Prints (O.taken out.old) (O.taken out.new) (O.failures out.old) (O.failures out.new) result
        (in_turn (codes "Content-Length: " ∷ decimal (length body.now) ∷ codes "\r\n\r\n" ∷ body.now ∷ [])) }
{
    let mut digits = Buffer::new();
    let parts: [&[u8]; 4] = [
        b"Content-Length: ",
        digits.format(body.len()).as_bytes(),
        b"\r\n\r\n",
        body,
    ];
    write_each(out, &parts)
}
