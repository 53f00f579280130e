//! From the bytes of a client to a status.

ghost use Rattle.std.specs.Prelude.{codes};
ghost use Rattle.sml_reply.specs.Sinks.{Prints};

use crate::files::Folders;
use crate::server::Server;
use sml_client::command_line::{Asked, asked_by};
use sml_client::frames::{Broken, Frame, Held, next_frame};
use sml_client::streams::In;
use sml_lex::fault::Memory;
use sml_reply::sink::{Out, OutFault, VecOut, write_all};
use sml_session::session::Source;
use std::alloc::Global;

/// The status where a text was printed.
const SERVED: u8 = 0;

/// The status where the command line has a fault.
const BAD_WORDS: u8 = 2;

/// The status where the input ended or failed, or output did, or memory wasn't there.
const FAILED: u8 = 3;

/// Why a session ends early.
#[derive(Clone, Copy)]
enum Stop {
    Ended,
    CutOff,
    Read,
    Write,
    Memory,
}

impl From<Memory> for Stop {
    fn from(_memory: Memory) -> Stop {
        Stop::Memory
    }
}

impl From<OutFault> for Stop {
    fn from(_fault: OutFault) -> Stop {
        Stop::Write
    }
}

impl From<Broken> for Stop {
    fn from(broken: Broken) -> Stop {
        match broken {
            Broken::Read => Stop::Read,
            Broken::Memory => Stop::Memory,
        }
    }
}

/// Does what the words of a command line ask for, of which the first is the program's own name, and gives the status.
pub fn session<I: In, S: Source + Folders, O: Out, E: Out>(
    alloc: Global,
    words: &[String],
    folder: &str,
    input: &mut I,
    files: &mut S,
    out: &mut O,
    err: &mut E,
) -> u8 {
    match asked_by(words) {
        Asked::Serve => serve(alloc, folder, input, files, out, err),
        Asked::Answer(text) => match write_all(out, text) {
            Ok(_) => SERVED,
            Err(_) => report(Stop::Write, err),
        },
        Asked::Refused(text) => {
            let _ = write_all(err, text);
            BAD_WORDS
        }
    }
}

/// Serves a client until it ends the session, and gives the status. Relative paths lie in this folder where the client
/// names no root.
pub fn serve<I: In, S: Source + Folders, O: Out, E: Out>(
    alloc: Global,
    folder: &str,
    input: &mut I,
    files: &mut S,
    out: &mut O,
    err: &mut E,
) -> u8 {
    match turns(alloc, folder, input, files, out) {
        Ok(status) => status,
        Err(stop) => report(stop, err),
    }
}

/// Says why a session ends early, and gives its status.
fn report<E: Out>(stop: Stop, err: &mut E) -> u8 {
    let _ = write_all(err, text_of(stop));
    FAILED
}

/// Reads messages and answers them.
fn turns<I: In, S: Source + Folders, O: Out>(
    alloc: Global,
    folder: &str,
    input: &mut I,
    files: &mut S,
    out: &mut O,
) -> Result<u8, Stop> {
    let mut held = Held::new(alloc)?;
    let mut server = Server::new(alloc, folder)?;
    turns_of(&mut held, &mut server, input, files, out)
}

/// Reads messages and answers them, with these bytes and this server.
fn turns_of<I: In, S: Source + Folders, O: Out>(
    held: &mut Held,
    server: &mut Server,
    input: &mut I,
    files: &mut S,
    out: &mut O,
) -> Result<u8, Stop> {
    for _ in 0..u64::MAX {
        let frame = next_frame(held, input)?;
        if let Some(status) = turn(held, server, &frame, files, out)? {
            return Ok(status);
        }
    }
    Err(Stop::Ended)
}

/// Takes a frame. What changed is checked once no other message has begun to come.
fn turn<S: Source + Folders, O: Out>(
    held: &Held,
    server: &mut Server,
    frame: &Frame,
    files: &mut S,
    out: &mut O,
) -> Result<Option<u8>, Stop> {
    match frame {
        Frame::Ended => return Err(Stop::Ended),
        Frame::CutOff => return Err(Stop::CutOff),
        Frame::Body(_) | Frame::NoLength | Frame::TooLarge => {}
    }
    let status = take(server, frame, files, out)?;
    if status.is_none() && !held.has_more() {
        begin(server, files, out)?;
        settle(server, files, out)?;
    }
    Ok(status)
}

/// Takes a frame, and writes what is answered to it.
fn take<S: Source + Folders, O: Out>(
    server: &mut Server,
    frame: &Frame,
    files: &mut S,
    out: &mut O,
) -> Result<Option<u8>, Stop> {
    let mut answers = VecOut::new(server.alloc);
    let taken = server.take(frame, files, &mut answers);
    written(taken, &answers, out)
}

/// Begins to check what changed, and writes what the client is told first.
fn begin<S: Source + Folders, O: Out>(
    server: &mut Server,
    files: &mut S,
    out: &mut O,
) -> Result<(), Stop> {
    let mut first = VecOut::new(server.alloc);
    let begun = server.begin(files, &mut first);
    written(begun, &first, out)
}

/// Checks what changed, and writes what the client is told.
fn settle<S: Source + Folders, O: Out>(
    server: &mut Server,
    files: &mut S,
    out: &mut O,
) -> Result<(), Stop> {
    let mut rest = VecOut::new(server.alloc);
    let settled = server.settle(files, &mut rest);
    written(settled, &rest, out)
}

/// Writes the answers to what was done, unless memory was refused.
fn written<T: Drop, O: Out>(
    done: Result<T, Memory>,
    answers: &VecOut,
    out: &mut O,
) -> Result<T, Stop> {
    let value = done?;
    write_all(out, answers.bytes())?;
    Ok(value)
}

/// What is said where a session ends early.
fn text_of(stop: Stop) -> &'static [u8] {
    match stop {
        Stop::Ended => b"smlserve: input ended\n",
        Stop::CutOff => b"smlserve: input ended inside a message\n",
        Stop::Read => b"smlserve: cannot read\n",
        Stop::Write => CANNOT_WRITE,
        Stop::Memory => OUT_OF_MEMORY,
    }
}

const CANNOT_WRITE: &[u8] = b"smlserve: cannot write\n";

const OUT_OF_MEMORY: &[u8] = b"smlserve: out of memory\n";

/// Says that memory was refused.
pub fn out_of_memory<E: Out>(err: &mut E) -> Result<(), OutFault>
    ensures { Prints (E.taken err.old) (E.taken err.new) (E.failures err.old) (E.failures err.new) result (codes "smlserve: out of memory\n") }
{
    write_all(err, OUT_OF_MEMORY)
}
