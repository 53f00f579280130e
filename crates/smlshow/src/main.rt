// The program: checks the units of a project, and shows where their faults are.
#![tactic(auto)]

use sml_reply::sink::StdOut;
use sml_session::disk::Disk;
use sml_show::session::{cannot_write, out_of_memory, session};
use std::env;
use std::io::{self, BufWriter};
use std::process::ExitCode;
use std::rt::Files;

/// The status where output failed, or memory for the words wasn't there.
const FAILED: u8 = 3;

fn main(rt: HostRuntime) -> ExitCode {
    match status(&rt) {
        Ok(status) => ExitCode::from(status),
        Err(error) => {
            if error.kind() == io::ErrorKind::OutOfMemory {
                let _ = out_of_memory(&mut StdOut::new(rt.stderr()));
            }
            ExitCode::from(FAILED)
        }
    }
}

fn status(rt: &HostRuntime) -> io::Result<u8> {
    let alloc = rt.alloc();
    let words: Vec<String> = env::args(rt)?.collect(alloc)?;
    let mut source = Disk::new(rt);
    let mut out = StdOut::new(BufWriter::new(alloc, io::writer(rt))?);
    let mut err = StdOut::new(rt.stderr());
    let status = session(alloc, &words, &mut source, &mut out, &mut err);
    if status != FAILED && out.flush().is_err() {
        let _ = cannot_write(&mut err);
        return Ok(FAILED);
    }
    Ok(status)
}
