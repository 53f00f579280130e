// The program: a language server over standard input and output.
#![tactic(auto)]

use sml_client::streams::StdIn;
use sml_reply::sink::StdOut;
use sml_serve::files::Tree;
use sml_serve::session::{out_of_memory, session};
use std::process::ExitCode;
use std::{env, io};

/// The status where memory wasn't there.
const FAILED: u8 = 3;

fn main(rt: HostRuntime) -> ExitCode {
    match status(&rt) {
        Ok(status) => ExitCode::from(status),
        Err(error) => {
            if error.kind() == io::ErrorKind::OutOfMemory {
                let _ = out_of_memory(&mut StdOut::new(rt.stderr()));
            }
            ExitCode::from(FAILED)
        }
    }
}

fn status(rt: &HostRuntime) -> io::Result<u8> {
    let alloc = rt.alloc();
    let words: Vec<String> = env::args(rt)?.collect(alloc)?;
    let folder = env::current_dir(rt)?;
    let mut files = Tree::new(rt);
    let mut input = StdIn::new(rt.stdin());
    let mut out = StdOut::new(rt.stdout());
    let mut err = StdOut::new(rt.stderr());
    let path = folder.as_path();
    let folder = path.to_str().unwrap_or("");
    Ok(session(
        alloc, &words, folder, &mut input, &mut files, &mut out, &mut err,
    ))
}
