//! From the words of a command line to a status.

ghost use Rattle.std.specs.Prelude.{◌≤◌, IfOk, codes};
ghost use Rattle.sml_reply.specs.Sinks.{Prints};

use crate::command_line::{Asked, Wish, asked_by};
use crate::show::show;
use sml_reply::sink::{Out, OutFault, write_all};
use sml_session::files::read_project;
use sml_session::session::Source;
use sml_session::stops::{BAD_PROJECT, Stop, report, say};
use sml_shown::explained::section_of;
use std::alloc::Global;

/// No declaration was refused.
const ALL_ACCEPTED: u8 = 0;

/// Some declaration was refused.
const SOME_REFUSED: u8 = 1;

/// What the program says stands after its name.
const NAME: &[u8] = b"smlshow";

/// Runs the program on the words of its command line, of which the first is its own name, and gives its status.
pub fn session<S: Source, O: Out, E: Out>(
    alloc: Global,
    words: &[String],
    source: &mut S,
    out: &mut O,
    err: &mut E,
) -> u8
    ensures { result ≤ 3 }
{
    match asked_by(alloc, words) {
        Asked::Show(project, wish) => {
            let answer = show_project(alloc, &project, wish, source, out);
            status(answer, err)
        }
        Asked::Explain(code) => explain(code.as_bytes(), out, err),
        Asked::Answer(text) => status(say_all(text.as_bytes(), out), err),
        Asked::Refused(text) => {
            let _ = write_all(err, text.as_bytes());
            BAD_PROJECT
        }
        Asked::Memory => report(NAME, &Stop::Memory, err),
    }
}

/// The status of an answer, or of why there is none, which is said.
fn status<E: Out>(answer: Result<u8, Stop>, err: &mut E) -> u8
    ensures { IfOk answer (λ status. status ≤ 1) → result ≤ 3 }
{
    match answer {
        Ok(status) => status,
        Err(stop) => report(NAME, &stop, err),
    }
}

/// Reads the project and its units, checks them, and writes what is shown of them.
fn show_project<S: Source, O: Out>(
    alloc: Global,
    path: &str,
    wish: Wish,
    source: &mut S,
    out: &mut O,
) -> Result<u8, Stop>
    ensures { IfOk result (λ status. status ≤ 1) }
{
    let listed = read_project(alloc, source, path)?;
    let shown = show(alloc, &listed, wish)?;
    write_all(out, &shown.text)?;
    Ok(if shown.refused == 0 {
        ALL_ACCEPTED
    } else {
        SOME_REFUSED
    })
}

/// Writes the section of a code, if there is one.
fn explain<O: Out, E: Out>(code: &[u8], out: &mut O, err: &mut E) -> u8
    ensures { result ≤ 3 }
{
    match section_of(code) {
        Some(section) => status(say_all(section.text.as_bytes(), out), err),
        None => {
            let _ = say_no_code(code, err);
            BAD_PROJECT
        }
    }
}

fn say_no_code<E: Out>(code: &[u8], err: &mut E) -> Result<(), OutFault> {
    write_all(err, NAME)?;
    write_all(err, b": no code ")?;
    write_all(err, code)?;
    write_all(err, b"\n")
}

fn say_all<O: Out>(text: &[u8], out: &mut O) -> Result<u8, Stop>
    ensures { IfOk result (λ status. status ≤ 1) }
{
    write_all(out, text)?;
    Ok(ALL_ACCEPTED)
}

/// Says that memory was refused.
pub fn out_of_memory<E: Out>(err: &mut E) -> Result<(), OutFault>
    ensures { Prints (E.taken err.old) (E.taken err.new) (E.failures err.old) (E.failures err.new) result (codes "smlshow: out of memory\n") }
{
    say(NAME, &Stop::Memory, err)
}

/// Says that output failed.
pub fn cannot_write<E: Out>(err: &mut E) -> Result<(), OutFault>
    ensures { Prints (E.taken err.old) (E.taken err.new) (E.failures err.old) (E.failures err.new) result (codes "smlshow: cannot write\n") }
{
    say(NAME, &Stop::Write, err)
}
