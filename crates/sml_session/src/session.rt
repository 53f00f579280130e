//! From the words of a command line to a status.

ghost use Rattle.std.specs.Prelude.{◌≡◌, ◌==◌, ℕ, IfOk, List, codes, cond, map, ⊤};
ghost use Rattle.std.specs.String.{string_bytes};
ghost use Rattle.sml_projects.specs.Orders.{unit_texts};
ghost use Rattle.sml_reply.specs.Sinks.{Prints};
ghost use Rattle.sml_session.specs.Files.{Only};
ghost use Rattle.sml_session.specs.Sessions.{Answers, Ends, EndsRequest, MayAnswer, used};
ghost use Rattle.sml_units.specs.Checked.{HaveOwnPlaces, MayReply};
ghost use Rattle.sml_units.specs.Complete.{AreAllComplete};

use crate::files::read_project;
use crate::stops::{BAD_PROJECT, Stop, report, say};
use sml_command::command_line::{Asked, Request, asked_by};
use sml_projects::project::Project;
use sml_reply::form::Form;
use sml_reply::sink::{Out, OutFault, write_all};
use sml_units::laws::projects_have_own_places;
use sml_units::project::check;
use sml_units::recheck::recheck;
use sml_units::run::{Summary, run};
use std::alloc::Global;

/// Why a file couldn't be had.
#[derive(Clone, Copy, PartialEq, Eq)]
pub enum SourceFault {
    Unreadable,
    Memory,
}

/// Where files are read.
pub trait Source {
    // Which bytes may be given for a path, where at most so many are asked for.
    ghost gives: { Self → List ℕ → ℕ → List ℕ → Type 0 } = { λ _ _ _ _. ⊤ };

    /// The bytes of a file, or the first so many of them. What is given later could have been given before.
    fn read(&mut self, alloc: Global, path: &str, most: usize) -> Result<Vec<u8>, SourceFault>
        ensures given { IfOk result (λ text. gives self.old path.now most text.items) }
        ensures stays { Only (gives self.old) (gives self.new) };
}

/// No declaration was refused.
const ALL_ACCEPTED: u8 = 0;

/// Some declaration was refused.
const SOME_REFUSED: u8 = 1;

/// What the program says stands after its name.
const NAME: &[u8] = b"smlcheck";

/// Runs the program on the words of its command line, of which the first is its own name, and gives its status.
pub fn session<S: Source, O: Out, E: Out>(
    alloc: Global,
    words: &[String],
    source: &mut S,
    out: &mut O,
    err: &mut E,
) -> u8
    ensures { Ends (S.gives source.old) (map string_bytes words.now) (used (O.taken out.old) (O.taken out.new) (O.failures out.old) (O.failures out.new)) (used (E.taken err.old) (E.taken err.new) (E.failures err.old) (E.failures err.new)) result }
{
    match asked_by(alloc, words) {
        Asked::Check(request) => check_and_answer(alloc, &request, source, out, err),
        Asked::Help(text) => match write_all(out, text.as_bytes()) {
            Ok(_) => ALL_ACCEPTED,
            Err(_) => report(NAME, &Stop::Write, err),
        },
        Asked::Refused(text) => {
            let _ = write_all(err, text.as_bytes());
            BAD_PROJECT
        }
        Asked::Memory => report(NAME, &Stop::Memory, err),
    }
}

/// The status of what was asked for.
fn check_and_answer<S: Source, O: Out, E: Out>(
    alloc: Global,
    request: &Request,
    source: &mut S,
    out: &mut O,
    err: &mut E,
) -> u8
    ensures { EndsRequest (S.gives source.old) request.now (used (O.taken out.old) (O.taken out.new) (O.failures out.old) (O.failures out.new)) (used (E.taken err.old) (E.taken err.new) (E.failures err.old) (E.failures err.new)) result }
{
    match answer(alloc, request, source, out) {
        Ok(status) => status,
        Err(stop) => report(NAME, &stop, err),
    }
}

/// Reads the project and its units, and the second one if there is one, checks them and writes the replies.
fn answer<S: Source, O: Out>(
    alloc: Global,
    request: &Request,
    source: &mut S,
    out: &mut O,
) -> Result<u8, Stop>
    ensures { IfOk result (Answers (MayAnswer (S.gives source.old) (string_bytes request.now.project) request.now.then) request.now.form (used (O.taken out.old) (O.taken out.new) (O.failures out.old) (O.failures out.new))) }
{
    projects_have_own_places();
    let listed = read_project(alloc, source, &request.project)?;
    match &request.then {
        None => answer_first(alloc, &listed.project, request.form, out),
        Some(path) => {
            let second = read_project(alloc, source, path)?;
            answer_second(alloc, &listed.project, &second.project, request.form, out)
        }
    }
}

/// Checks a project, and writes the replies.
fn answer_first<O: Out>(
    alloc: Global,
    project: &Project,
    form: Form,
    out: &mut O,
) -> Result<u8, Stop>
    ensures { IfOk result (Answers (λ rs. HaveOwnPlaces (unit_texts project.now) → MayReply project.now rs) form (used (O.taken out.old) (O.taken out.new) (O.failures out.old) (O.failures out.new))) }
{
    let summary = run(alloc, project, form, out)?;
    Ok(status_after(&summary))
}

/// Checks a project, then a second one with what didn't change, and writes the replies of the second.
fn answer_second<O: Out>(
    alloc: Global,
    project: &Project,
    second: &Project,
    form: Form,
    out: &mut O,
) -> Result<u8, Stop>
    ensures { IfOk result (Answers (λ rs. AreAllComplete (unit_texts second.now) rs.units.items) form (used (O.taken out.old) (O.taken out.new) (O.failures out.old) (O.failures out.new))) }
{
    let old = check(alloc, project)?;
    let checked = recheck(alloc, &old, second)?;
    let summary = checked.write_to(form, out)?;
    Ok(status_after(&summary))
}

/// The status where the replies were written.
fn status_after(summary: &Summary) -> u8
    ensures { result ≡ cond (summary.now.refused == 0) 0 1 }
{
    if summary.refused == 0 {
        ALL_ACCEPTED
    } else {
        SOME_REFUSED
    }
}

/// Says that memory was refused.
pub fn out_of_memory<E: Out>(err: &mut E) -> Result<(), OutFault>
    ensures { Prints (E.taken err.old) (E.taken err.new) (E.failures err.old) (E.failures err.new) result (codes "smlcheck: out of memory\n") }
{
    say(NAME, &Stop::Memory, err)
}

/// Says that output failed.
pub fn cannot_write<E: Out>(err: &mut E) -> Result<(), OutFault>
    ensures { Prints (E.taken err.old) (E.taken err.new) (E.failures err.old) (E.failures err.new) result (codes "smlcheck: cannot write\n") }
{
    say(NAME, &Stop::Write, err)
}
