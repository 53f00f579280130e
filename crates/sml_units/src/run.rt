//! Runs: a project is checked, and its replies are written.

ghost use Rattle.std.specs.Prelude.{◌≡◌, ◌+◌, if◌then◌else◌, IfOk, IfErr, length, map};
ghost use Rattle.sml_reply.specs.Replies.{form_text, warnings_of, accepts};
ghost use Rattle.sml_reply.specs.Sinks.{in_turn, Prints};
ghost use Rattle.sml_units.specs.Checked.{MayReply, HaveOwnPlaces};
ghost use Rattle.sml_projects.specs.Orders.{unit_texts};
ghost use Rattle.sml_bases.specs.Entries.{capped};
ghost use Rattle.sml_units.specs.Written.{unit_text, units_text, replies_text, replies_of, summary_of, IsOutcome};

use crate::project::{Checked, Replies, UnitReplies, check};
use sml_projects::project::Project;
use sml_reply::form::Form;
use sml_reply::reply::{Reply, print};
use sml_reply::sink::{Out, OutFault, write_each};
use std::alloc::Global;
use thiserror::Error;

/// Why a run has no summary.
#[derive(Clone, Copy, PartialEq, Eq, Debug, Error)]
pub enum RunFault {
    /// Nothing was written.
    #[error("out of memory")]
    Memory,
    /// A beginning of the text was written.
    #[error("cannot write")]
    Write,
}

/// How many declarations were accepted and refused, and how many warnings there are, printed or not.
#[derive(Clone, Copy, PartialEq, Eq, Debug)]
pub struct Summary {
    pub accepted: u64,
    pub refused: u64,
    pub warnings: u64,
}

/// Checks the project, and writes the text of its replies: for each unit in order the line `unit NAME`, and then its replies.
pub fn run<O: Out>(
    alloc: Global,
    project: &Project,
    form: Form,
    out: &mut O,
) -> Result<Summary, RunFault>
    ensures { IsOutcome (λ rs. HaveOwnPlaces (unit_texts project.now) → MayReply project.now rs) form (O.taken out.old) (O.taken out.new) (O.failures out.old) (O.failures out.new) result }
{
    match check(alloc, project) {
        Ok(checked) => match checked.write_to(form, out) {
            Ok(summary) => Ok(summary),
            Err(_) => Err(RunFault::Write),
        },
        Err(_) => Err(RunFault::Memory),
    }
}

impl Checked {
    /// Writes what `run` writes after its check, and counts the replies.
    pub fn write_to<O: Out>(&self, form: Form, out: &mut O) -> Result<Summary, OutFault>
        ensures printed { Prints (O.taken out.old) (O.taken out.new) (O.failures out.old) (O.failures out.new) result (replies_text self.now.replies form) }
        ensures counted { IfOk result (λ s. s ≡ summary_of (replies_of self.now.replies.units.items)) }
    {
        let units = self.replies().units.as_slice();
        match write_units(units, form, out) {
            Ok(_) => Ok(counts(units)),
            Err(fault) => Err(fault),
        }
    }
}

fn write_units<O: Out>(units: &[UnitReplies], form: Form, out: &mut O) -> Result<(), OutFault>
    ensures { Prints (O.taken out.old) (O.taken out.new) (O.failures out.old) (O.failures out.new) result (units_text units.now form) }
{
    for unit in units {
        match write_unit(unit, form, out) {
            Ok(_) => {}
            Err(fault) => return Err(fault),
        }
    }
    Ok(())
}

fn write_unit<O: Out>(unit: &UnitReplies, form: Form, out: &mut O) -> Result<(), OutFault>
    ensures { Prints (O.taken out.old) (O.taken out.new) (O.failures out.old) (O.failures out.new) result (unit_text unit.now form) }
{
    let heading: [&[u8]; 3] = [b"unit ", unit.name.as_bytes(), b"\n"];
    match write_each(out, &heading) {
        Ok(_) => print_each(unit.replies.as_slice(), form, out),
        Err(fault) => Err(fault),
    }
}

fn print_each<O: Out>(replies: &[Reply], form: Form, out: &mut O) -> Result<(), OutFault>
    ensures { Prints (O.taken out.old) (O.taken out.new) (O.failures out.old) (O.failures out.new) result (in_turn (map (λ r. form_text r form) replies.now)) }
{
    for reply in replies {
        match print(reply, form, out) {
            Ok(_) => {}
            Err(fault) => return Err(fault),
        }
    }
    Ok(())
}

fn counts(units: &[UnitReplies]) -> Summary
    ensures { result ≡ summary_of (replies_of units.now) }
{
    let mut summary = Summary {
        accepted: 0,
        refused: 0,
        warnings: 0,
    };
    for unit in units {
        for reply in unit.replies.as_slice() {
            summary = counted(summary, reply);
        }
    }
    summary
}

/// The summary with one more reply.
fn counted(summary: Summary, reply: &Reply) -> Summary
    ensures accepted { result.accepted ≡ capped (summary.accepted + (if accepts reply.now then 1 else 0)) }
    ensures refused { result.refused ≡ capped (summary.refused + (if accepts reply.now then 0 else 1)) }
    ensures warnings { result.warnings ≡ capped (summary.warnings + length (warnings_of reply.now)) }
{
    let warnings = summary
        .warnings
        .saturating_add(reply.warnings().len() as u64);
    if reply.is_accepted() {
        Summary {
            accepted: summary.accepted.saturating_add(1),
            warnings,
            ..summary
        }
    } else {
        Summary {
            refused: summary.refused.saturating_add(1),
            warnings,
            ..summary
        }
    }
}
