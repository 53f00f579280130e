//! Scripts: calls of a solver as text, each with what it has to answer.
//!
//! A script is steps with `; ` between them, over a new solver of the unit 2, which has no unknown. A step is a call, and
//! after ` -> ` the answer; where no answer stands, it is `done`.
//!
//! | call | what is called | answer |
//! |---|---|---|
//! | `fresh N` | `fresh`, N times | `done` |
//! | `instance` | `instance`, of the scheme that is its one variable | the type |
//! | `equal T T` | `require_equal` | `done` |
//! | `has T`, `has T LABEL T`, `has T LABEL T LABEL T` | `require_row`, with these fields | `done` |
//! | `within newness N T`, `within locality N T` | `require_within` | `done` |
//! | `equality T` | `require_equality` | `done` |
//! | `class C T` | `require_class`; C is `num`, `numtxt`, `realint` or `wordint` | `done` |
//! | `variable 'N T`, `variable ''N T` | `require_variable`; one with two quotes admits equality | `done` |
//! | `general N .. in N N ..` | `require_general`: variables, how many first unknowns, others | `done` |
//! | `labels T` | `require_labels` | `done` |
//! | `settle N N ..` | `settle` | `done` |
//! | `unknowns` | `unknowns` | the number |
//! | `overloaded N` | `is_overloaded` | `true` or `false` |
//! | `fixed N N ..` | `fixed_by`: how many first unknowns, others | a `+` for each unknown that is fixed, a `-` for another |
//! | `last N` | `fixed_by` | what `fixed N` answers of the last unknown |
//! | `flag N` | `fixed_by` | `done` where it has a flag for the unknown N |
//! | `size N T` | `size_up_to`; N is the limit | the number |
//! | `reading N T` | `reading`; N is the limit | the type or `none` |
//! | `scheme F N T` | `generalise`; F is flags as above or `none`, N the limit | `all`, the variables, `.` and the body; or `none` |
//! | `expansive F N T` | the same of an expansive phrase | the same |
//!
//! A call that is refused answers the layer that can't be met, in small letters, or `labels`, `memory` or `spent`.
//!
//! | T | a type |
//! |---|---|
//! | `N` | the unknown of that number |
//! | `int`, `real`, `unit` | an initial name, or the row with no field |
//! | `tN` | the name that the unit made with the number N; it admits equality |
//! | `oN` | the same of the unit 1 |
//! | `list T`, `ref T`, `arrow T T` | a name applied to a type; the type of functions |
//! | `pair T T` | the row of the labels 1 and 2 |
//! | `row LABEL T LABEL T` | a row of two labels that rise |
//! | `deep N T` | `list`, N times, of a type |
//! | `tN!`, `oN!` | in answers alone: such a name that doesn't admit equality |
//! | `'N` | in answers alone: a variable that the scheme binds; where it is bound, with two quotes if it admits equality |
//!
//! A step `for i in A..B, STEP, STEP ..` takes the steps after it for each number from A up to B, without B. In these a
//! number may also be `i`, `i+N`, `i-N` or `N-i`, and a label `#N` is the number's four bytes, the highest first.
//!
//! A script that isn't understood fails, and so does one that names an unknown that isn't there.

pub(crate) mod answers;
mod calls;
mod types;
pub(crate) mod words;

use crate::script::calls::call;
pub(crate) use crate::script::types::read_type;
pub(crate) use crate::script::words::Fault;
use crate::script::words::Words;
use sml_objects::objects::UnitId;
use sml_solve::solver::Solver;
use std::alloc::Global;
use std::fmt::Write;
use std::test::Fail;

const UNIT: UnitId = UnitId { index: 2 };

const OTHER_UNIT: UnitId = UnitId { index: 1 };

/// A solver as a script finds it.
pub(crate) fn new_solver(alloc: Global) -> Solver {
    Solver::new(alloc, UNIT)
}

/// What is wrong with a script: the step that fails, and its answer.
pub(crate) fn fault(alloc: Global, script: &str) -> Result<Option<String>, Fault> {
    let mut solver = new_solver(alloc);
    run(alloc, &mut solver, script)
}

/// What is wrong with the scripts of a table: a line for each that fails, with its name, the step and the answer.
pub(crate) fn faults(alloc: Global, table: &[(&str, &str)]) -> Result<String, Fault> {
    let mut text = String::new(alloc);
    for (name, script) in table {
        if let Some(wrong) = fault(alloc, script)? {
            writeln!(text, "{name}: {wrong}")?;
        }
    }
    Ok(text)
}

/// Takes the steps of a script, up to the first that fails: that step, and its answer.
pub(crate) fn run(
    alloc: Global,
    solver: &mut Solver,
    script: &str,
) -> Result<Option<String>, Fault> {
    for step in script.split("; ") {
        match take(alloc, solver, step) {
            Ok(None) => {}
            Ok(Some(answer)) => return Ok(Some(format!(in alloc; "{step}: {answer}")?)),
            Err(Fault::NotUnderstood) => return Ok(Some(format!(in alloc;
                "{step}: not understood"
            )?)),
            Err(Fault::Memory) => return Err(Fault::Memory),
        }
    }
    Ok(None)
}

/// Takes a step, and answers what it answers where that is wrong.
fn take(alloc: Global, solver: &mut Solver, step: &str) -> Result<Option<String>, Fault> {
    match step.strip_prefix("for i in ") {
        Some(turns) => repeat(alloc, solver, turns),
        None => compare(alloc, solver, parts_of(step), None),
    }
}

/// A call, and what it has to answer.
fn parts_of(step: &str) -> (&str, &str) {
    match step.split_once(" -> ") {
        Some(parts) => parts,
        None => (step, "done"),
    }
}

/// The numbers of a range, and the steps after it.
fn read_turns(turns: &str) -> Option<(u32, u32, &str)> {
    let (range, steps) = turns.split_once(", ")?;
    let (from, to) = range.split_once("..")?;
    let from = from.parse::<u32>().ok()?;
    let to = to.parse::<u32>().ok()?;
    if from < to {
        Some((from, to, steps))
    } else {
        None
    }
}

/// Takes steps for each number of a range.
fn repeat(alloc: Global, solver: &mut Solver, turns: &str) -> Result<Option<String>, Fault> {
    let Some((from, to, text)) = read_turns(turns) else {
        return Err(Fault::NotUnderstood);
    };
    let mut steps = Vec::new(alloc);
    for step in text.split(", ") {
        steps.push(parts_of(step))?;
    }
    for turn in from..to {
        for step in &steps {
            if let Some(answer) = compare(alloc, solver, *step, Some(turn))? {
                return Ok(Some(format!(in alloc; "{answer} where i is {turn}")?));
            }
        }
    }
    Ok(None)
}

/// Makes a call, and answers what it answers where that is wrong.
fn compare(
    alloc: Global,
    solver: &mut Solver,
    (text, wanted): (&str, &str),
    turn: Option<u32>,
) -> Result<Option<String>, Fault> {
    let mut words = Words::new(text, turn);
    let answer = call(alloc, solver, &mut words)?;
    if !words.is_at_end() {
        return Err(Fault::NotUnderstood);
    }
    if answer.as_str() == wanted {
        Ok(None)
    } else {
        Ok(Some(answer))
    }
}

/// Scripts that aren't understood, or whose answers are wrong.
const WRONG: [(&str, &str); 12] = [
    ("no call", "fresh 1; "),
    ("an unknown call", "fresh 1; same 0 0"),
    ("no number", "fresh one"),
    ("no turn", "fresh 2; equal i 0"),
    ("no such unknown", "fresh 2; equal 0 2"),
    ("a type too few", "fresh 2; equal 0"),
    ("a type too many", "fresh 2; equal 0 1 1"),
    ("labels that fall", "fresh 2; equal 0 row b int a int"),
    ("too few flags", "fresh 2; scheme - 5 0 -> all '0 . '0"),
    ("no turns", "for i in 1..1, fresh 1"),
    ("another answer", "fresh 1; equal 0 int -> equations"),
    (
        "another answer in a turn",
        "fresh 2; for i in 0..2, fresh i, unknowns -> 2",
    ),
];

#[test]
fn wrong_scripts_fail(rt: HostRuntime) -> Result<(), Fail> {
    let wanted = "no call: : not understood\n\
        an unknown call: same 0 0: not understood\n\
        no number: fresh one: not understood\n\
        no turn: equal i 0: not understood\n\
        no such unknown: equal 0 2: not understood\n\
        a type too few: equal 0: not understood\n\
        a type too many: equal 0 1 1: not understood\n\
        labels that fall: equal 0 row b int a int: not understood\n\
        too few flags: scheme - 5 0 -> all '0 . '0: not understood\n\
        no turns: for i in 1..1, fresh 1: not understood\n\
        another answer: equal 0 int -> equations: done\n\
        another answer in a turn: for i in 0..2, fresh i, unknowns -> 2: 3 where i is 1\n";
    assert_eq!(rt; faults(rt.alloc(), &WRONG)?.as_str(), wanted);
    Ok(())
}
