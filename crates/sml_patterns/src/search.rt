//! The search for a shape that matches a question and escapes rows.

ghost use Rattle.std.specs.Prelude.{◌≡◌, ◌++◌, ◌∷◌, [], IfOk};
ghost use Rattle.sml_narrowing.specs.Plain.{Wild};
ghost use Rattle.sml_narrowing.specs.CodeMatrix.{narrow, narrow_all, below};
ghost use Rattle.sml_patterns.specs.CodeMatrix.{with_problem, narrowed, successors, is_won, is_useful};
ghost use Rattle.sml_narrowing.specs.Views.{plain_of};
ghost use Rattle.sml_narrowing.specs.CodeTasks.{line, lines, head_of};
ghost use Rattle.sml_patterns.specs.CodeTasks.{problem_of, problems};

use sml_lex::fault::Memory;
use sml_narrowing::constructors::narrow_each;
use sml_narrowing::narrow::{Head, Split, narrow, narrow_all, split_for};
use sml_narrowing::pattern::Pattern;
use std::alloc::Global;

/// A question with the rows that its answer escapes.
#[derive(Drop)]
pub struct Task<'a> {
    pub rows: Vec<Vec<&'a Pattern>>,
    pub question: Vec<&'a Pattern>,
}

/// Adds the task narrowed to the head, if the question covers it.
fn push_task<'a>(
    alloc: Global,
    any: &'a Pattern,
    head: &Head<'a>,
    rows: &[Vec<&'a Pattern>],
    question: &[&'a Pattern],
    tasks: &mut Vec<Task<'a>>,
) -> Result<(), Memory>
    requires { plain_of any.now ≡ Wild }
    ensures { IfOk result (λ _. problems tasks.new.items ≡ problems tasks.old.items ++ with_problem (narrow_all (head_of head.now) (lines rows.now)) (narrow (head_of head.now) (line question.now)) []) }
{
    match narrow(alloc, any, head, question)? {
        None => Ok(()),
        Some(question) => {
            let rows = narrow_all(alloc, any, head, rows)?;
            tasks.push(Task { rows, question })?;
            Ok(())
        }
    }
}

/// Adds the task narrowed to each of the first constructors.
fn push_below<'a>(
    alloc: Global,
    any: &'a Pattern,
    count: u64,
    rows: &[Vec<&'a Pattern>],
    question: &[&'a Pattern],
    tasks: &mut Vec<Task<'a>>,
) -> Result<(), Memory>
    requires { plain_of any.now ≡ Wild }
    ensures { IfOk result (λ _. problems tasks.new.items ≡ problems tasks.old.items ++ narrowed (lines rows.now) (line question.now) (below count)) }
{
    let mut groups = narrow_each(alloc, any, count, rows)?;
    while let Some(rows) = groups.pop() {
        let head = Head::AtConstructor(groups.len() as u64);
        if let Some(question) = narrow(alloc, any, &head, question)? {
            tasks.push(Task { rows, question })?;
        }
    }
    Ok(())
}

/// Adds the tasks that the task's first column splits into.
fn push_tasks<'a>(
    alloc: Global,
    any: &'a Pattern,
    task: &Task<'a>,
    tasks: &mut Vec<Task<'a>>,
) -> Result<(), Memory>
    requires { plain_of any.now ≡ Wild }
    ensures { IfOk result (λ _. problems tasks.new.items ≡ problems tasks.old.items ++ successors (problem_of task.now)) }
{
    let rows = task.rows.as_slice();
    let question = task.question.as_slice();
    match split_for(alloc, rows, question)? {
        Split::Below(count) => push_below(alloc, any, count, rows, question, tasks),
        Split::One(head) => push_task(alloc, any, &head, rows, question, tasks),
    }
}

/// Whether no column and no row is left.
fn is_won(task: &Task) -> bool
    ensures { result ≡ is_won (problem_of task.now) }
{
    task.question.is_empty() && task.rows.is_empty()
}

/// Whether some shapes match the question and escape the rows.
pub fn is_useful<'a>(
    alloc: Global,
    any: &'a Pattern,
    rows: Vec<Vec<&'a Pattern>>,
    question: Vec<&'a Pattern>,
) -> Result<bool, Memory>
    requires { plain_of any.now ≡ Wild }
    ensures { IfOk result (λ yes. yes ≡ is_useful (lines rows.entry.items) (line question.entry.items)) }
{
    let mut tasks = Vec::new(alloc);
    tasks.push(Task { rows, question })?;
    while let Some(task) = tasks.pop() {
        if is_won(&task) {
            return Ok(true);
        }
        push_tasks(alloc, any, &task, &mut tasks)?;
    }
    Ok(false)
}
