//! Calls to which memory is refused. `bench/refused` runs a test once for each growth, which is refused then.

use crate::script::{Fault, new_solver, run};
use std::alloc::Global;
use std::test::Fail;

/// Each call that adds unknowns or demands, and each that asks.
const CALLS: &str =
    "fresh 1; fresh 1; fresh 1; instance -> 3; equal 0 list 1; within locality 3 list 1; \
    equality list 1; class num 1; settle 0 1 2 3; variable ''0 2; general 2 in 1 1; overloaded 1 -> false; \
    fixed 1 2 -> +++-; size 9 pair 0 2 -> 4; reading 9 pair 0 2 -> pair list int 2; \
    scheme +++- 9 pair 0 2 -> all . pair list int 2";

/// Two rows, and that they are one.
const ROWS: &str = "fresh 1; fresh 1; has 0 a int; has 1 a int b int; equal 0 1";

/// Calls after one that was refused.
const SPENT: &str =
    "fresh 1 -> spent; instance -> spent; equal int int -> spent; within newness 0 int -> spent; \
    equality int -> spent; class num int -> spent; settle -> spent; variable '0 int -> spent; \
    general in 0 -> spent; has int -> spent; labels int -> spent; fixed 0 -> spent; size 5 int -> spent; \
    reading 5 int -> spent; scheme none 5 int -> spent";

/// What is wrong with calls: a step that answers neither what it has to nor want of memory, or one after the latter
/// that isn't refused. Where memory is refused to the script itself, no more calls are made.
fn wrong_step(alloc: Global, script: &str) -> Result<Option<String>, Fault> {
    let mut solver = new_solver(alloc);
    let Some(wrong) = run(alloc, &mut solver, script)? else {
        return run(alloc, &mut solver, "settle 0");
    };
    if !wrong.as_str().ends_with(": memory") {
        return Ok(Some(wrong));
    }
    if let Some(wrong) = run(alloc, &mut solver, SPENT)? {
        return Ok(Some(wrong));
    }
    if solver.unknowns() == 0 {
        return Ok(None);
    }
    run(alloc, &mut solver, "overloaded 0 -> spent")
}

#[test]
fn a_refused_call_spends_the_solver(rt: HostRuntime) {
    match wrong_step(rt.alloc(), CALLS) {
        Ok(wrong) => assert_eq!(rt; wrong, None),
        Err(fault) => assert_eq!(rt; fault, Fault::Memory),
    }
}

#[test]
fn a_refused_row_spends_the_solver(rt: HostRuntime) {
    match wrong_step(rt.alloc(), ROWS) {
        Ok(wrong) => assert_eq!(rt; wrong, None),
        Err(fault) => assert_eq!(rt; fault, Fault::Memory),
    }
}
