//! Sinks that take little, or fail.

use crate::tests::fakes::{Answer, Files, Takes, ask_with};
use std::alloc::{AllocError, Global};
use std::test::Fail;

const UNIT: &[u8] =
    b"structure S :> sig type t val a : t val f : t -> t end = struct type t = int val a = 3 fun f x = x end
val y = S.f S.a
val z = S.a + 1";

const REPLIES: &[u8] = b"unit a
1 ok
  structure S
  type S.t = ?1
  val S.a : ?1
  val S.f : ?1 -> ?1
2 ok
  val y : ?1
3 fault U1 1.9 types clash
";

const CANNOT_WRITE: &[u8] = b"smlcheck: cannot write\n";

/// The answer to a command line of one word about the project of this unit.
fn answer_to(alloc: Global, word: &str, out: Takes, err: Takes) -> Result<Answer, AllocError> {
    let mut files = Files::new(alloc, b"unit a a.sml\n", UNIT, None)?;
    ask_with(alloc, &["smlcheck", word], &mut files, out, err)
}

#[test]
fn sinks_that_fail_after_some_bytes(rt: HostRuntime) -> Result<(), Fail> {
    let alloc = rt.alloc();
    for count in 0..=REPLIES.len() {
        let answer = answer_to(alloc, "project", Takes::Bytes(count), Takes::All)?;
        if count < REPLIES.len() {
            answer.expect(&rt, 3, &REPLIES[..count], CANNOT_WRITE);
        } else {
            answer.expect(&rt, 1, REPLIES, b"");
        }
    }
    Ok(())
}

/// Nothing is written after the call that failed.
#[test]
fn sinks_that_fail_at_one_call(rt: HostRuntime) -> Result<(), Fail> {
    let alloc = rt.alloc();
    let mut failed: usize = 0;
    for calls in 0..=REPLIES.len() {
        let answer = answer_to(alloc, "project", Takes::AllBut(calls), Takes::All)?;
        if answer.out.failures > 0 {
            failed = failed.saturating_add(1);
            let count = answer.out.taken.len().min(REPLIES.len());
            answer.expect(&rt, 3, &REPLIES[..count], CANNOT_WRITE);
        } else {
            answer.expect(&rt, 1, REPLIES, b"");
        }
    }
    assert!(rt; 0 < failed && failed < REPLIES.len());
    Ok(())
}

/// The word, what standard error takes, and the status and the standard error that are wanted: the status says what standard
/// error can't.
const UNTOLD: [(&str, Takes, u8, &[u8]); 5] = [
    ("project", Takes::All, 3, CANNOT_WRITE),
    ("--help", Takes::All, 3, CANNOT_WRITE),
    ("project", Takes::Nothing, 3, b""),
    ("--loud", Takes::Nothing, 2, b""),
    ("missing", Takes::Nothing, 3, b""),
];

#[test]
fn outputs_that_take_nothing(rt: HostRuntime) -> Result<(), Fail> {
    let alloc = rt.alloc();
    for (word, takes, status, err) in UNTOLD {
        answer_to(alloc, word, Takes::Nothing, takes)?.expect(&rt, status, b"", err);
    }
    Ok(())
}
