//! Rows that have some fields and perhaps others: sizes, readings, schemes, and rows that are to have one set of labels.

use crate::script::faults;
use std::test::Fail;

const FLEXIBLE: [(&str, &str); 7] = [
    (
        "a field alone leaves the labels open",
        "fresh 1; has 0 1 int; labels 0 -> labels; labels 0 -> spent",
    ),
    ("an unknown has no labels", "fresh 1; labels 0 -> labels"),
    ("a name has no labels", "fresh 1; labels int -> labels"),
    (
        "a known row fixes the labels",
        "fresh 2; has 0 1 int; equal 0 pair 1 int; labels 0; equal 1 int; labels pair 1 int",
    ),
    (
        "a flexible row counts its fields and is read as its unknown",
        "fresh 2; has 0 b pair 1 int a int; size 9 0 -> 5; size 3 0 -> 4; reading 1 0 -> 0",
    ),
    (
        "a flexible row is not bound",
        "fresh 2; has 1 a int; scheme -- 5 pair 0 1 -> all '0 . pair '0 1",
    ),
    (
        "a flexible row in the context is fixed",
        "fresh 4; equal 0 list 1; has 1 a 2; fixed 1 -> +++-",
    ),
];

#[test]
fn flexible_rows(rt: HostRuntime) -> Result<(), Fail> {
    assert_eq!(rt; faults(rt.alloc(), &FLEXIBLE)?.as_str(), "");
    Ok(())
}
