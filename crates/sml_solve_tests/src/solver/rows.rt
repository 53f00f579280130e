//! Flexible rows.

use crate::script::faults;
use std::test::Fail;

const ROWS: [(&str, &str); 10] = [
    (
        "a row of known labels has its fields",
        "fresh 2; has 0 b 1; equal 0 row a real b int; equal 1 int; has 0 a real; has 0 a int -> equations",
    ),
    (
        "a missing label clashes",
        "fresh 2; has 0 c 1; equal 0 row a real b int -> equations",
    ),
    (
        "a name has no field",
        "fresh 1; equal 0 int; has 0 a int -> equations",
    ),
    (
        "rows that are joined have the fields of both",
        "fresh 4; has 0 a int; has 1 a 2; has 1 b 3; equal 0 1; equal 2 int; has 0 b real; \
        equal 3 int -> equations",
    ),
    (
        "fields are asked in every layer: finiteness",
        "fresh 1; has 0 a 0 -> finiteness",
    ),
    (
        "fields are asked in every layer: newness",
        "fresh 1; within newness 2 0; has 0 a t2 -> newness",
    ),
    (
        "fields are asked in every layer: locality",
        "fresh 1; has 0 a t2; within locality 2 0 -> locality",
    ),
    (
        "fields are asked in every layer: equality",
        "fresh 1; equality 0; has 0 a int; has 0 b real -> equality",
    ),
    (
        "a row is of no class",
        "fresh 1; has 0 a int; class num 0 -> classes",
    ),
    (
        "a row is no explicit variable",
        "fresh 1; has 0 a int; variable '0 0 -> rigidity",
    ),
];

#[test]
fn fields(rt: HostRuntime) -> Result<(), Fail> {
    assert_eq!(rt; faults(rt.alloc(), &ROWS)?.as_str(), "");
    Ok(())
}
