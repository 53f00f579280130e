//! Rows of many fields, with a demand for each: what a demand costs doesn't grow with the row.

use crate::script::fault;
use std::test::Fail;

#[test]
fn fields_of_ever_newer_unknowns(rt: HostRuntime) -> Result<(), Fail> {
    let script =
        "fresh 100000; for i in 1..100000, has 0 #i i; last 1 -> +; equal 0 99999 -> finiteness";
    assert_eq!(rt; fault(rt.alloc(), script)?, None);
    Ok(())
}

#[test]
fn fields_of_ever_older_unknowns(rt: HostRuntime) -> Result<(), Fail> {
    let script =
        "fresh 100000; for i in 0..99999, has 99999 #i 99998-i; equality 99999; equal 0 real -> equality";
    assert_eq!(rt; fault(rt.alloc(), script)?, None);
    Ok(())
}

#[test]
fn many_unknowns_are_one_row(rt: HostRuntime) -> Result<(), Fail> {
    let script = "fresh 100000; for i in 0..10000, has 0 #i int; for i in 1..100000, equal i 0; \
        has 99999 #0 int; has 99999 #0 real -> equations";
    assert_eq!(rt; fault(rt.alloc(), script)?, None);
    Ok(())
}
