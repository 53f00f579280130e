//! Long chains of unknowns, with a demand for each: what a demand costs doesn't grow with the chain.

use crate::script::fault;
use std::test::Fail;

#[test]
fn lists_from_the_inside_out(rt: HostRuntime) -> Result<(), Fail> {
    let script = "fresh 100000; for i in 1..100000, equal i list i-1; equal 0 99999 -> finiteness";
    assert_eq!(rt; fault(rt.alloc(), script)?, None);
    Ok(())
}

#[test]
fn lists_from_the_outside_in(rt: HostRuntime) -> Result<(), Fail> {
    let script =
        "fresh 100000; for i in 1..100000, equal 100000-i list 99999-i; equal 0 99999 -> finiteness";
    assert_eq!(rt; fault(rt.alloc(), script)?, None);
    Ok(())
}

#[test]
fn lists_of_newer_unknowns(rt: HostRuntime) -> Result<(), Fail> {
    let script =
        "fresh 100000; for i in 1..100000, equal i-1 list i; last 1 -> +; equal 0 99999 -> finiteness";
    assert_eq!(rt; fault(rt.alloc(), script)?, None);
    Ok(())
}

#[test]
fn lists_of_newer_unknowns_from_the_inside_out(rt: HostRuntime) -> Result<(), Fail> {
    let script = "fresh 100000; for i in 1..100000, equal 99999-i list 100000-i; last 1 -> +; \
        equal 0 99999 -> finiteness";
    assert_eq!(rt; fault(rt.alloc(), script)?, None);
    Ok(())
}
