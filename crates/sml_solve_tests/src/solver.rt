//! Each public call of a solver, the order of the layers, and large inputs, as scripts. What each call is to answer was
//! worked out by hand.

mod chains;
mod flexible;
mod memory;
mod rows;
mod wide;

use crate::script::{fault, faults};
use sml_graph::demand::Refusal;
use sml_layers::layer::Layer;
use sml_lex::fault::Code;
use std::test::Fail;

const LAYERS: [(&str, &str); 11] = [
    (
        "different names clash",
        "fresh 1; equal 0 int; equal 0 t0 -> equations; fresh 1 -> spent",
    ),
    (
        "rows of different lengths clash",
        "fresh 1; equal pair 0 0 pair int int; equal pair 0 0 unit -> equations",
    ),
    (
        "a type in itself is circular",
        "fresh 3; equal 0 list 1; equal 1 list 2; equal 2 0 -> finiteness; equal 0 0 -> spent",
    ),
    (
        "bounds reach what an unknown becomes",
        "fresh 2; equal 0 list 1; within newness 3 0; equal 1 pair o7 t2; \
        within locality 2 pair o7 t2 -> locality",
    ),
    (
        "the first layer answers: finiteness before bounds",
        "fresh 2; within locality 1 0; within newness 2 0; equal pair 0 1 pair t2 list 1 -> finiteness",
    ),
    (
        "the first layer answers: newness before locality",
        "fresh 1; within locality 1 0; within newness 2 0; equal 0 t2 -> newness",
    ),
    (
        "equality reaches parts and stops at references",
        "fresh 3; equality ref real; equal 0 list 1; equality 0; equal 1 2; equal 2 real -> equality",
    ),
    (
        "classes are met by their names alone",
        "fresh 2; class num 0; equal 0 1; class realint 1; equal 0 real; class wordint real -> classes",
    ),
    (
        "classes are met by no row",
        "fresh 1; class numtxt 0; equal 0 unit -> classes",
    ),
    (
        "equality is asked before classes",
        "fresh 2; class wordint 0; equality 0; equal 0 real -> equality",
    ),
    (
        "equality is asked after bounds",
        "fresh 2; equality 0; within locality 0 1; equal pair 0 1 pair real t0 -> locality",
    ),
];

#[test]
fn layers(rt: HostRuntime) -> Result<(), Fail> {
    assert_eq!(rt; faults(rt.alloc(), &LAYERS)?.as_str(), "");
    Ok(())
}

#[test]
fn layers_have_codes(rt: HostRuntime) {
    for (layer, code) in [
        (Layer::Equations, Code::U1),
        (Layer::Equality, Code::U4),
        (Layer::Classes, Code::U5),
        (Layer::Rigidity, Code::U7),
    ] {
        assert_eq!(rt; layer.code(), code);
    }
    assert_eq!(rt; Refusal::Labels.code(), Some(Code::U6));
}

const OVERLOADING: [(&str, &str); 2] = [
    (
        "overloaded is what more than one name is left to",
        "fresh 3; overloaded 0 -> false; class realint 0; equal 0 1; overloaded 1 -> true; equality 0; \
        overloaded 1 -> false; class wordint 2; equality 2; overloaded 2 -> true; equal 2 int; \
        overloaded 2 -> false; equal 2 unit -> equations; overloaded 0 -> spent",
    ),
    (
        "what is overloaded becomes int",
        "fresh 4; unknowns -> 4; class num 0; class num 1; equal 1 2; settle 3 2; overloaded 1 -> false; \
        overloaded 0 -> true; equal 0 real; equal 2 int; equal 3 unit; settle; equal 1 real -> equations; settle 0 -> spent",
    ),
];

#[test]
fn overloading(rt: HostRuntime) -> Result<(), Fail> {
    assert_eq!(rt; faults(rt.alloc(), &OVERLOADING)?.as_str(), "");
    Ok(())
}

const VARIABLES: [(&str, &str); 7] = [
    (
        "explicit variables stand for themselves",
        "fresh 3; variable '0 0; equal 1 0; variable '0 1; variable ''1 2; equality 2; equal 0 2 -> rigidity",
    ),
    (
        "a variable with one quote doesn't admit equality",
        "fresh 1; variable '0 0; equality 0 -> rigidity",
    ),
    (
        "a variable is no number",
        "fresh 1; class num 0; variable ''0 0 -> rigidity",
    ),
    (
        "explicit variables are no other types",
        "fresh 1; variable ''0 0; equal 0 int -> rigidity",
    ),
    (
        "equality is asked before explicit variables",
        "fresh 1; variable '0 0; equality real -> equality",
    ),
    (
        "explicit variables are free nowhere else",
        "fresh 4; variable '0 1; equal 2 list 1; general 1 in 1; general 1 in 1 3; \
        general 1 in 1 3 2 -> rigidity; general in 0 -> spent",
    ),
    (
        "explicit variables are not free in the first unknowns",
        "fresh 3; variable '0 2; equal 0 2; general 2 in 0 1; general 2 in 1 -> rigidity",
    ),
];

#[test]
fn explicit_variables(rt: HostRuntime) -> Result<(), Fail> {
    assert_eq!(rt; faults(rt.alloc(), &VARIABLES)?.as_str(), "");
    Ok(())
}

const READINGS: [(&str, &str); 3] = [
    (
        "a type is read up to its size",
        "fresh 3; equal 2 1; equal 0 pair 2 list 2; reading 3 0 -> none; reading 4 0 -> pair 1 list 1",
    ),
    (
        "what the context fixes stays",
        "fresh 4; equal 0 list 2; equality 1; class realint 3; equality 3; fixed 1 -> +-+-; \
        scheme +-+- 5 pair 2 pair 3 1 -> all ''0 . pair 2 pair int '0; \
        scheme +-+- 4 pair 2 pair 3 1 -> none; expansive +-+- 5 1 -> all . 1",
    ),
    (
        "instances are apart",
        "fresh 1; instance -> 1; instance -> 2",
    ),
];

#[test]
fn readings_and_schemes(rt: HostRuntime) -> Result<(), Fail> {
    assert_eq!(rt; faults(rt.alloc(), &READINGS)?.as_str(), "");
    Ok(())
}

#[test]
fn a_deep_type(rt: HostRuntime) -> Result<(), Fail> {
    let script = "fresh 1; equal deep 9999 0 deep 9999 int; equal 0 t0 -> equations";
    assert_eq!(rt; fault(rt.alloc(), script)?, None);
    Ok(())
}

#[test]
fn a_chain_of_unknowns_from_its_head(rt: HostRuntime) -> Result<(), Fail> {
    let script = "fresh 100000; for i in 1..100000, equal i-1 i; equal 99999 int";
    assert_eq!(rt; fault(rt.alloc(), script)?, None);
    Ok(())
}

#[test]
fn a_chain_of_unknowns_from_its_end(rt: HostRuntime) -> Result<(), Fail> {
    let script = "fresh 100000; for i in 1..100000, equal 99999-i 100000-i; equal 99999 int; \
        for i in 0..100000, equal i int";
    assert_eq!(rt; fault(rt.alloc(), script)?, None);
    Ok(())
}

#[test]
fn a_shared_graph(rt: HostRuntime) -> Result<(), Fail> {
    let script =
        "fresh 82; for i in 0..40, equal i+1 pair i i, equal i+42 pair i+41 i+41; equal 40 81; \
        within newness 5 40; equal 41 int; equal 0 int; equal 0 81 -> equations";
    assert_eq!(rt; fault(rt.alloc(), script)?, None);
    Ok(())
}

#[test]
fn many_declarations(rt: HostRuntime) -> Result<(), Fail> {
    let script = "fresh 1; for i in 1..20001, fresh 1, equal i list 0, flag i";
    assert_eq!(rt; fault(rt.alloc(), script)?, None);
    Ok(())
}
