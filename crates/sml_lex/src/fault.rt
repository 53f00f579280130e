//! Faults: a code, a place and perhaps a detail.

use std::alloc::{AllocError, AllocFailed};

/// Want of memory: a growth was refused.
#[derive(Clone, Copy, PartialEq, Eq, Debug)]
pub struct Memory;

/// The code of a fault or a warning.
#[derive(Clone, Copy, PartialEq, Eq, Debug)]
pub enum Code {
    L1,
    L2,
    L3,
    L4,
    L5,
    L6,
    S1,
    S2,
    S3,
    F1,
    F2,
    F3,
    F4,
    G1,
    G2,
    G3,
    G4,
    G5,
    U1,
    U2,
    U3,
    U4,
    U5,
    U6,
    U7,
    E1,
    E2,
    E3,
    E4,
    E5,
    E6,
    E7,
    E8,
    E9,
    E10,
    N1,
    N2,
    N3,
    N4,
    N5,
    N6,
    N7,
    M1,
    M2,
    M3,
    M4,
    M5,
    M6,
    M7,
    Q1,
    Q2,
    Q3,
    P1,
    P2,
    P3,
}

/// A line and a column, both from 1. Line 1 is the line of the declaration's first token, where columns count
/// bytes from that token; on later lines they count from the line's start.
#[derive(Clone, Copy, PartialEq, Eq)]
pub struct Place {
    pub line: u32,
    pub column: u32,
}

/// The place of a declaration's first token, from which its other places count.
pub const FIRST: Place = Place { line: 1, column: 1 };

/// Why a declaration is refused.
#[derive(PartialEq, Eq, Drop)]
pub struct Fault {
    pub code: Code,
    pub place: Place,
    /// The bytes of the long identifier or of the path that the code speaks of, where it speaks of one.
    pub detail: Option<Vec<u8>>,
}

/// What is said of an accepted declaration: P1, P2 or P3.
#[derive(Clone, Copy, PartialEq, Eq)]
pub struct Warning {
    pub code: Code,
    pub place: Place,
}

impl From<AllocError> for Memory {
    fn from(_error: AllocError) -> Memory {
        Memory
    }
}

impl<T: Drop> From<AllocFailed<T>> for Memory {
    fn from(_error: AllocFailed<T>) -> Memory {
        Memory
    }
}
