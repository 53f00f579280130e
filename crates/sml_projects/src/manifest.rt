//! The units that a project lists, and the faults of projects.

ghost use Rattle.std.specs.Prelude.{◌≡◌, ◌≤◌, length, map, string_bytes, vec_len};
ghost use Rattle.sml_projects.specs.declared.manifest.ManifestFault.TheVariants.{Memory};
ghost use Rattle.sml_projects.specs.declared.manifest.OrderFault.TheVariants as OF;
ghost use Rattle.sml_projects.specs.declared.manifest.TheConstants.{MOST_UNITS};

use indexmap::IndexSet;
use sml_lex::fault::Memory;
use std::alloc::{AllocError, AllocFailed, Global};

/// The code of a fault of a project.
#[derive(Clone, Copy, PartialEq, Eq, Debug)]
pub enum ProjectCode {
    /// Unknown unit.
    O1,
    /// Cycle.
    O2,
    /// Repeated unit.
    O3,
    /// Bad line.
    O4,
}

/// A fault of a project, and the line of the project file at which it stands, from 1.
#[derive(Clone, Copy, PartialEq, Eq, Debug)]
pub struct ProjectFault {
    pub code: ProjectCode,
    pub line: u32,
}

/// Why a project file is no manifest: O4 or O3, or want of memory.
#[derive(Drop, Debug)]
pub enum ManifestFault {
    Memory,
    Fault(ProjectFault),
}

/// Why the units have no order: O1 or O2, or want of memory.
#[derive(Drop, Debug)]
pub enum OrderFault {
    Memory,
    Fault(ProjectFault),
}

impl From<AllocError> for ManifestFault {
    ghost from_gives = { λ _ f. f ≡ Memory };

    fn from(_error: AllocError) -> ManifestFault {
        ManifestFault::Memory
    }
}

impl<T: Drop> From<AllocFailed<T>> for ManifestFault {
    ghost from_gives = { λ _ f. f ≡ Memory };

    fn from(_error: AllocFailed<T>) -> ManifestFault {
        ManifestFault::Memory
    }
}

impl From<Memory> for ManifestFault {
    ghost from_gives = { λ _ f. f ≡ Memory };

    fn from(_memory: Memory) -> ManifestFault {
        ManifestFault::Memory
    }
}

impl From<Memory> for OrderFault {
    ghost from_gives = { λ _ f. f ≡ OF.Memory };

    fn from(_memory: Memory) -> OrderFault {
        OrderFault::Memory
    }
}

impl From<AllocError> for OrderFault {
    ghost from_gives = { λ _ f. f ≡ OF.Memory };

    fn from(_error: AllocError) -> OrderFault {
        OrderFault::Memory
    }
}

impl<T: Drop> From<AllocFailed<T>> for OrderFault {
    ghost from_gives = { λ _ f. f ≡ OF.Memory };

    fn from(_error: AllocFailed<T>) -> OrderFault {
        OrderFault::Memory
    }
}

/// How many units a project has at most.
pub(crate) const MOST_UNITS: usize = 4096;

/// The units of a project file, in the order listed: of each its name, file and needs, and the line that lists it.
#[derive(Drop)]
pub struct Manifest {
    pub(crate) names: IndexSet<String>,
    pub(crate) files: Vec<String>,
    pub(crate) needs: Vec<Vec<String>>,
    pub(crate) lines: Vec<u32>,
    ghost few: { length names.keys ≤ MOST_UNITS },
    ghost files_paired: { vec_len files ≡ length names.keys },
    ghost needs_paired: { vec_len needs ≡ length names.keys },
    ghost lines_paired: { vec_len lines ≡ length names.keys },
}

impl Manifest {
    ghost use Rattle.sml_projects.specs.ProjectFiles.{units_in};

    /// The files of the units, as written.
    pub fn files(&self) -> &[String]
        ensures { map string_bytes result.now ≡ map (λ u. u.file) (units_in self.now) }
    {
        self.files.as_slice()
    }
}
