//! Why a session ends early, and what is said of it.

ghost use Rattle.std.specs.Prelude.{◌≡◌, ◌++◌, Result};
ghost use Rattle.sml_reply.specs.Sinks.{Prints};
ghost use Rattle.sml_session.specs.Stops.{code_text, reason, status_of, stop_of_manifest, stop_of_order, stop_of_run};
ghost use Rattle.sml_session.specs.declared.stops.Stop.TheVariants as Stop;

use itoa::Buffer;
use sml_lex::fault::Memory;
use sml_projects::manifest::{ManifestFault, OrderFault, ProjectCode, ProjectFault};
use sml_reply::sink::{Out, OutFault, write_all, write_each};
use sml_units::run::RunFault;
use std::alloc::{AllocError, AllocFailed};

/// The command line, the project or its order was refused.
pub const BAD_PROJECT: u8 = 2;

/// A file couldn't be read, output failed, or memory wasn't there.
pub const FAILED: u8 = 3;

/// Why a session ends early.
#[derive(Drop)]
pub enum Stop {
    Project(ProjectFault),
    Unreadable(String),
    Write,
    Memory,
}

impl From<AllocError> for Stop {
    ghost from_gives = { λ _ s. s ≡ Stop.Memory };

    fn from(_error: AllocError) -> Stop {
        Stop::Memory
    }
}

impl<T: Drop> From<AllocFailed<T>> for Stop {
    ghost from_gives = { λ _ s. s ≡ Stop.Memory };

    fn from(_error: AllocFailed<T>) -> Stop {
        Stop::Memory
    }
}

impl From<Memory> for Stop {
    ghost from_gives = { λ _ s. s ≡ Stop.Memory };

    fn from(_memory: Memory) -> Stop {
        Stop::Memory
    }
}

impl From<OutFault> for Stop {
    ghost from_gives = { λ _ s. s ≡ Stop.Write };

    fn from(_fault: OutFault) -> Stop {
        Stop::Write
    }
}

impl From<ManifestFault> for Stop {
    ghost from_gives = { λ f s. s ≡ stop_of_manifest f };

    fn from(fault: ManifestFault) -> Stop {
        match fault {
            ManifestFault::Memory => Stop::Memory,
            ManifestFault::Fault(fault) => Stop::Project(fault),
        }
    }
}

impl From<OrderFault> for Stop {
    ghost from_gives = { λ f s. s ≡ stop_of_order f };

    fn from(fault: OrderFault) -> Stop {
        match fault {
            OrderFault::Memory => Stop::Memory,
            OrderFault::Fault(fault) => Stop::Project(fault),
        }
    }
}

impl From<RunFault> for Stop {
    ghost from_gives = { λ f s. s ≡ stop_of_run f };

    fn from(fault: RunFault) -> Stop {
        match fault {
            RunFault::Memory => Stop::Memory,
            RunFault::Write => Stop::Write,
        }
    }
}

/// Says why a session of the program ends, and gives its status. Where that can't be said, nothing more is.
pub fn report<E: Out>(program: &[u8], stop: &Stop, err: &mut E) -> u8
    ensures status { result ≡ status_of stop.now }
    ensures said { (said : Result (Unit {0}) OutFault) × Prints (E.taken err.old) (E.taken err.new) (E.failures err.old) (E.failures err.new) said (program.now ++ reason stop.now) }
{
    let _ = say(program, stop, err);
    match stop {
        Stop::Project(_) => BAD_PROJECT,
        Stop::Unreadable(_) => FAILED,
        Stop::Write => FAILED,
        Stop::Memory => FAILED,
    }
}

/// Says why a session of the program ends.
pub fn say<E: Out>(program: &[u8], stop: &Stop, err: &mut E) -> Result<(), OutFault>
    ensures { Prints (E.taken err.old) (E.taken err.new) (E.failures err.old) (E.failures err.new) result (program.now ++ reason stop.now) }
{
    match write_all(err, program) {
        Ok(_) => say_reason(stop, err),
        Err(fault) => Err(fault),
    }
}

/// Says what stands after the program's name.
fn say_reason<E: Out>(stop: &Stop, err: &mut E) -> Result<(), OutFault>
    ensures { Prints (E.taken err.old) (E.taken err.new) (E.failures err.old) (E.failures err.new) result (reason stop.now) }
{
    match stop {
        Stop::Project(fault) => say_fault(*fault, err),
        Stop::Unreadable(path) => {
            let parts: [&[u8]; 3] = [b": cannot read ", path.as_bytes(), b"\n"];
            write_each(err, &parts)
        }
        Stop::Write => write_all(err, b": cannot write\n"),
        Stop::Memory => write_all(err, b": out of memory\n"),
    }
}

fn say_fault<E: Out>(fault: ProjectFault, err: &mut E) -> Result<(), OutFault>
    ensures { Prints (E.taken err.old) (E.taken err.new) (E.failures err.old) (E.failures err.new) result (reason (Stop.Project fault)) }
{
    let mut line = Buffer::new();
    let parts: [&[u8]; 5] = [
        b": ",
        code_text(fault.code),
        b" line ",
        line.format(fault.line).as_bytes(),
        b"\n",
    ];
    write_each(err, &parts)
}

/// A code of project files as it is printed.
pub fn code_text(code: ProjectCode) -> &'static [u8]
    ensures { result.now ≡ code_text code }
{
    match code {
        ProjectCode::O1 => b"O1",
        ProjectCode::O2 => b"O2",
        ProjectCode::O3 => b"O3",
        ProjectCode::O4 => b"O4",
    }
}
