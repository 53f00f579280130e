//! The disk as a source of files.

ghost use Rattle.std.specs.Prelude.{◌≡◌};

use crate::session::{Source, SourceFault};
use std::alloc::Global;
use std::fs;
use std::io::{self, Read};
use std::rt::Files;

/// The files of a disk.
#[derive(Drop)]
pub struct Disk<'a, R> {
    rt: &'a R,
}

impl<'a, R: Files> Disk<'a, R> {
    pub fn new(rt: &'a R) -> Disk<'a, R>
        ensures { result.rt ≡ rt.entry }
    {
        Disk { rt }
    }
}

impl<R: Files> Source for Disk<'_, R> {
    fn read(&mut self, alloc: Global, path: &str, most: usize) -> Result<Vec<u8>, SourceFault> {
        let Ok(file) = fs::open(self.rt, path) else {
            return Err(SourceFault::Unreadable);
        };
        let mut bytes = Vec::new(alloc);
        match file.take(most as u64).read_to_end(&mut bytes) {
            Ok(_) => Ok(bytes),
            Err(error) => match error.kind() {
                io::ErrorKind::OutOfMemory => Err(SourceFault::Memory),
                _ => Err(SourceFault::Unreadable),
            },
        }
    }
}
