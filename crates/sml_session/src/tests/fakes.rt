//! Files in memory, and sinks that take little, or fail.

ghost use Rattle.std.specs.Prelude.{◌≡◌, ◌≤◌, None, length, IfSome};

use crate::session::{Source, SourceFault, session};
use sml_reply::sink::{Out, OutFault};
use std::alloc::{AllocError, Global};
use std::process::Abort;

/// Files that note the paths asked for: one that ends with `project` has a text, `missing` can't be read, and any other is
/// the unit, which has a text or a fault.
#[derive(Drop)]
pub struct Files {
    pub project: Vec<u8>,
    pub unit: Vec<u8>,
    pub fault: Option<SourceFault>,
    pub paths: String,
}

impl Files {
    pub fn new(
        alloc: Global,
        project: &[u8],
        unit: &[u8],
        fault: Option<SourceFault>,
    ) -> Result<Files, AllocError> {
        Ok(Files {
            project: Vec::from_slice(alloc, project)?,
            unit: Vec::from_slice(alloc, unit)?,
            fault,
            paths: String::new(alloc),
        })
    }

    fn note(&mut self, path: &str, most: usize) -> Result<(), AllocError> {
        self.paths.push_str(path)?;
        if most == 1_048_577 {
            self.paths.push_str("\n")?;
        }
        Ok(())
    }
}

fn copy(alloc: Global, text: &[u8]) -> Result<Vec<u8>, SourceFault> {
    match Vec::from_slice(alloc, text) {
        Ok(bytes) => Ok(bytes),
        Err(_) => Err(SourceFault::Memory),
    }
}

impl Source for Files {
    fn read(&mut self, alloc: Global, path: &str, most: usize) -> Result<Vec<u8>, SourceFault> {
        if self.note(path, most).is_err() {
            return Err(SourceFault::Memory);
        }
        if path.ends_with("project") {
            return copy(alloc, &self.project);
        }
        if path == "missing" {
            return Err(SourceFault::Unreadable);
        }
        match self.fault {
            Some(fault) => Err(fault),
            None => copy(alloc, &self.unit),
        }
    }
}

/// What a sink takes.
#[derive(Clone, Copy)]
pub enum Takes {
    All,
    /// One byte a call, so many in all; it fails from then on.
    Bytes(usize),
    /// All, but it fails at the call after so many.
    AllBut(usize),
    Nothing,
}

/// A sink that keeps what it takes.
#[derive(Drop)]
pub struct Sink {
    takes: Takes,
    pub taken: Vec<u8>,
    calls: usize,
    pub failures: u64,
}

impl Sink {
    fn new(alloc: Global, takes: Takes) -> Sink {
        Sink {
            takes,
            taken: Vec::new(alloc),
            calls: 0,
            failures: 0,
        }
    }

    /// How many of so many bytes are taken, unless the call fails.
    fn most(&self, count: usize) -> Option<usize>
        ensures { IfSome result (λ n. n ≤ count) }
    {
        match self.takes {
            Takes::All => Some(count),
            Takes::Bytes(all) => {
                if self.taken.len() < all {
                    Some(count.min(1))
                } else {
                    None
                }
            }
            Takes::AllBut(calls) => {
                if self.calls == calls {
                    None
                } else {
                    Some(count)
                }
            }
            Takes::Nothing => Some(0),
        }
    }

    /// Takes some of the bytes, and says how many, unless the call fails.
    fn take(&mut self, bytes: &[u8]) -> Option<usize>
        ensures bound { IfSome result (λ n. n ≤ length bytes.now) }
        ensures failures { self.new.failures ≡ self.old.failures }
    {
        let most = self.most(bytes.len());
        self.calls = self.calls.saturating_add(1);
        let count = most?;
        match self.taken.extend_from_slice(&bytes[..count]) {
            Ok(_) => Some(count),
            Err(_) => None,
        }
    }
}

impl Out for Sink {
    ghost taken = { λ _. None };

    ghost failures = { λ s. s.failures };

    fn write(&mut self, bytes: &[u8]) -> Result<usize, OutFault> {
        match self.take(bytes) {
            Some(count) => {
                if count == 0 && !bytes.is_empty() {
                    self.failures = self.failures.saturating_add(1);
                }
                Ok(count)
            }
            None => {
                self.failures = self.failures.saturating_add(1);
                Err(OutFault)
            }
        }
    }
}

/// The status of a session, and what it wrote.
#[derive(Drop)]
pub struct Answer {
    pub status: u8,
    pub out: Sink,
    pub err: Sink,
}

impl Answer {
    /// Demands the status, the output and the standard error.
    pub fn expect(&self, rt: &impl Abort, status: u8, out: &[u8], err: &[u8]) {
        assert_eq!(rt; self.err.taken.as_slice(), err);
        assert_eq!(rt; self.out.taken.as_slice(), out);
        assert_eq!(rt; self.status, status);
    }
}

/// The words of a command line.
fn words_of(alloc: Global, texts: &[&str]) -> Result<Vec<String>, AllocError> {
    let mut words = Vec::new(alloc);
    for text in texts {
        words.push(String::from_str(alloc, text)?)?;
    }
    Ok(words)
}

/// The answer to a command line over these files, with an output and a standard error that take this.
pub fn ask_with(
    alloc: Global,
    texts: &[&str],
    files: &mut Files,
    out: Takes,
    err: Takes,
) -> Result<Answer, AllocError> {
    let words = words_of(alloc, texts)?;
    let mut out = Sink::new(alloc, out);
    let mut err = Sink::new(alloc, err);
    let status = session(alloc, &words, files, &mut out, &mut err);
    Ok(Answer { status, out, err })
}

/// The same with sinks that take all.
pub fn ask(alloc: Global, texts: &[&str], files: &mut Files) -> Result<Answer, AllocError> {
    ask_with(alloc, texts, files, Takes::All, Takes::All)
}
