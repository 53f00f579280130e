//! The words of a call.

ghost use Rattle.std.specs.Prelude.{◌<◌, ◌+◌, ◌^◌, IfOk};

use sml_lex::fault::Memory;
use sml_tree::bare::Ident;
use std::alloc::{AllocError, AllocFailed, Global};
use std::rc::Rc;

/// Why a script was left.
#[derive(Clone, Copy, PartialEq, Eq, Debug)]
pub(crate) enum Fault {
    /// A growth of the script's own was refused.
    Memory,
    NotUnderstood,
}

impl From<Memory> for Fault {
    fn from(_memory: Memory) -> Fault {
        Fault::Memory
    }
}

impl From<AllocError> for Fault {
    fn from(_error: AllocError) -> Fault {
        Fault::Memory
    }
}

impl<T: Drop> From<AllocFailed<T>> for Fault {
    fn from(_error: AllocFailed<T>) -> Fault {
        Fault::Memory
    }
}

/// The words that are left of a call, and the number of the turn in which it is made.
#[derive(Clone, Copy)]
pub(crate) struct Words<'a> {
    rest: &'a str,
    turn: Option<u32>,
}

impl<'a> Words<'a> {
    pub(crate) fn new(text: &'a str, turn: Option<u32>) -> Words<'a> {
        Words { rest: text, turn }
    }

    pub(crate) fn is_at_end(&self) -> bool {
        self.rest.is_empty()
    }

    /// The next word.
    pub(crate) fn word(&mut self) -> Result<&'a str, Fault> {
        let text = self.rest;
        if text.is_empty() {
            return Err(Fault::NotUnderstood);
        }
        match text.split_once(' ') {
            Some((word, rest)) => {
                self.rest = rest;
                Ok(word)
            }
            None => {
                self.rest = "";
                Ok(text)
            }
        }
    }

    /// The next word, a number.
    pub(crate) fn number(&mut self) -> Result<u32, Fault> {
        let word = self.word()?;
        self.number_in(word)
    }

    /// The next word, the number of one of so many unknowns.
    pub(crate) fn unknown(&mut self, count: usize) -> Result<u32, Fault>
        ensures { IfOk result (λ number. number < count) }
    {
        let number = self.number()?;
        if number as usize >= count {
            return Err(Fault::NotUnderstood);
        }
        Ok(number)
    }

    /// The next word, a number that has one after it.
    pub(crate) fn limit(&mut self) -> Result<u32, Fault>
        ensures { IfOk result (λ limit. limit + 1 < 2 ^ 32) }
    {
        let limit = self.number()?;
        if limit == u32::MAX {
            return Err(Fault::NotUnderstood);
        }
        Ok(limit)
    }

    /// The number that a word is.
    pub(crate) fn number_in(&self, word: &str) -> Result<u32, Fault> {
        if let Some((left, right)) = word.split_once('+') {
            let sum = self.simple(left)?.checked_add(self.simple(right)?);
            return sum.ok_or(Fault::NotUnderstood);
        }
        if let Some((left, right)) = word.split_once('-') {
            let difference = self.simple(left)?.checked_sub(self.simple(right)?);
            return difference.ok_or(Fault::NotUnderstood);
        }
        self.simple(word)
    }

    /// The bytes of a label: those of the word, or after `#` those of a number.
    pub(crate) fn label(&mut self, alloc: Global) -> Result<Ident, Fault> {
        let word = self.word()?;
        let bytes = match word.strip_prefix('#') {
            Some(number) => Vec::from_slice(alloc, &self.number_in(number)?.to_be_bytes())?,
            None => Vec::from_slice(alloc, word.as_bytes())?,
        };
        Ok(Rc::new(alloc, bytes)?)
    }

    fn simple(&self, word: &str) -> Result<u32, Fault> {
        if word == "i" {
            return self.turn.ok_or(Fault::NotUnderstood);
        }
        word.parse::<u32>().map_err(|_| Fault::NotUnderstood)
    }
}
