//! JSON that is written, bit by bit.

ghost use Rattle.std.specs.Prelude.{◌≡◌, ◌+◌, ◌≤◌, [], IfOk, MatchResult, decimal, false, length, map, true, vec_capacity, vec_len};
ghost use Rattle.sml_reply.specs.Sinks.{in_turn};
ghost use Rattle.sml_client.specs.Texts.{Adds, json_string};

use itoa::Buffer;
use serde_json::Value;
use sml_lex::fault::Memory;
use std::alloc::Global;

/// A text that grows. A growth that is refused is noted and shows at the end, so that nothing has to be asked before.
#[derive(Drop)]
pub struct Text {
    alloc: Global,
    bytes: Vec<u8>,
    is_lost: bool,
}

impl Text {
    /// A text without bytes.
    pub fn new(alloc: Global) -> Text
        ensures bytes { result.bytes.items ≡ [] }
        ensures kept { result.is_lost ≡ false }
    {
        Text {
            alloc,
            bytes: Vec::new(alloc),
            is_lost: false,
        }
    }

    /// The bytes so far.
    pub fn bytes(&self) -> &[u8]
        ensures { result.now ≡ self.now.bytes.items }
    {
        self.bytes.as_slice()
    }

    /// Notes that memory was refused.
    pub fn lose(&mut self)
        ensures lost { self.new.is_lost ≡ true }
        ensures bytes { self.new.bytes ≡ self.old.bytes }
    {
        self.is_lost = true;
    }

    /// Adds bytes.
    pub fn push(&mut self, bytes: &[u8])
        ensures added { Adds self.old self.new bytes.now }
        ensures room { vec_len self.old.bytes + length bytes.now ≤ vec_capacity self.old.bytes → self.new.is_lost ≡ self.old.is_lost }
    {
        if self.bytes.extend_from_slice(bytes).is_err() {
            self.lose();
        }
    }

    /// Adds bytes, one after the other.
    pub fn push_all(&mut self, parts: &[&[u8]])
        ensures { Adds self.old self.new (in_turn (map (λ p. p.now) parts.now)) }
    {
        for part in parts {
            self.push(*part);
        }
    }

    /// Adds the digits of a number.
    pub fn push_number(&mut self, number: u64)
        ensures { Adds self.old self.new (decimal number) }
    {
        let mut digits = Buffer::new();
        self.push(digits.format(number).as_bytes());
    }

    /// Adds a string; what is no UTF-8 is replaced.
    pub fn push_string(&mut self, bytes: &[u8])
        ensures { Adds self.old self.new (json_string bytes.now) }
    {
        match quoted(self.alloc, bytes) {
            Ok(string) => self.push(&string),
            Err(_) => self.lose(),
        }
    }

    /// Adds a text as a string.
    pub fn push_quoted(&mut self, text: &Text)
        ensures added { Adds self.old self.new (json_string text.now.bytes.items) }
        ensures lost { text.now.is_lost ≡ true → self.new.is_lost ≡ true }
    {
        self.push_string(text.bytes());
        if text.is_lost {
            self.lose();
        }
    }

    /// The bytes, if there was memory for all of them.
    pub fn finish(self) -> Result<Vec<u8>, Memory>
        ensures { MatchResult result (λ v. (v ≡ self.bytes) × (self.is_lost ≡ false)) (λ _. self.is_lost ≡ true) }
    {
        let Text { bytes, is_lost, .. } = self;
        if is_lost { Err(Memory) } else { Ok(bytes) }
    }
}

/// A string as it is written.
fn quoted(alloc: Global, bytes: &[u8]) -> Result<Vec<u8>, Memory>
    ensures { IfOk result (λ v. v.items ≡ json_string bytes.now) }
{
    let value = Value::String(String::from_utf8_lossy(alloc, bytes)?);
    Ok(value.to_vec(alloc)?)
}
