//! Objects of JSON, each on a line of its own.

use serde_json::{Map, Value, push, put};
use sml_lex::fault::Memory;
use std::alloc::Global;

/// An object of JSON.
#[derive(Drop)]
pub struct Record {
    alloc: Global,
    members: Map<String, Value>,
}

/// A string of JSON; what is no UTF-8 is replaced.
fn string(alloc: Global, bytes: &[u8]) -> Result<Value, Memory> {
    Ok(Value::String(String::from_utf8_lossy(alloc, bytes)?))
}

impl Record {
    pub fn new(alloc: Global) -> Record {
        Record {
            alloc,
            members: Map::new(alloc),
        }
    }

    fn put(&mut self, name: &str, value: Value) -> Result<(), Memory> {
        Ok(put(&mut self.members, self.alloc, name, value)?)
    }

    /// Adds a text.
    pub fn put_text(&mut self, name: &str, bytes: &[u8]) -> Result<(), Memory> {
        let value = string(self.alloc, bytes)?;
        self.put(name, value)
    }

    /// Adds a number.
    pub fn put_number(&mut self, name: &str, number: u64) -> Result<(), Memory> {
        self.put(name, number.into())
    }

    /// Adds a list of texts.
    pub fn put_texts(&mut self, name: &str, texts: &[&[u8]]) -> Result<(), Memory> {
        let mut list = Vec::new(self.alloc);
        for text in texts {
            let value = string(self.alloc, *text)?;
            push(&mut list, value)?;
        }
        self.put(name, Value::Array(list))
    }

    /// Adds an object.
    pub fn put_record(&mut self, name: &str, record: Record) -> Result<(), Memory> {
        self.put(name, Value::Object(record.members))
    }

    /// Adds the object to a text, as a line.
    pub fn push_line(self, text: &mut Vec<u8>) -> Result<(), Memory> {
        let line = Value::Object(self.members).to_vec(self.alloc)?;
        text.extend_from_slice(&line)?;
        text.push(b'\n')?;
        Ok(())
    }
}
