//! The diagnostics that the client was told of last.

ghost use Rattle.std.specs.Prelude.{◌≡◌, ◌+◌, ◌-◌, ◌^◌, ℕ, IfOk, List, None, OnOk, min};
ghost use Rattle.std.specs.BTreeMap.{get_by_text};
ghost use Rattle.std.specs.Fmt.{signed_decimal};
ghost use Rattle.sml_client.specs.Answers.{OnlyTells, TellsOf, params_json, version_member};
ghost use Rattle.sml_client.specs.Texts.{Adds};

use crate::messages::send_diagnostics;
use crate::written::Text;
use itoa::Buffer;
use sml_lex::fault::Memory;
use sml_reply::sink::VecOut;
use std::alloc::Global;
use std::collections::BTreeMap;

/// What was told of a file: in which round it was looked at last, whether there were diagnostics, and the parameters.
#[derive(Drop)]
struct Told {
    round: u64,
    is_empty: bool,
    params: Vec<u8>,
}

/// What was told of each file, by its address, and the number of the round.
#[derive(Drop)]
pub struct Published {
    round: u64,
    told: BTreeMap<String, Told>,
}

impl Published {
    pub fn new(alloc: Global) -> Published
        ensures round { result.round ≡ 0 }
        ensures told { (uri : List ℕ) → get_by_text result.told uri ≡ None }
    {
        Published {
            round: 0,
            told: BTreeMap::new(alloc),
        }
    }

    /// Begins a round, in which each file that has diagnostics is told of.
    pub fn begin(&mut self)
        ensures round { self.new.round ≡ min (self.old.round + 1) (2 ^ 64 - 1) }
        ensures told { self.new.told ≡ self.old.told }
    {
        self.round = self.round.saturating_add(1);
    }

    /// Tells of a file by these parameters, unless nothing changed and it needn't be told.
    pub fn tell(
        &mut self,
        alloc: Global,
        uri: String,
        params: Vec<u8>,
        is_empty: bool,
        is_needed: bool,
        out: &mut VecOut,
    ) -> Result<(), Memory>
        ensures { OnOk result (TellsOf params.items is_needed out.old.bytes.items out.new.bytes.items) }
    {
        let sent = if is_needed || !self.is_told(&uri, &params) {
            send_diagnostics(alloc, &params, out)
        } else {
            Ok(())
        };
        let told = Told {
            round: self.round,
            is_empty,
            params,
        };
        match self.told.insert(uri, told) {
            Ok(_) => sent,
            Err(_) => Err(Memory),
        }
    }

    /// Whether a file was told of last by these parameters.
    fn is_told(&self, uri: &str, params: &[u8]) -> bool {
        match self.told.get(uri) {
            Some(told) => told.params.as_slice() == params,
            None => false,
        }
    }

    /// Ends a round: the diagnostics of files that weren't looked at go.
    pub fn end(&mut self, alloc: Global, out: &mut VecOut) -> Result<(), Memory>
        ensures { OnOk result (OnlyTells out.old.bytes.items out.new.bytes.items) }
    {
        let gone = self.gone(alloc)?;
        for uri in gone.as_slice() {
            if let Some(told) = self.told.remove(uri) {
                if !told.is_empty {
                    clear(alloc, uri, out)?;
                }
            }
        }
        Ok(())
    }

    /// The addresses of files that weren't looked at in this round.
    fn gone(&self, alloc: Global) -> Result<Vec<String>, Memory> {
        let mut gone = Vec::new(alloc);
        for (uri, told) in self.told.iter() {
            if told.round != self.round {
                gone.push(uri.clone()?)?;
            }
        }
        Ok(gone)
    }
}

/// Tells that a file has no diagnostics.
fn clear(alloc: Global, uri: &str, out: &mut VecOut) -> Result<(), Memory>
    ensures { OnOk result (OnlyTells out.old.bytes.items out.new.bytes.items) }
{
    let params = params_text(alloc, uri, None, &[])?;
    send_diagnostics(alloc, &params, out)
}

/// The parameters of a notification of these diagnostics.
pub fn params_text(
    alloc: Global,
    uri: &str,
    version: Option<i64>,
    list: &[u8],
) -> Result<Vec<u8>, Memory>
    ensures { IfOk result (λ v. v.items ≡ params_json uri.now version list.now) }
{
    let mut text = Text::new(alloc);
    text.push_all(&[b"{\"diagnostics\":[", list, b"],\"uri\":"]);
    text.push_string(uri.as_bytes());
    push_version(&mut text, &version);
    text.push(b"}");
    text.finish()
}

/// Adds the version of a document, where it has one, as a further member of an object of JSON.
fn push_version(text: &mut Text, version: &Option<i64>)
    ensures { Adds text.old text.new (version_member version.now) }
{
    if let Some(number) = version {
        text.push(b",\"version\":");
        push_signed(text, number);
    }
}

/// Adds the digits of a number, after a minus where it is less than 0.
fn push_signed(text: &mut Text, number: &i64)
    ensures { Adds text.old text.new (signed_decimal number.now) }
{
    let number = *number;
    let mut digits = Buffer::new();
    text.push(digits.format(number).as_bytes());
}
