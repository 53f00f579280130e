//! The values of constants, as their texts write them.
ghost use Rattle.std.specs.Prelude.{◌≡◌, ◌≤◌, ◌^◌, ◌++◌, IfOk, OnOk};
ghost use Rattle.std.specs.Option.{MatchOption, option_to_list};
ghost use Rattle.sml_lex.specs.Numbers.{magnitude, integer_value, word_value};
ghost use Rattle.sml_lex.specs.Strings.{IsString, IsStringValue, IsCharacter, IsCharacterValue};

use crate::bytes::{after, starts_with, starts_with_both};
use crate::fault::Memory;
use crate::items::item;
use crate::numbers::{magnitude_of, word_value_of};
use crate::strings::scan;
use std::alloc::Global;

/// The value of an integer constant, where it is within the limit.
pub fn integer(text: &[u8]) -> Option<i64>
    ensures { MatchOption result (2 ^ 63 ≤ magnitude text.now) (λ value. value ≡ integer_value text.now) }
{
    match magnitude_of(text) {
        Some(value) if value < 9_223_372_036_854_775_808 => {
            if starts_with(text, b'~') {
                Some(-(value as i64))
            } else {
                Some(value as i64)
            }
        }
        _ => None,
    }
}

/// The value of a word constant, where it is within the limit.
pub fn word(text: &[u8]) -> Option<u64>
    ensures { MatchOption result (2 ^ 64 ≤ word_value text.now) (λ value. value ≡ word_value text.now) }
{
    word_value_of(text)
}

/// The value of a text that is a character constant.
pub fn character(text: &[u8]) -> Option<u8>
    ensures { MatchOption result (IsCharacter text.now → ⊥) (IsCharacterValue text.now) }
{
    if !starts_with_both(text, b'#', b'"') {
        return None;
    }
    match scan(after(text, 1)) {
        Ok(extent) => {
            if extent.characters == 1 {
                if extent.bytes + 1 == text.len() {
                    return extent.first;
                }
            }
            None
        }
        Err(_) => None,
    }
}

fn push_some(value: &mut Vec<u8>, character: Option<u8>) -> Result<(), Memory>
    ensures { OnOk result (value.new.items ≡ value.old.items ++ option_to_list character) }
{
    if let Some(character) = character {
        value.push(character)?;
    }
    Ok(())
}

/// The value of a text that is a string constant.
pub fn string(alloc: Global, text: &[u8]) -> Result<Option<Vec<u8>>, Memory>
    ensures { IfOk result (λ value. MatchOption value (IsString text.now → ⊥) (λ characters. IsStringValue text.now characters.items)) }
{
    let mut value = Vec::new(alloc);
    if !starts_with(text, b'"') {
        return Ok(None);
    }
    let mut bytes = 1;
    'items: loop {
        let rest = after(text, bytes);
        if starts_with(rest, b'"') {
            if bytes + 1 == text.len() {
                return Ok(Some(value));
            }
            return Ok(None);
        }
        match item(rest) {
            Some(found) => {
                push_some(&mut value, found.value)?;
                bytes += found.bytes;
            }
            None => return Ok(None),
        }
    }
}
