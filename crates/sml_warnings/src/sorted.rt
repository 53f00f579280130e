//! The warnings of a declaration in their order.

ghost use Rattle.std.specs.Prelude.{◌≡◌, ◌↔◌, map, IfOk};
ghost use Rattle.std.specs.List.{Contains};
ghost use Rattle.std.specs.List.Sorted.{IsStrictlySortedBy};
ghost use Rattle.sml_patterns.specs.Warnings.{warning_cmp};
ghost use Rattle.sml_warnings.specs.Sorting.{IsOfMatch, AreOfMatches, warning_of};

use sml_lex::fault::{Code, Memory, Place, Warning};
use sml_patterns::judge::sort_distinct;
use std::alloc::Global;

/// What a warning says.
#[derive(Clone, Copy, PartialEq, Eq, PartialOrd, Ord, Drop)]
enum Flaw {
    Redundant,
    OpenMatch,
    OpenBinding,
}

/// What a warning is sorted by.
#[derive(Clone, Copy, PartialEq, Eq, PartialOrd, Ord, Drop)]
struct Key {
    line: u32,
    column: u32,
    flaw: Flaw,
}

fn key_of(warning: &Warning) -> Key
    ensures { IsOfMatch warning.now.code → warning_of result ≡ warning.now }
{
    let flaw = match warning.code {
        Code::P1 => Flaw::Redundant,
        Code::P2 => Flaw::OpenMatch,
        _ => Flaw::OpenBinding,
    };
    Key {
        line: warning.place.line,
        column: warning.place.column,
        flaw,
    }
}

fn warning_of(key: Key) -> Warning
    ensures { result ≡ warning_of key }
{
    let code = match key.flaw {
        Flaw::Redundant => Code::P1,
        Flaw::OpenMatch => Code::P2,
        Flaw::OpenBinding => Code::P3,
    };
    let place = Place {
        line: key.line,
        column: key.column,
    };
    Warning { code, place }
}

fn keys_of(alloc: Global, warnings: &[Warning]) -> Result<Vec<Key>, Memory>
    ensures { AreOfMatches warnings.now → IfOk result (λ keys. map warning_of keys.items ≡ warnings.now) }
{
    let mut keys = Vec::new(alloc);
    for warning in warnings {
        keys.push(key_of(warning))?;
    }
    Ok(keys)
}

fn warnings_of(alloc: Global, keys: &[Key]) -> Result<Vec<Warning>, Memory>
    ensures { IfOk result (λ warnings. warnings.items ≡ map warning_of keys.now) }
{
    let mut warnings = Vec::new(alloc);
    for key in keys {
        warnings.push(warning_of(*key))?;
    }
    Ok(warnings)
}

/// The warnings of matches and bindings by place (line, then column) and code, each once.
pub fn sorted(alloc: Global, warnings: &[Warning]) -> Result<Vec<Warning>, Memory>
    ensures rises { IfOk result (λ found. IsStrictlySortedBy warning_cmp found.items) }
    ensures same { AreOfMatches warnings.now → IfOk result (λ found. (x : Warning) → Contains found.items x ↔ Contains warnings.now x) }
{
    let mut keys = keys_of(alloc, warnings)?;
    sort_distinct(&mut keys);
    let found = warnings_of(alloc, &keys)?;
    Ok(found)
}
