//! Places in a file, made of places in a declaration.

ghost use Rattle.std.specs.Prelude.{◌≡◌};
ghost use Rattle.sml_shown.specs.Spots as spec;
ghost use Rattle.sml_shown.specs.Spots.{column_in_file, line_in_file};

use sml_lex::fault::Place;

/// A line of a file and a column in it, both from 1. Columns count bytes.
#[derive(Clone, Copy, PartialEq, Eq, Debug)]
pub struct Spot {
    pub line: u64,
    pub column: u64,
}

/// A place that is counted from the file's first byte.
fn spot_of(place: Place) -> Spot
    ensures { result ≡ spec.spot_of place }
{
    Spot {
        line: u64::from(place.line),
        column: u64::from(place.column),
    }
}

/// Where a place of a declaration stands in the file, if the declaration's first token stands at `start`.
pub fn in_file(start: Place, place: Place) -> Spot
    ensures line { result.line ≡ line_in_file start.line place.line }
    ensures column { result.column ≡ column_in_file start.column place.line place.column }
{
    let start = spot_of(start);
    let line = u64::from(place.line);
    let column = u64::from(place.column);
    if line > 1 {
        return Spot {
            line: start.line + (line - 1),
            column,
        };
    }
    Spot {
        line: start.line,
        column: start.column + column.saturating_sub(1),
    }
}
