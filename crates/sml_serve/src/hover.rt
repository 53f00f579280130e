//! What is shown of the declaration at a position.

use crate::findings::{Answered, Chart};
use crate::outline::{accepted, bound_text};
use sml_client::positions::{Position, Range, push_range};
use sml_client::written::Text;
use sml_lex::fault::Memory;
use std::alloc::Global;

/// What is shown where there is nothing.
pub const NOTHING: &[u8] = b"null";

/// What the declaration at a position binds, as JSON; nothing where there is none, or where it binds nothing.
pub fn hover(
    alloc: Global,
    answered: Answered,
    position: Position,
    text: &mut Text,
) -> Result<(), Memory> {
    let chart = Chart::new(alloc, answered)?;
    push_hover(answered, &chart, position, text)
}

fn push_hover(
    answered: Answered,
    chart: &Chart,
    position: Position,
    text: &mut Text,
) -> Result<(), Memory> {
    let count = answered.replies().len();
    let number = chart.number_at(chart.lines.byte(position), count);
    let Some(reply) = accepted(answered, number) else {
        text.push(NOTHING);
        return Ok(());
    };
    let bound = bound_text(chart.alloc, reply)?;
    let extent = chart.extent(number, count);
    push_shown(&bound, chart.lines.range(extent.start, extent.end), text);
    Ok(())
}

/// Adds plain text, without the end of its last line, and its range.
fn push_shown(bound: &[u8], range: Range, text: &mut Text) {
    let Some((_, plain)) = bound.split_last() else {
        text.push(NOTHING);
        return;
    };
    text.push(b"{\"contents\":{\"kind\":\"plaintext\",\"value\":");
    text.push_string(plain);
    text.push(b"},");
    push_range(text, b"range", range);
    text.push(b"}");
}
