//! What is shown of one unit, as objects of JSON.

use crate::page::{Followed, Page};
use sml_lex::fault::Memory;
use sml_shown::record::Record;
use sml_shown::refusals::{detail_of, meaning_of};
use sml_shown::remark::Remark;
use sml_shown::spots::Spot;
use std::alloc::Global;

/// The object of the declaration of this number, with a place in its file.
fn record_at(
    alloc: Global,
    page: &Page,
    kind: &[u8],
    number: usize,
    spot: Spot,
) -> Result<Record, Memory> {
    let mut record = Record::new(alloc);
    record.put_text("kind", kind)?;
    record.put_text("unit", page.name.as_bytes())?;
    record.put_text("file", page.file.as_bytes())?;
    record.put_number("number", number as u64)?;
    record.put_number("line", spot.line)?;
    record.put_number("column", spot.column)?;
    record.put_number("end_column", page.map.end_column(spot))?;
    Ok(record)
}

/// The object of the declaration that a fault follows from.
fn source_record(alloc: Global, source: &Followed) -> Result<Record, Memory> {
    let mut record = Record::new(alloc);
    record.put_text("unit", source.unit.as_bytes())?;
    record.put_text("file", source.file.as_bytes())?;
    record.put_number("number", source.refusal.number as u64)?;
    record.put_number("line", source.refusal.spot.line)?;
    record.put_number("column", source.refusal.spot.column)?;
    Ok(record)
}

/// The line of a fault or a warning.
pub fn push_remark(
    alloc: Global,
    page: &Page,
    kind: &[u8],
    number: usize,
    remark: &Remark,
    source: Option<Followed>,
    reason: &[Vec<u8>],
    text: &mut Vec<u8>,
) -> Result<(), Memory> {
    let spot = page.spot(number, remark);
    let mut record = record_at(alloc, page, kind, number, spot)?;
    record.put_text("code", remark.code)?;
    record.put_text("text", meaning_of(remark))?;
    if let Some(detail) = detail_of(remark) {
        record.put_text("detail", detail)?;
    }
    if let Some(source) = source {
        record.put_record("follows", source_record(alloc, &source)?)?;
    }
    put_reason(alloc, &mut record, reason)?;
    record.push_line(text)
}

/// Adds the lines of a reason, if there are some.
fn put_reason(alloc: Global, record: &mut Record, reason: &[Vec<u8>]) -> Result<(), Memory> {
    if reason.is_empty() {
        return Ok(());
    }
    let mut lines: Vec<&[u8]> = Vec::new(alloc);
    for line in reason {
        lines.push(line.as_slice())?;
    }
    record.put_texts("types", &lines)
}

/// The line of what a declaration binds.
pub fn push_bound(
    alloc: Global,
    page: &Page,
    number: usize,
    lines: &[&[u8]],
    text: &mut Vec<u8>,
) -> Result<(), Memory> {
    let spot = page.map.declaration(number);
    let mut record = record_at(alloc, page, b"bound", number, spot)?;
    record.put_texts("types", lines)?;
    record.push_line(text)
}
