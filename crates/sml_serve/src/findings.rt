//! What is found in a unit: its faults and warnings, and which of its declarations were refused.

use crate::outline::first_from;
use sml_client::positions::{Encoding, Lines, Range};
use sml_client::written::Text;
use sml_lex::fault::{Memory, Place};
use sml_lex::token::Token;
use sml_parse::parse::{Parsed, parse, release};
use sml_projects::project::ProjectUnit;
use sml_reasons::reasons::{Reason, reasons};
use sml_reply::form::{Form, Version};
use sml_reply::reply::{Reply, print};
use sml_reply::sink::VecOut;
use sml_shown::binders::bound_by;
use sml_shown::refusals::{Refusal, Refusals, unbound_key};
use sml_shown::remark::{Remark, cut, fault_in, warning_in};
use sml_shown::spots::Spot;
use sml_shown::unit_map::UnitMap;
use sml_tree::structures::TopDec;
use sml_units::project::Checked;
use std::alloc::Global;

/// Where the identifier of a fault would come from.
#[derive(Drop)]
pub enum Origin {
    /// The fault speaks of none.
    Nowhere,
    /// A refused declaration of the unit.
    Own(Refusal),
    /// Something that the units needed may have refused, under this key.
    Needs(Vec<u8>),
}

/// A fault or a warning, with what is said of it: what its code means, and the lines of its reason.
pub struct Finding {
    pub is_warning: bool,
    pub range: Range,
    pub code: Vec<u8>,
    pub text: Vec<u8>,
    pub origin: Origin,
}

impl Drop for Finding {
    fn drop(self) {
        let Finding {
            is_warning: _,
            range: _,
            code: _,
            text: _,
            origin: _,
        } = self;
    }
}

/// The faults and warnings of a unit, and what its refused declarations would bind.
pub struct Findings {
    pub items: Vec<Finding>,
    pub refusals: Refusals,
}

impl Drop for Findings {
    fn drop(self) {
        let Findings {
            items: _,
            refusals: _,
        } = self;
    }
}

/// A unit that was checked, by its place in the order.
#[derive(Clone, Copy)]
pub struct Answered<'a> {
    pub checked: &'a Checked,
    pub unit: &'a ProjectUnit,
    pub place: usize,
    pub encoding: Encoding,
}

impl<'a> Answered<'a> {
    /// The replies to the unit's declarations.
    pub fn replies(&self) -> &'a [Reply] {
        match self.checked.replies().units.get(self.place) {
            Some(unit) => unit.replies.as_slice(),
            None => &[],
        }
    }
}

/// Where the text of a unit has its tokens, its declarations and its lines.
pub struct Chart<'a> {
    pub alloc: Global,
    pub map: UnitMap<'a>,
    pub lines: Lines<'a>,
}

impl Drop for Chart<'_> {
    fn drop(self) {
        let Chart {
            alloc: _,
            map: _,
            lines: _,
        } = self;
    }
}

impl<'a> Chart<'a> {
    /// The chart of a unit.
    pub fn new(alloc: Global, answered: Answered<'a>) -> Result<Chart<'a>, Memory> {
        let lines = Lines::new(alloc, &answered.unit.text, answered.encoding)?;
        let map = UnitMap::new(alloc, &answered.unit.text)?;
        Ok(Chart { alloc, map, lines })
    }

    /// The byte at a place of the file.
    pub fn byte_at(&self, spot: Spot) -> usize {
        self.lines.byte_at(spot.line, spot.column)
    }

    /// From a place of the declaration of this number to the end of the token that begins there, or of the character where
    /// none does.
    fn range(&self, number: usize, place: Place) -> Range {
        let start = self.byte_at(self.map.in_file(number, place));
        let end = match token_end(&self.map.lexed.tokens, start) {
            Some(end) => end,
            None => self.lines.after(start),
        };
        self.lines.range(start, end)
    }
}

/// The end of the token that begins at this byte.
fn token_end(tokens: &[Token], start: usize) -> Option<usize> {
    let token = tokens.get(first_from(tokens, start))?;
    if token.span.start == start {
        Some(token.span.end)
    } else {
        None
    }
}

impl Findings {
    /// Nothing is found.
    pub fn new(alloc: Global) -> Findings {
        Findings {
            items: Vec::new(alloc),
            refusals: Refusals::new(alloc),
        }
    }

    /// Adds the fault or the warnings of the reply to the declaration of this number.
    fn take(
        &mut self,
        chart: &Chart,
        number: usize,
        reply: &Reply,
        reason: &[Vec<u8>],
    ) -> Result<(), Memory> {
        if reply.is_accepted() && reply.warnings().is_empty() {
            return Ok(());
        }
        let printed = printed(chart.alloc, reply, true)?;
        self.lines(chart, number, printed.bytes(), reason)
    }

    /// Adds the faults and the warnings that these lines of a reply tell.
    fn lines(
        &mut self,
        chart: &Chart,
        number: usize,
        printed: &[u8],
        reason: &[Vec<u8>],
    ) -> Result<(), Memory> {
        let mut rest = printed;
        for _turn in 0..printed.len() {
            let Some((line, others)) = cut(rest, b'\n') else {
                return Ok(());
            };
            self.line(chart, number, line, reason)?;
            rest = others;
        }
        Ok(())
    }

    /// Adds the fault or the warning that a line of a reply tells, if it tells one.
    fn line(
        &mut self,
        chart: &Chart,
        number: usize,
        line: &[u8],
        reason: &[Vec<u8>],
    ) -> Result<(), Memory> {
        if let Some(remark) = warning_in(line) {
            self.put(chart, number, &remark, true, &[])
        } else if let Some(remark) = fault_in(line) {
            self.put(chart, number, &remark, false, reason)
        } else {
            Ok(())
        }
    }

    /// Adds a fault or a warning.
    fn put(
        &mut self,
        chart: &Chart,
        number: usize,
        remark: &Remark,
        is_warning: bool,
        reason: &[Vec<u8>],
    ) -> Result<(), Memory> {
        let origin = self.origin(chart.alloc, remark)?;
        let text = said(chart.alloc, remark.text, reason)?;
        self.items.push(Finding {
            is_warning,
            range: chart.range(number, remark.place),
            code: Vec::from_slice(chart.alloc, remark.code)?,
            text,
            origin,
        })?;
        Ok(())
    }

    /// Where the identifier of a fault would come from.
    fn origin(&self, alloc: Global, remark: &Remark) -> Result<Origin, Memory> {
        let Some(key) = unbound_key(alloc, remark)? else {
            return Ok(Origin::Nowhere);
        };
        match self.refusals.last(&key) {
            Some(Some(refusal)) => Ok(Origin::Own(refusal)),
            Some(None) => Ok(Origin::Nowhere),
            None => Ok(Origin::Needs(key)),
        }
    }

    /// Adds what is found in the declaration of this number, with its reply, its reason, and its tree where there is one.
    fn add(
        &mut self,
        chart: &Chart,
        number: usize,
        reply: &Reply,
        reason: &[Vec<u8>],
        declaration: Option<&TopDec>,
    ) -> Result<(), Memory> {
        self.take(chart, number, reply, reason)?;
        match declaration {
            Some(declaration) => self.note(chart, number, reply.is_accepted(), declaration),
            None => Ok(()),
        }
    }

    /// Notes what a declaration binds, or would bind.
    fn note(
        &mut self,
        chart: &Chart,
        number: usize,
        is_accepted: bool,
        declaration: &TopDec,
    ) -> Result<(), Memory> {
        let refusal = if is_accepted {
            None
        } else {
            Some(Refusal {
                number,
                spot: chart.map.declaration(number),
            })
        };
        self.refusals
            .note(bound_by(chart.alloc, declaration)?, refusal)
    }
}

/// A text, and the lines of its reason.
fn said(alloc: Global, text: &[u8], reason: &[Vec<u8>]) -> Result<Vec<u8>, Memory> {
    let mut said = Text::new(alloc);
    said.push(text);
    for line in reason {
        said.push(b"\n");
        said.push(line);
    }
    said.finish()
}

/// A reply as it is printed in version 2.
pub fn printed(alloc: Global, reply: &Reply, warnings: bool) -> Result<VecOut, Memory> {
    let form = Form {
        version: Version::Two,
        warnings,
    };
    let mut out = VecOut::new(alloc);
    match print(reply, form, &mut out) {
        Ok(_) => Ok(out),
        Err(_) => Err(Memory),
    }
}

/// Whether one of the replies is no acceptance.
fn is_any_refused(replies: &[Reply]) -> bool {
    for reply in replies {
        if !reply.is_accepted() {
            return true;
        }
    }
    false
}

/// Whether one of the replies has warnings.
fn is_any_warned(replies: &[Reply]) -> bool {
    for reply in replies {
        if !reply.warnings().is_empty() {
            return true;
        }
    }
    false
}

/// What is found in a unit.
pub fn findings_of(alloc: Global, answered: Answered) -> Result<Findings, Memory> {
    let replies = answered.replies();
    if is_any_refused(replies) || is_any_warned(replies) {
        let chart = Chart::new(alloc, answered)?;
        findings_in(answered, &chart)
    } else {
        Ok(Findings::new(alloc))
    }
}

/// What is found in a unit with this chart. The unit is parsed again where a declaration was refused.
fn findings_in(answered: Answered, chart: &Chart) -> Result<Findings, Memory> {
    if !is_any_refused(answered.replies()) {
        return all_of(chart, answered.replies(), &[], &[]);
    }
    let Parsed {
        declarations,
        piece,
        fault: _,
    } = parse(chart.alloc, &chart.map.lexed)?;
    let found = traced(answered, chart, &declarations);
    release(declarations, piece);
    found
}

/// What is found in a unit with these declarations.
fn traced(answered: Answered, chart: &Chart, declarations: &[TopDec]) -> Result<Findings, Memory> {
    let replies = answered.replies();
    let unit = answered.checked.again(chart.alloc, answered.place)?;
    let reasons = reasons(chart.alloc, unit, replies, declarations)?;
    all_of(chart, replies, &reasons, declarations)
}

/// What the replies say, with these reasons and these declarations of the first ones.
fn all_of(
    chart: &Chart,
    replies: &[Reply],
    reasons: &[Reason],
    declarations: &[TopDec],
) -> Result<Findings, Memory> {
    let mut found = Findings::new(chart.alloc);
    for (index, reply) in replies.iter().enumerate() {
        let number = index.saturating_add(1);
        let reason = match reasons.get(index) {
            Some(reason) => reason.as_slice(),
            None => &[],
        };
        found.add(chart, number, reply, reason, declarations.get(index))?;
    }
    Ok(found)
}
