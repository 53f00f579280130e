//! Where the declarations of a unit stand, and what they bind.

use crate::findings::{Answered, Chart, printed};
use sml_client::written::Text;
use sml_lex::fault::Memory;
use sml_lex::token::{Kind, Span, Token};
use sml_reply::reply::Reply;
use sml_shown::remark::{after, cut};
use std::alloc::Global;

impl Chart<'_> {
    /// The bytes of the declaration of this number, one of so many: from its first token to the end of its last one.
    pub fn extent(&self, number: usize, count: usize) -> Span {
        let start = self.byte_at(self.map.declaration(number));
        let limit = if number < count {
            let next = number.saturating_add(1);
            self.byte_at(self.map.declaration(next))
        } else {
            usize::MAX
        };
        let end = last_end(&self.map.lexed.tokens, start, limit);
        Span {
            start,
            end: end.max(start),
        }
    }

    /// The number of the declaration at a byte, one of so many; 0 where there is none.
    pub fn number_at(&self, at: usize, count: usize) -> usize {
        for number in 1..=count {
            let extent = self.extent(number, count);
            if extent.start <= at && at < extent.end {
                return number;
            }
            if extent.start > at {
                return 0;
            }
        }
        0
    }
}

/// The number of the first token that begins at this byte or after it.
pub fn first_from(tokens: &[Token], at: usize) -> usize {
    match tokens.binary_search_by(|token| token.span.start.cmp(&at)) {
        Ok(index) => index,
        Err(index) => index,
    }
}

/// The end of the last token between two bytes that is no semicolon; the first byte where there is none.
fn last_end(tokens: &[Token], start: usize, limit: usize) -> usize {
    let mut index = first_from(tokens, limit);
    for _turn in 0..tokens.len() {
        index = index.saturating_sub(1);
        let Some(token) = tokens.get(index) else {
            return start;
        };
        if token.span.start < start {
            return start;
        }
        if token.kind != Kind::Semicolon {
            return token.span.end;
        }
    }
    start
}

/// The lines of what an accepted declaration binds, without the spaces before them and with the ends of the lines.
pub fn bound_text(alloc: Global, reply: &Reply) -> Result<Vec<u8>, Memory> {
    let printed = printed(alloc, reply, false)?;
    let mut text = Text::new(alloc);
    push_bound(printed.bytes(), &mut text);
    text.finish()
}

/// Adds the lines after the first one of a reply.
fn push_bound(printed: &[u8], text: &mut Text) {
    let Some((_, first)) = cut(printed, b'\n') else {
        return;
    };
    let mut rest = first;
    for _turn in 0..printed.len() {
        let Some((line, others)) = cut(rest, b'\n') else {
            return;
        };
        text.push(after(line, b"  ").unwrap_or(line));
        text.push(b"\n");
        rest = others;
    }
}

/// The reply to the declaration of this number, if there is one, and if it was accepted.
pub fn accepted<'a>(answered: Answered<'a>, number: usize) -> Option<&'a Reply> {
    let reply = answered.replies().get(number.checked_sub(1)?)?;
    if reply.is_accepted() {
        Some(reply)
    } else {
        None
    }
}
