//! Which texts the reader takes, where it stops, and where phrases begin and end.

mod texts;

use sml_lex::fault::{Code, Memory};
use sml_lex::lexer::lex;
use sml_lex::token::{End, Kind, Lexed, Span, Stop, Token};
use sml_read::grammar::Node;
use sml_read::phrases::{ends, first_token, token_count};
use sml_read::read::{Cause, Full, read};
use sml_read::tokens::kinds;
use std::alloc::Global;
use std::process::Abort;
use std::test::Fail;
use texts::{SECTIONS, all_kinds, forms};

/// Reads tokens of these kinds, of no bytes. Where `done` is false, a fault that is no token stands after the last one.
fn read_kinds(alloc: Global, kinds: &[Kind], done: bool) -> Result<Full, Memory> {
    let mut tokens = Vec::new(alloc);
    for kind in kinds {
        tokens.push(Token {
            kind: *kind,
            span: Span { start: 0, end: 0 },
        })?;
    }
    let end = if done {
        End::Done
    } else {
        End::Fault(Stop {
            code: Code::L4,
            at: 0,
        })
    };
    read(
        alloc,
        &Lexed {
            unit: &[],
            tokens,
            end,
        },
    )
}

/// The bits of a hexadecimal digit, as a number.
fn digit(byte: u8) -> u8 {
    if byte < b'a' {
        byte.wrapping_sub(b'0')
    } else {
        byte.wrapping_sub(b'a').wrapping_add(10)
    }
}

/// Whether the kind with this number is among those of a mask.
fn is_among(mask: &[u8], number: usize) -> bool {
    let place = 17_usize.saturating_sub(number / 4);
    match mask.get(place) {
        Some(byte) => (digit(*byte) >> (number % 4)) & 1 == 1,
        None => false,
    }
}

/// Where reading ends, when this kind stands after the others.
fn cause_after(alloc: Global, beginning: &[Kind], kind: Kind) -> Result<Option<Cause>, Memory> {
    let mut longer = Vec::from_slice(alloc, beginning)?;
    longer.push(kind)?;
    Ok(read_kinds(alloc, &longer, true)?.cause)
}

/// Demands that a beginning of a text is a unit where the mask says so.
fn expect_cause(
    rt: &(impl Abort + AllocGlobal),
    beginning: &[Kind],
    mask: &[u8],
    text: &str,
) -> Result<(), Memory> {
    let cause = read_kinds(rt.alloc(), beginning, true)?.cause;
    let expected = if mask.last() == Some(&b'+') {
        None
    } else {
        Some(Cause::TooEarly)
    };
    let count = beginning.len();
    assert_eq!(rt; cause, expected, "{count} tokens of {text}");
    Ok(())
}

/// Demands that those kinds may stand after a beginning of a text that are among the mask.
fn expect_kinds_after(
    rt: &(impl Abort + AllocGlobal),
    beginning: &[Kind],
    mask: &[u8],
    text: &str,
) -> Result<(), Memory> {
    let count = beginning.len();
    for (number, kind) in all_kinds().iter().enumerate() {
        let cause = cause_after(rt.alloc(), beginning, *kind)?;
        let refused = cause == Some(Cause::Unexpected(count));
        assert_eq!(rt;
            refused,
            !is_among(mask, number),
            "{kind:?} after {count} tokens of {text}"
        );
    }
    Ok(())
}

/// Demands the answers to a text's beginnings, with each kind after them.
fn expect_marks(rt: &(impl Abort + AllocGlobal), text: &str, marks: &str) -> Result<(), Memory> {
    let lexed = lex(rt.alloc(), text.as_bytes())?;
    let kinds = kinds(rt.alloc(), &lexed.tokens)?;
    let masks = marks.as_bytes();
    assert_eq!(rt;
        masks.len(),
        kinds.len().saturating_add(1).saturating_mul(19),
        "{text}"
    );
    for (count, mask) in masks.chunks(19).enumerate() {
        let beginning = &kinds[..count.min(kinds.len())];
        expect_cause(rt, beginning, mask, text)?;
        expect_kinds_after(rt, beginning, mask, text)?;
    }
    Ok(())
}

#[test]
fn all_forms(rt: HostRuntime) -> Result<(), Fail> {
    for section in 0..SECTIONS {
        for (text, marks) in forms(section) {
            expect_marks(&rt, text, marks)?;
        }
    }
    Ok(())
}

/// The number of declarations that were begun, and why reading ended.
fn end_of(alloc: Global, text: &str, done: bool) -> Result<String, Memory> {
    let lexed = lex(alloc, text.as_bytes())?;
    let full = read_kinds(alloc, &kinds(alloc, &lexed.tokens)?, done)?;
    let begun = full.begun;
    let cause = full.cause;
    Ok(format!(in alloc; "{begun} {cause:?}")?)
}

fn expect_ends(rt: &(impl Abort + AllocGlobal), rows: &[(&str, bool, &str)]) -> Result<(), Fail> {
    for (text, done, expected) in rows {
        let found = end_of(rt.alloc(), text, *done)?;
        assert_eq!(rt; found.as_str(), *expected, "{text}, {done}");
    }
    Ok(())
}

#[test]
fn how_units_end(rt: HostRuntime) -> Result<(), Fail> {
    expect_ends(
        &rt,
        &[
            ("", true, "0 None"),
            ("", false, "0 Some(Lexical)"),
            ("x", true, "1 None"),
            ("x", false, "0 Some(Lexical)"),
            ("x ;", false, "2 Some(Lexical)"),
            ("; ;", false, "2 Some(Lexical)"),
            ("x )", true, "0 Some(Unexpected(1))"),
            ("x val y = 1", true, "0 Some(Unexpected(1))"),
            ("x ; y z )", true, "2 Some(Unexpected(4))"),
            ("val x = 1", false, "0 Some(Lexical)"),
            ("val x = 1 ;", false, "5 Some(Lexical)"),
            ("val x = 1 )", true, "4 Some(Unexpected(4))"),
            ("val x = 1 val", true, "4 Some(TooEarly)"),
            ("val x = 1 val", false, "4 Some(Lexical)"),
            ("val x = 1 y", true, "5 None"),
            ("val x = 1 fun f x = 2 ; x", true, "11 None"),
            ("val x = 1 fun f x = 2 ; x", false, "10 Some(Lexical)"),
            ("open A )", true, "2 Some(Unexpected(2))"),
            ("structure A = B where", true, "4 Some(Unexpected(4))"),
            ("signature S = T and type", true, "0 Some(Unexpected(5))"),
            ("val x = 1 abstype", true, "4 Some(Unexpected(4))"),
        ],
    )
}

/// The first token of each node's phrase, found from the last node to the first.
fn starts_of(alloc: Global, nodes: &[Node]) -> Result<Vec<usize>, Memory> {
    let mut starts = Vec::new(alloc);
    let mut token = token_count(nodes);
    for i in (0..nodes.len()).rev() {
        token = first_token(nodes[i], token);
        starts.push(token)?;
    }
    starts.reverse();
    Ok(starts)
}

/// Where the phrases of a unit begin and end, by its nodes.
fn extents_of(alloc: Global, unit: &[u8]) -> Result<String, Memory> {
    let full = read(alloc, &lex(alloc, unit)?)?;
    let starts = starts_of(alloc, &full.nodes)?;
    let ends = ends(alloc, &full.nodes)?;
    Ok(format!(in alloc; "{:?} {:?}", starts.as_slice(), ends.as_slice())?)
}

// what is left of the unit isn't there, so the first node's phrase ends with the nodes
#[test]
fn extents(rt: HostRuntime) -> Result<(), Fail> {
    let found = extents_of(rt.alloc(), b"open A B")?;
    let expected = "[0, 0, 0, 0, 0, 1, 1, 2, 2, 2, 3] [11, 11, 11, 11, 5, 7, 7, 11, 10, 10, 11]";
    assert_eq!(rt; found.as_str(), expected);
    Ok(())
}
