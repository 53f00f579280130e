//! The tokens of units, and the faults that end them.

use sml_lex::fault::Memory;
use sml_lex::lexer::{MAX_UNIT, lex};
use sml_lex::token::End;
use std::alloc::Global;
use std::fmt::Write;
use std::process::Abort;

/// The kinds of a unit's tokens as text, and how the unit ends, where it has a fault.
fn kinds_of(alloc: Global, text: &str) -> Result<String, Memory> {
    let lexed = lex(alloc, text.as_bytes())?;
    let mut shown = String::new(alloc);
    for token in &lexed.tokens {
        let kind = token.kind;
        write!(shown, "{kind:?} ")?;
    }
    if let End::Fault(stop) = lexed.end {
        write!(shown, "{stop:?}")?;
    }
    Ok(shown)
}

/// Units that have no fault, each with the kinds of its tokens.
fn expect_kinds(rt: &(impl Abort + AllocGlobal), rows: &[(&str, &str)]) -> Result<(), Memory> {
    for (text, kinds) in rows {
        let found = kinds_of(rt.alloc(), text)?;
        assert_eq!(rt; found.trim_end(), *kinds, "{text}");
    }
    Ok(())
}

#[test]
fn kinds(rt: HostRuntime) -> Result<(), Memory> {
    expect_kinds(
        &rt,
        &[
            (
                "val x = A.b.c",
                "ValWord Alphanumeric Equals LongAlphanumeric",
            ),
            ("S:>sig end", "Alphanumeric Seals SigWord EndWord"),
            (
                "'a ''b ' * ** A.* A.+",
                "TypeVariable TypeVariable TypeVariable Star Symbolic LongStar LongSymbolic",
            ),
            (
                "( ) [ ] { } , : ; ... _ | = => -> #",
                "OpenRound CloseRound OpenSquare CloseSquare OpenCurly CloseCurly Comma Colon Semicolon Dots Wildcard Bar Equals Gives Arrow Hash",
            ),
        ],
    )
}

#[test]
fn longest_beginnings(rt: HostRuntime) -> Result<(), Memory> {
    expect_kinds(
        &rt,
        &[
            (
                "A.val A.-> *)",
                "LongAlphanumeric Alphanumeric LongSymbolic Symbolic Star CloseRound",
            ),
            (
                "0xg 3E 0w 0wx ~0x 1E~",
                "ZeroNumeral Alphanumeric Numeral Alphanumeric ZeroNumeral Alphanumeric ZeroNumeral Alphanumeric Integer Alphanumeric Numeral Alphanumeric Symbolic",
            ),
            (
                r##"##"a" (**)( * #"a"#"b""##,
                "Symbolic StringConstant OpenRound Star CharacterConstant CharacterConstant",
            ),
        ],
    )
}

#[test]
fn numbers(rt: HostRuntime) -> Result<(), Memory> {
    expect_kinds(
        &rt,
        &[
            (
                "12 0 00 ~12 ~ 0x1F ~0xaB",
                "Numeral ZeroNumeral ZeroNumeral Integer Symbolic Integer Integer",
            ),
            (
                "0w12 0wxFf 1.5 0e1 ~1.5E~10",
                "WordConstant WordConstant RealConstant RealConstant RealConstant",
            ),
            (
                "9223372036854775807 ~9223372036854775807 0x7FFFFFFFFFFFFFFF",
                "Numeral Integer Integer",
            ),
            (
                "0w18446744073709551615 0wxFFFFFFFFFFFFFFFF 99999999999999999999.0",
                "WordConstant WordConstant RealConstant",
            ),
        ],
    )
}

#[test]
fn strings(rt: HostRuntime) -> Result<(), Memory> {
    expect_kinds(
        &rt,
        &[
            (r#""""#, "StringConstant"),
            (r#"" ~""#, "StringConstant"),
            (r#""\a\b\t\n\v\f\r\"\\""#, "StringConstant"),
            (r#""\^@\^_""#, "StringConstant"),
            (r#""\000\255\u0000\u00fF""#, "StringConstant"),
            ("\"a\\ \t\n\x0c\r\\b\"", "StringConstant"),
            (r##"#"a""##, "CharacterConstant"),
            (r##"#"\"""##, "CharacterConstant"),
            (r##"#"\^A""##, "CharacterConstant"),
            (r##"#"\065""##, "CharacterConstant"),
            (r##"#"\u0041""##, "CharacterConstant"),
            (r##"#"\ \a\ \""##, "CharacterConstant"),
        ],
    )
}

/// The number of a unit's tokens, its fault and where that stands.
fn fault_of(alloc: Global, text: &[u8]) -> Result<String, Memory> {
    let lexed = lex(alloc, text)?;
    let count = lexed.tokens.len();
    match lexed.end {
        End::Done => Ok(format!(in alloc; "{count}")?),
        End::Fault(stop) => {
            let code = stop.code;
            let at = stop.at;
            Ok(format!(in alloc; "{count} {code:?} {at}")?)
        }
    }
}

fn expect_faults(rt: &(impl Abort + AllocGlobal), rows: &[(&str, &str)]) -> Result<(), Memory> {
    for (text, expected) in rows {
        let found = fault_of(rt.alloc(), text.as_bytes())?;
        assert_eq!(rt; found.as_str(), *expected, "{text}");
    }
    Ok(())
}

/// Each unit with the number of tokens before its fault, the fault, and where it stands.
#[test]
fn faults(rt: HostRuntime) -> Result<(), Memory> {
    expect_faults(
        &rt,
        &[
            ("(*", "0 L1 0"),
            ("(*)", "0 L1 0"),
            ("(* (* x *) val y = 1", "0 L1 0"),
            ("x (* (* *) ", "1 L1 2"),
            ("\"", "0 L2 0"),
            ("x \"a", "1 L2 2"),
            ("x \"a\nb\"", "1 L2 2"),
            ("#\"", "0 L2 1"),
            ("x #\"ab", "1 L2 3"),
            ("\"\\", "0 L3 1"),
            ("x \"a\\q\"", "1 L3 4"),
            ("\"\\^?\"", "0 L3 1"),
            ("\"\\256\"", "0 L3 1"),
            ("\"\\25\"", "0 L3 1"),
            ("\"\\u0100\"", "0 L3 1"),
            ("\"\\u00g0\"", "0 L3 1"),
            ("\"\\  x\\\"", "0 L3 1"),
            ("#\"\"", "0 L3 0"),
            ("x #\"ab\"", "1 L3 2"),
            ("#\"\\ \\\"", "0 L3 0"),
            ("#\"ab\\q\"", "0 L3 4"),
            (".", "0 L4 0"),
            ("..", "0 L4 0"),
            ("val.x", "1 L4 3"),
            ("A.=", "1 L4 1"),
            ("A.=>", "1 L4 1"),
            ("A.'a", "1 L4 1"),
            ("1.", "1 L4 1"),
            ("x .y", "1 L4 2"),
            ("\"a\tb\"", "0 L4 2"),
            ("\"\x7f", "0 L4 1"),
            ("x 9223372036854775808", "1 L5 2"),
            ("~9223372036854775808", "0 L5 0"),
            ("0x8000000000000000", "0 L5 0"),
            ("~0x8000000000000000", "0 L5 0"),
            ("0w18446744073709551616", "0 L5 0"),
            ("0wx10000000000000000", "0 L5 0"),
        ],
    )
}

/// What a byte alone is: white space, a token, or a fault.
fn byte_is(byte: u8) -> &'static str {
    match byte {
        b'"' => "0 L2 0",
        b'.' => "0 L4 0",
        b'\t' | b'\n' | 12 | b'\r' | b' ' => "0",
        33..=126 => "1",
        _ => "0 L4 0",
    }
}

#[test]
fn single_bytes(rt: HostRuntime) -> Result<(), Memory> {
    for byte in 0..=255u8 {
        let found = fault_of(rt.alloc(), &[byte])?;
        assert_eq!(rt; found.as_str(), byte_is(byte), "{byte}");
    }
    Ok(())
}

/// A text and then another, each so many times.
fn twice(alloc: Global, first: &[u8], second: &[u8], count: usize) -> Result<Vec<u8>, Memory> {
    let mut text = Vec::new(alloc);
    for _ in 0..count {
        text.extend_from_slice(first)?;
    }
    for _ in 0..count {
        text.extend_from_slice(second)?;
    }
    Ok(text)
}

/// A large unit.
fn expect_fault(
    rt: &(impl Abort + AllocGlobal),
    text: &[u8],
    expected: &str,
) -> Result<(), Memory> {
    let found = fault_of(rt.alloc(), text)?;
    assert_eq!(rt; found.as_str(), expected);
    Ok(())
}

#[test]
fn deep_comments(rt: HostRuntime) -> Result<(), Memory> {
    let mut text = twice(rt.alloc(), b"(*", b"*)", 200_000)?;
    expect_fault(&rt, &text, "0")?;
    text.pop();
    expect_fault(&rt, &text, "0 L1 0")
}

#[test]
fn limit(rt: HostRuntime) -> Result<(), Memory> {
    let mut text = vec![in rt.alloc(); b' '; MAX_UNIT]?;
    expect_fault(&rt, &text, "0")?;
    text.push(b' ')?;
    expect_fault(&rt, &text, "0 L6 0")
}
