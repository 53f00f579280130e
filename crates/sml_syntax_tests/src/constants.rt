//! The values of constants, as they were worked out by hand.

use sml_lex::constants::{character, integer, string, word};
use sml_lex::fault::Memory;
use std::process::Abort;

fn expect_integers(rt: &impl Abort, rows: &[(&str, Option<i64>)]) {
    for (text, value) in rows {
        assert_eq!(rt; integer(text.as_bytes()), *value, "{text}");
    }
}

fn expect_words(rt: &impl Abort, rows: &[(&str, Option<u64>)]) {
    for (text, value) in rows {
        assert_eq!(rt; word(text.as_bytes()), *value, "{text}");
    }
}

fn expect_characters(rt: &impl Abort, rows: &[(&str, Option<u8>)]) {
    for (text, value) in rows {
        assert_eq!(rt; character(text.as_bytes()), *value, "{text}");
    }
}

#[test]
fn numbers(rt: HostRuntime) {
    expect_integers(
        &rt,
        &[
            ("12", Some(12)),
            ("~12", Some(-12)),
            ("~0", Some(0)),
            ("0x1f", Some(31)),
            ("~0xA", Some(-10)),
            ("9223372036854775807", Some(i64::MAX)),
            ("~9223372036854775808", None),
        ],
    );
    expect_words(
        &rt,
        &[
            ("0w12", Some(12)),
            ("0wxFF", Some(255)),
            ("0w18446744073709551615", Some(u64::MAX)),
            ("0wx10000000000000000", None),
        ],
    );
}

#[test]
fn characters(rt: HostRuntime) {
    expect_characters(
        &rt,
        &[
            (r##"#"a""##, Some(97)),
            (r##"#"\n""##, Some(10)),
            (r##"#"\^@""##, Some(0)),
            (r##"#"\255""##, Some(255)),
            (r##"#"\u00e9""##, Some(233)),
            (r##"#"ab""##, None),
            (r##"#"a" "##, None),
        ],
    );
}

#[test]
fn strings(rt: HostRuntime) -> Result<(), Memory> {
    let value = string(rt.alloc(), br#""a\a\b\t\n\v\f\r\"\\\^_\065\u0042\  \z""#)?;
    let want = b"a\x07\x08\t\n\x0b\x0c\r\"\\\x1fABz";
    match value {
        Some(value) => assert!(rt; value.as_slice() == want.as_slice()),
        None => assert!(rt; false),
    }
    Ok(())
}
