//! Heights worked out by hand, and trees as high as a tree may be.

use sml_lex::fault::Memory;
use sml_lex::lexer::lex;
use sml_parse::parse::parse;
use sml_tree::heights::height_of_top;
use std::alloc::Global;
use std::fmt::Write;
use std::process::Abort;
use std::test::Fail;

/// The heights of a unit's declarations, as text.
fn heights_of(alloc: Global, unit: &str) -> Result<String, Memory> {
    let parsed = parse(alloc, &lex(alloc, unit.as_bytes())?)?;
    let mut text = String::new(alloc);
    for top in &parsed.declarations {
        let height = height_of_top(top);
        write!(text, "{height};")?;
    }
    Ok(text)
}

fn expect_all(rt: &(impl Abort + AllocGlobal), rows: &[(&str, &str)]) -> Result<(), Fail> {
    for (unit, expected) in rows {
        let text = heights_of(rt.alloc(), unit)?;
        assert_eq!(rt; text.as_str(), *expected, "{unit}");
    }
    Ok(())
}

// In the first, x is 1, in brackets 3, the value declaration 4, the structure expression 5, the declaration 6; the other
// binding is lower. Directives beside the declarations change nothing.
#[test]
fn the_highest_part_counts(rt: HostRuntime) -> Result<(), Fail> {
    expect_all(
        &rt,
        &[
            (
                "structure x = struct val x = ((x)) end and y = struct val x = x end",
                "6;",
            ),
            (
                "structure x = struct infix a infix a infix a infix a infix a infix a infix a val x = ((x)) end and y = struct infix a infix a infix a infix a infix a infix a infix a val x = x end",
                "6;",
            ),
        ],
    )
}

// the tuple is 2, in brackets 3, the arrow 4, the constraint 5, the function 6
#[test]
fn types_count(rt: HostRuntime) -> Result<(), Fail> {
    expect_all(
        &rt,
        &[(
            "structure x = struct val x = fn _ => x : x -> (x * x) end",
            "9;",
        )],
    )
}

// `int v` is 3 where `v` is two lists, `int v v` 5, its declaration 6; the argument that a right side drops adds nothing; of
// two arguments each counts where its variable stands, the first 7 or the second 5; a long type constructor is another one,
// so the right side, 4, is higher; and one with the wrong number of arguments stands as it is, 3 high with its arguments
#[test]
fn right_sides_stand_in_datatypes(rt: HostRuntime) -> Result<(), Fail> {
    expect_all(
        &rt,
        &[
            (
                "datatype t = C of int v v and u = D withtype 'a v = 'a list list",
                "6;",
            ),
            (
                "datatype t = C of int list list list v withtype 'a v = int",
                "2;",
            ),
            (
                "datatype t = C of (int list list list list list, int) v withtype ('a, 'b) v = 'a * ('b list list)",
                "8;",
            ),
            (
                "datatype t = C of (int, int) v withtype ('a, 'b) v = 'a * ('b list list)",
                "6;",
            ),
            (
                "datatype t = C of int A.v withtype 'a v = 'a list list list",
                "5;",
            ),
            (
                "datatype t = C of (int list, int) v withtype 'a v = 'a",
                "4;",
            ),
        ],
    )
}

/// `structure x = struct val x = ((x)) end`, with so many brackets.
fn bracketed(alloc: Global, count: usize) -> Result<String, Memory> {
    let mut unit = String::new(alloc);
    unit.push_str("structure x = struct val x = ")?;
    for _ in 0..count {
        unit.push('(')?;
    }
    unit.push('x')?;
    for _ in 0..count {
        unit.push(')')?;
    }
    unit.push_str(" end")?;
    Ok(unit)
}

// 3,996 brackets round an identifier, in a structure: as high as a tree may be
#[test]
fn the_greatest_height(rt: HostRuntime) -> Result<(), Fail> {
    let unit = bracketed(rt.alloc(), 3996)?;
    expect_all(&rt, &[(unit.as_str(), "4000;")])
}
