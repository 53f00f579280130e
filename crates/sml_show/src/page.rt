//! What is shown of one unit, as text.

use crate::command_line::Wish;
use itoa::Buffer;
use sml_lex::fault::Memory;
use sml_shown::excerpt::push_excerpt;
use sml_shown::refusals::Refusal;
use sml_shown::remark::Remark;
use sml_shown::spots::Spot;
use sml_shown::unit_map::UnitMap;

/// A unit that is shown: its name, its file as the project file has it, and where its declarations begin.
#[derive(Clone, Copy)]
pub struct Page<'a> {
    pub name: &'a str,
    pub file: &'a str,
    pub map: &'a UnitMap<'a>,
    pub wish: Wish,
}

/// A refused declaration that a fault follows from, and its file.
#[derive(Clone, Copy)]
pub struct Followed<'a> {
    pub unit: &'a str,
    pub file: &'a str,
    pub refusal: Refusal,
}

/// What begins and ends what is printed in color.
const RED: &[u8] = b"\x1b[31m";

const PLAIN: &[u8] = b"\x1b[0m";

/// The digits of a number.
pub fn push_number(text: &mut Vec<u8>, number: u64) -> Result<(), Memory> {
    let mut digits = Buffer::new();
    text.extend_from_slice(digits.format(number).as_bytes())?;
    Ok(())
}

/// `FILE:LINE:COL`
pub fn push_spot(text: &mut Vec<u8>, file: &str, spot: Spot) -> Result<(), Memory> {
    text.extend_from_slice(file.as_bytes())?;
    text.push(b':')?;
    push_number(text, spot.line)?;
    text.push(b':')?;
    push_number(text, spot.column)
}

impl Page<'_> {
    /// Where a place of the declaration of this number stands in the file.
    pub fn spot(&self, number: usize, remark: &Remark) -> Spot {
        self.map.in_file(number, remark.place)
    }

    /// Bytes in color, where colors are wished for.
    fn push_red(&self, text: &mut Vec<u8>, bytes: &[u8]) -> Result<(), Memory> {
        if self.wish.is_colored {
            text.extend_from_slice(RED)?;
        }
        text.extend_from_slice(bytes)?;
        if self.wish.is_colored {
            text.extend_from_slice(PLAIN)?;
        }
        Ok(())
    }

    /// The line `FILE:LINE:COL: CODE text`.
    pub fn push_head(&self, text: &mut Vec<u8>, spot: Spot, remark: &Remark) -> Result<(), Memory> {
        push_spot(text, self.file, spot)?;
        text.extend_from_slice(b": ")?;
        self.push_red(text, remark.code)?;
        text.push(b' ')?;
        text.extend_from_slice(remark.text)?;
        text.push(b'\n')?;
        Ok(())
    }

    /// The line of the file with a caret, and the number of the declaration.
    pub fn push_excerpt(
        &self,
        text: &mut Vec<u8>,
        spot: Spot,
        number: usize,
    ) -> Result<(), Memory> {
        let line = self.map.line(spot.line);
        push_excerpt(text, line, spot.column)?;
        self.push_red(text, b"^")?;
        text.extend_from_slice(b" declaration ")?;
        push_number(text, number as u64)?;
        text.push(b'\n')?;
        Ok(())
    }

    /// The line `  follows from declaration N (FILE:LINE:COL)`.
    fn push_source(&self, text: &mut Vec<u8>, source: &Followed) -> Result<(), Memory> {
        text.extend_from_slice(b"  follows from declaration ")?;
        push_number(text, source.refusal.number as u64)?;
        text.extend_from_slice(b" (")?;
        push_spot(text, source.file, source.refusal.spot)?;
        text.extend_from_slice(b")\n")?;
        Ok(())
    }

    /// A fault or a warning of the declaration of this number, with the line of the file, or with the declaration that it
    /// follows from.
    pub fn push_remark(
        &self,
        text: &mut Vec<u8>,
        number: usize,
        remark: &Remark,
        source: Option<Followed>,
    ) -> Result<(), Memory> {
        let spot = self.spot(number, remark);
        self.push_head(text, spot, remark)?;
        match source {
            Some(source) => self.push_source(text, &source),
            None => self.push_excerpt(text, spot, number),
        }
    }

    /// The line `FILE:LINE:COL: bound`.
    pub fn push_bound(&self, text: &mut Vec<u8>, number: usize) -> Result<(), Memory> {
        push_spot(text, self.file, self.map.declaration(number))?;
        text.extend_from_slice(b": bound\n")?;
        Ok(())
    }
}
