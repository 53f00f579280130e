//! Positions in a text, as the client counts them.

ghost use Rattle.std.specs.Prelude.{◌≡◌, ◌+◌, ◌<◌, ◌≤◌, ◌==◌, ◌||◌, ◌&&◌, ◌++◌, ◌∷◌, ℕ, List, IfOk, MatchOption, drop, leb, length, ltb, max, not, slice_get, slice_index, slice_range, take_while};
ghost use Rattle.std.specs.Char.{is_ascii_alphanumeric};
ghost use Rattle.std.specs.List.{All};
ghost use Rattle.sml_client.specs.Texts.{Adds};
ghost use Rattle.sml_client.specs.Positions.{IsReached, begin_of, byte_after, byte_of, ends_for_client, ends_in_file, goes_on, is_end, line_starts, place, position_json, range_json, span, units, width};

use crate::written::Text;
use sml_lex::fault::Memory;
use std::alloc::Global;

/// What the characters of a line are counted in.
#[derive(Clone, Copy)]
pub enum Encoding {
    Utf8,
    Utf16,
}

/// A line and a character in it, both from 0.
#[derive(Clone, Copy)]
pub struct Position {
    pub line: u64,
    pub character: u64,
}

/// What lies from one position up to another one.
#[derive(Clone, Copy)]
pub struct Range {
    pub start: Position,
    pub end: Position,
}

/// A text with the bytes at which its lines begin, but for the first line: those that newlines end, from which places are
/// counted, and those of the client, which a carriage return ends too.
#[derive(Drop)]
pub struct Lines<'a> {
    text: &'a [u8],
    encoding: Encoding,
    feeds: Vec<usize>,
    starts: Vec<usize>,
    ghost of_file: { feeds.items ≡ line_starts (ends_in_file text.now) (length text.now) },
    ghost of_client: { starts.items ≡ line_starts (ends_for_client text.now) (length text.now) },
}

/// How many units a byte adds to the characters before it.
fn width(byte: u8, encoding: Encoding) -> u64
    ensures { result ≡ width encoding byte }
{
    match encoding {
        Encoding::Utf8 => 1,
        Encoding::Utf16 => {
            if goes_on(byte) {
                0
            } else if byte >= 0xf0 {
                2
            } else {
                1
            }
        }
    }
}

/// How many units bytes have.
fn units_in(bytes: &[u8], encoding: Encoding) -> u64
    ensures { result ≡ units encoding bytes.now }
{
    let mut passed: u64 = 0;
    for byte in bytes {
        passed = passed.saturating_add(width(*byte, encoding));
    }
    passed
}

/// Whether a byte goes on a character that began before it.
fn goes_on(byte: u8) -> bool
    ensures { result ≡ goes_on byte }
{
    byte >= 0x80 && byte < 0xc0
}

/// Whether a byte is one of those that end lines.
fn is_end(byte: u8) -> bool
    ensures { result ≡ is_end byte }
{
    byte == b'\n' || byte == b'\r'
}

/// Whether a newline stands at this index.
fn is_newline_at(text: &[u8], index: usize) -> bool
    ensures { result ≡ ends_in_file text.now index }
{
    match text.get(index) {
        Some(byte) => *byte == b'\n',
        None => false,
    }
}

/// Whether a line of the client ends after the byte at this index.
fn ends_line(text: &[u8], index: usize, byte: u8) -> bool
    ensures { index < length text.now → byte ≡ slice_index text.now index → result ≡ ends_for_client text.now index }
{
    byte == b'\n' || byte == b'\r' && !is_newline_at(text, index.saturating_add(1))
}

/// How many of these numbers are at most this one, if those that are stand before the others.
fn count_up_to(numbers: &[usize], most: usize) -> usize
    ensures { (front back : List ℕ) → numbers.now ≡ front ++ back → All (λ n. n ≤ most) front → All (λ n. most < n) back → result ≡ length front }
{
    numbers.partition_point(
        |number: &usize| -> bool
            ensures { result ≡ leb number.now most }
        { *number <= most },
    )
}

/// The bytes after newlines.
fn feeds_in(alloc: Global, text: &[u8]) -> Result<Vec<usize>, Memory>
    ensures { IfOk result (λ v. v.items ≡ line_starts (ends_in_file text.now) (length text.now)) }
{
    let mut feeds = Vec::new(alloc);
    for (index, byte) in text.iter().enumerate() {
        if *byte == b'\n' {
            feeds.push(index.saturating_add(1))?;
        }
    }
    Ok(feeds)
}

/// The bytes after which lines of the client end.
fn starts_in(alloc: Global, text: &[u8]) -> Result<Vec<usize>, Memory>
    ensures { IfOk result (λ v. v.items ≡ line_starts (ends_for_client text.now) (length text.now)) }
{
    let mut starts = Vec::new(alloc);
    for (index, byte) in text.iter().enumerate() {
        if ends_line(text, index, *byte) {
            starts.push(index.saturating_add(1))?;
        }
    }
    Ok(starts)
}

/// Where the line of this number begins, counted from 0, if those after the first begin at these bytes.
fn start_of(starts: &[usize], line: usize) -> Option<usize>
    ensures { result ≡ slice_get (0 ∷ starts.now) line }
{
    match line.checked_sub(1) {
        Some(index) => starts.get(index).copied(),
        None => Some(0),
    }
}

/// The bytes from one index up to another one.
fn part(text: &[u8], start: usize, end: usize) -> &[u8]
    ensures { start ≤ end → end ≤ length text.now → result.now ≡ slice_range text.now start end }
{
    text.get(start..end).unwrap_or(&[])
}

/// The bytes from an index on.
fn rest(text: &[u8], start: usize) -> &[u8]
    ensures { result.now ≡ drop start text.now }
{
    text.get(start..).unwrap_or(&[])
}

/// A number as an index, or the greatest index where it is none.
fn index_of(number: u64) -> usize
    ensures { result ≡ number }
{
    usize::try_from(number).unwrap_or(usize::MAX)
}

/// Whether a line ends at a byte, or a character of this width begins there after enough units.
fn is_stop(byte: u8, width: u64, passed: u64, units: u64) -> bool
    ensures { result ≡ (is_end byte || (ltb 0 width && leb units passed)) }
{
    is_end(byte) || width > 0 && passed >= units
}

/// How far on a line the character begins that has so many units before it, or the line ends.
fn reach(line: &[u8], encoding: Encoding, units: u64) -> usize
    ensures { IsReached encoding line.now units result }
{
    let mut passed: u64 = 0;
    for (index, byte) in line.iter().enumerate() {
        let width = width(*byte, encoding);
        if is_stop(*byte, width, passed, units) {
            return index;
        }
        passed = passed.saturating_add(width);
    }
    line.len()
}

/// How many bytes at the front go on a character.
fn going_on(bytes: &[u8]) -> usize
    ensures { result ≡ length (take_while goes_on bytes.now) }
{
    bytes.iter().take_while(|byte| goes_on(**byte)).count()
}

/// How many bytes at the front are letters or digits.
fn in_word(bytes: &[u8]) -> usize
    ensures { result ≡ length (take_while is_ascii_alphanumeric bytes.now) }
{
    bytes
        .iter()
        .take_while(|byte| byte.is_ascii_alphanumeric())
        .count()
}

/// How many bytes stand before the first one that ends a line.
fn in_line(bytes: &[u8]) -> usize
    ensures { result ≡ length (take_while (λ b. not (is_end b)) bytes.now) }
{
    bytes.iter().take_while(|byte| !is_end(**byte)).count()
}

impl<'a> Lines<'a> {
    pub fn new(alloc: Global, text: &'a [u8], encoding: Encoding) -> Result<Lines<'a>, Memory>
        ensures text { IfOk result (λ l. l.text.now ≡ text.now) }
        ensures encoding { IfOk result (λ l. l.encoding ≡ encoding) }
    {
        let feeds = feeds_in(alloc, text)?;
        let starts = starts_in(alloc, text)?;
        Ok(Lines {
            text,
            encoding,
            feeds,
            starts,
        })
    }

    /// The byte on a line and in a column of the file, both counted from 1, or the text's end where it has no such line.
    pub fn byte_at(&self, line: u64, column: u64) -> usize
        ensures { result ≡ byte_of self.now.text.now line column }
    {
        let line = index_of(line.saturating_sub(1));
        let column = index_of(column.saturating_sub(1));
        match start_of(&self.feeds, line) {
            Some(start) => start.saturating_add(column).min(self.text.len()),
            None => self.text.len(),
        }
    }

    /// The position of a byte.
    pub fn position(&self, at: usize) -> Position
        ensures { at ≤ length self.now.text.now → result ≡ place self.now.encoding self.now.text.now at }
    {
        let line = count_up_to(&self.starts, at);
        let start = start_of(&self.starts, line).unwrap_or(0);
        Position {
            line: line as u64,
            character: units_in(part(self.text, start, at), self.encoding),
        }
    }

    /// The byte at a position. One past the end of a line is that end.
    pub fn byte(&self, position: Position) -> usize
        ensures { let text = self.now.text.now in
            MatchOption (begin_of (ends_for_client text) (length text) position.line) (result ≡ length text)
            (λ start. (n : ℕ) × (result ≡ start + n) × IsReached self.now.encoding (drop start text) position.character n) }
    {
        match start_of(&self.starts, index_of(position.line)) {
            Some(start) => start.saturating_add(reach(
                rest(self.text, start),
                self.encoding,
                position.character,
            )),
            None => self.text.len(),
        }
    }

    /// The byte after the character at this byte, on the same line.
    pub fn after(&self, at: usize) -> usize
        ensures { result ≡ byte_after self.now.text.now at }
    {
        match self.text.get(at) {
            Some(byte) if !is_end(*byte) => {
                let next = at.saturating_add(1);
                next.saturating_add(going_on(rest(self.text, next)))
            }
            _ => at,
        }
    }

    /// The range from one byte up to another one.
    pub fn range(&self, start: usize, end: usize) -> Range
        ensures { max end start ≤ length self.now.text.now → result ≡ span self.now.encoding self.now.text.now start (max end start) }
    {
        Range {
            start: self.position(start),
            end: self.position(end.max(start)),
        }
    }

    /// The range of the word on a line and in a column of the file, both counted from 1.
    pub fn word_range(&self, line: u64, column: u64) -> Range
        ensures { let text = self.now.text.now in let start = byte_of text line column in
            result ≡ span self.now.encoding text start (start + length (take_while is_ascii_alphanumeric (drop start text))) }
    {
        let start = self.byte_at(line, column);
        let end = start.saturating_add(in_word(rest(self.text, start)));
        self.range(start, end)
    }

    /// The range of a line, counted from 1, without its end.
    pub fn line_range(&self, line: u64) -> Range
        ensures { let text = self.now.text.now in let start = byte_of text line 1 in
            result ≡ span self.now.encoding text start (start + length (take_while (λ b. not (is_end b)) (drop start text))) }
    {
        let start = self.byte_at(line, 1);
        let end = start.saturating_add(in_line(rest(self.text, start)));
        self.range(start, end)
    }
}

/// Adds a position, as JSON.
fn push_position(text: &mut Text, position: Position)
    ensures { Adds text.old text.new (position_json position) }
{
    text.push(b"{\"line\":");
    text.push_number(position.line);
    text.push(b",\"character\":");
    text.push_number(position.character);
    text.push(b"}");
}

/// Adds a range after a name, as a member of an object of JSON.
pub fn push_range(text: &mut Text, name: &[u8], range: Range)
    ensures { Adds text.old text.new (range_json name.now range) }
{
    text.push_all(&[b"\"", name, b"\":{\"start\":"]);
    push_position(text, range.start);
    text.push(b",\"end\":");
    push_position(text, range.end);
    text.push(b"}");
}
