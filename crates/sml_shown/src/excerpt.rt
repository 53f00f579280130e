//! A line of a file with a caret under a column.

use sml_lex::fault::Memory;

/// How many bytes of a line are shown at most.
const MOST_SHOWN: usize = 160;

/// How many bytes before the caret's column are shown at most of a line that isn't shown whole.
const MOST_BEFORE: usize = 100;

/// Whether a byte goes on a character that began before it, where the text is UTF-8.
fn goes_on(byte: u8) -> bool {
    byte & 0xc0 == 0x80
}

/// The first byte that is shown, for a caret under this one: a character begins there.
fn first_shown(line: &[u8], caret: usize) -> usize {
    if line.len() <= MOST_SHOWN {
        return 0;
    }
    let from = caret.saturating_sub(MOST_BEFORE).min(line.len());
    for i in from..line.len() {
        if !goes_on(line[i]) {
            return i.min(caret);
        }
    }
    from
}

/// The end of what is shown from this byte on: a character ends there.
fn last_shown(line: &[u8], from: usize) -> usize {
    let most = from.saturating_add(MOST_SHOWN);
    if line.len() <= most {
        return line.len();
    }
    let mut end = most;
    for _turn in 0..3 {
        if end < line.len() && goes_on(line[end]) {
            end = end.saturating_sub(1);
        }
    }
    end
}

/// A byte as it is shown: control characters but tabs as question marks.
fn shown(byte: u8) -> u8 {
    if (byte < 32 && byte != b'\t') || byte == 127 {
        b'?'
    } else {
        byte
    }
}

/// The bytes of a line as they are shown.
fn push_shown(text: &mut Vec<u8>, bytes: &[u8]) -> Result<(), Memory> {
    for byte in bytes {
        text.push(shown(*byte))?;
    }
    Ok(())
}

/// As much white space as these bytes take up.
fn push_blank(text: &mut Vec<u8>, bytes: &[u8]) -> Result<(), Memory> {
    for byte in bytes {
        if *byte == b'\t' {
            text.push(b'\t')?;
        } else if !goes_on(*byte) {
            text.push(b' ')?;
        }
    }
    Ok(())
}

/// A line of a file after a bar, with dots where more of it isn't shown; and white space after another bar, up to the column
/// of the caret, counted from 1.
pub fn push_excerpt(text: &mut Vec<u8>, line: &[u8], column: u64) -> Result<(), Memory> {
    let wanted = usize::try_from(column.saturating_sub(1)).unwrap_or(line.len());
    let caret = wanted.min(line.len());
    let from = first_shown(line, caret).min(caret);
    let to = last_shown(line, from).min(line.len()).max(caret);
    let before: &[u8] = if from > 0 { b"..." } else { b"" };
    let after: &[u8] = if to < line.len() { b"..." } else { b"" };
    text.extend_from_slice(b"  | ")?;
    text.extend_from_slice(before)?;
    push_shown(text, &line[from..to])?;
    text.extend_from_slice(after)?;
    text.extend_from_slice(b"\n  | ")?;
    push_blank(text, before)?;
    push_blank(text, &line[from..caret])
}
