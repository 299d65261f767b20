//! The parts of a line of a row file: numbers, words of a program, bytes of a disk, and texts. docs/rows.md has the language.
use crate::fault::Fault;
use std::alloc::Global;

/// A decimal number.
pub fn number(text: &str) -> Result<usize, Fault> {
    match text.parse::<usize>() {
        Ok(number) => Ok(number),
        Err(_) => Err(Fault::Wrong("a decimal number is wanted")),
    }
}

/// An address in a program, in octal.
pub fn address(text: &str) -> Result<usize, Fault> {
    match usize::from_str_radix(text, 8) {
        Ok(at) => Ok(at),
        Err(_) => Err(Fault::Wrong("an address in octal is wanted")),
    }
}

/// A line that is reported.
pub fn push_report(out: &mut Vec<u8>, text: &str) -> Result<(), Fault> {
    out.extend_from_slice(text.as_bytes())?;
    out.push(b'\n')?;
    Ok(())
}

/// The bytes of octal words, the low byte first.
pub fn push_words(out: &mut Vec<u8>, text: &str) -> Result<(), Fault> {
    for word in text.split_ascii_whitespace() {
        match u16::from_str_radix(word, 8) {
            Ok(word) => out.extend_from_slice(word.to_le_bytes().as_slice())?,
            Err(_) => return Err(Fault::Wrong("octal words are wanted")),
        }
    }
    Ok(())
}

/// Bytes in hexadecimal, of two digits each.
fn push_bytes(out: &mut Vec<u8>, text: &str) -> Result<(), Fault> {
    for byte in text.split_ascii_whitespace() {
        match u8::from_str_radix(byte, 16) {
            Ok(value) if byte.len() == 2 => out.push(value)?,
            _ => return Err(Fault::Wrong("bytes in hexadecimal are wanted")),
        }
    }
    Ok(())
}

/// What comes next in a text in quotes: a character, what follows a backslash, or more of three octal digits.
#[derive(Clone, Copy)]
enum Next {
    Plain,
    Escape,
    Octal { first: bool, value: u8 },
}

fn push_plain(out: &mut Vec<u8>, byte: u8) -> Result<Next, Fault> {
    match byte {
        b'\\' => return Ok(Next::Escape),
        b'"' => return Err(Fault::Wrong("a quote in a text needs a \\ before it")),
        _ => out.push(byte)?,
    }
    Ok(Next::Plain)
}

fn push_escape(out: &mut Vec<u8>, byte: u8) -> Result<Next, Fault> {
    match byte {
        b'n' => out.push(b'\n')?,
        b'r' => out.push(b'\r')?,
        b't' => out.push(b'\t')?,
        b'\\' | b'"' => out.push(byte)?,
        b'0'..=b'3' => {
            return Ok(Next::Octal {
                first: true,
                value: byte & 3,
            });
        }
        _ => return Err(Fault::Wrong("no such escape")),
    }
    Ok(Next::Plain)
}

fn push_octal(out: &mut Vec<u8>, first: bool, value: u8, byte: u8) -> Result<Next, Fault> {
    if !matches!(byte, b'0'..=b'7') {
        return Err(Fault::Wrong("an escape has three octal digits"));
    }
    let value = value.wrapping_mul(8) | (byte & 7);
    if first {
        return Ok(Next::Octal {
            first: false,
            value,
        });
    }
    out.push(value)?;
    Ok(Next::Plain)
}

/// The bytes of a text in quotes.
fn push_quoted(out: &mut Vec<u8>, text: &str) -> Result<(), Fault> {
    let Some((_, inner)) = text.split_once('"') else {
        return Err(Fault::Wrong("a text in quotes is wanted"));
    };
    let Some(inner) = inner.strip_suffix('"') else {
        return Err(Fault::Wrong("the text has no end"));
    };
    let mut next = Next::Plain;
    for byte in inner.as_bytes() {
        next = match next {
            Next::Plain => push_plain(out, *byte)?,
            Next::Escape => push_escape(out, *byte)?,
            Next::Octal { first, value } => push_octal(out, first, value, *byte)?,
        };
    }
    match next {
        Next::Plain => Ok(()),
        _ => Err(Fault::Wrong("the text has no end")),
    }
}

/// A text in quotes, or anything else with a new line.
fn push_item(out: &mut Vec<u8>, text: &str) -> Result<(), Fault> {
    if text.starts_with('"') {
        return push_quoted(out, text);
    }
    out.extend_from_slice(text.as_bytes())?;
    out.push(b'\n')?;
    Ok(())
}

/// How often what comes, where a line has the form `3 times tick`.
fn repeats(text: &str) -> Option<(usize, &str)> {
    let (times, what) = text.split_once(" times ")?;
    match times.parse::<usize>() {
        Ok(times) => Some((times, what)),
        Err(_) => None,
    }
}

/// A line of a script, of the terminal or of the log, which may be repeated, as `59 times tick i, idle`.
pub fn push_line(alloc: Global, out: &mut Vec<u8>, text: &str) -> Result<(), Fault> {
    let Some((times, what)) = repeats(text) else {
        return push_item(out, text);
    };
    let mut piece = Vec::new(alloc);
    if what.starts_with('"') {
        push_item(&mut piece, what)?;
    } else {
        for part in what.split(", ") {
            push_item(&mut piece, part)?;
        }
    }
    for _ in 0..times {
        out.extend_from_slice(&piece)?;
    }
    Ok(())
}

/// What stands before the blanks of a line, and what behind them.
pub fn halves(text: &str) -> Result<(&str, &str), Fault> {
    match text.split_once(' ') {
        Some((first, rest)) => Ok((first, rest.trim_start())),
        None => Err(Fault::Wrong("more is wanted in this line")),
    }
}

/// What stands before a comment.
fn uncommented(text: &str) -> &str {
    match text.split_once(';') {
        Some((before, _)) => before,
        None => text,
    }
}

/// The words of a line of a program, behind its address: octal words, or a text in quotes.
pub fn program_bytes(alloc: Global, text: &str) -> Result<Vec<u8>, Fault> {
    let mut bytes = Vec::new(alloc);
    if text.starts_with('"') {
        push_quoted(&mut bytes, text)?;
    } else {
        push_words(&mut bytes, uncommented(text))?;
    }
    Ok(bytes)
}

/// The bytes of a line of a disk, behind their place: bytes in hexadecimal, or a text in quotes.
pub fn disk_bytes(alloc: Global, text: &str) -> Result<Vec<u8>, Fault> {
    let mut bytes = Vec::new(alloc);
    if text.starts_with('"') {
        push_quoted(&mut bytes, text)?;
    } else {
        push_bytes(&mut bytes, uncommented(text))?;
    }
    Ok(bytes)
}
