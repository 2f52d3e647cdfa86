//! The lines of a table: columns parted by one tab. The first is the call, the last a few words on
//! the line, the last but one the answer that is wanted; what stands between are the arguments, the
//! first of them a database's name where the call has a database.
//!
//! In each column `\t` is a tab, `\n` a line feed, `\\` a backslash, `\uXXXX` and `\UXXXXXXXX` the
//! character of that number, and `\xNN` a byte that is part of no text. The columns are parted
//! first, the escapes undone second.
use anyhow::{Result, anyhow};
use phone_chars::cuts::split_first;
use std::alloc::{AllocError, Global};

/// What an escape stands for.
#[derive(Clone, Copy)]
enum Piece {
    Char(char),
    Byte(u8),
}

/// The number that the first digits of a text write in hexadecimal, and what follows them.
fn number(text: &str, digits: usize) -> Option<(u32, &str)> {
    let (number, after) = text.split_at_checked(digits)?;
    match u32::from_str_radix(number, 16) {
        Ok(number) => Some((number, after)),
        Err(_) => None,
    }
}

/// The character of a number that is written in so many digits, and what follows it.
fn numbered(text: &str, digits: usize) -> Option<(Piece, &str)> {
    let (number, after) = number(text, digits)?;
    Some((Piece::Char(char::from_u32(number)?), after))
}

/// The byte of a number that is written in two digits, and what follows it.
fn byte(text: &str) -> Option<(Piece, &str)> {
    let (number, after) = number(text, 2)?;
    Some((Piece::Byte(number.to_le_bytes()[0]), after))
}

/// What an escape stands for, and what follows it. The text is what stands behind its backslash.
fn escaped(text: &str) -> Option<(Piece, &str)> {
    let (kind, rest) = split_first(text)?;
    match kind {
        't' => Some((Piece::Byte(b'\t'), rest)),
        'n' => Some((Piece::Byte(b'\n'), rest)),
        'u' => numbered(rest, 4),
        'U' => numbered(rest, 8),
        'x' => byte(rest),
        _ => None,
    }
}

/// Writes what an escape stands for.
fn push_piece(out: &mut Vec<u8>, piece: Piece) -> Result<(), AllocError> {
    match piece {
        Piece::Char(c) => out.extend_from_slice(c.encode_utf8(&mut [0; 4]).as_bytes()),
        Piece::Byte(byte) => out.extend_from_slice(&[byte]),
    }
}

/// Writes what an escape stands for, and what follows it. The text is what stands behind its
/// backslash.
fn push_escape(out: &mut Vec<u8>, text: &str) -> Result<()> {
    let Some((piece, rest)) = escaped(text) else {
        return Err(anyhow!("an escape of the table is malformed"));
    };
    push_piece(out, piece)?;
    Ok(out.extend_from_slice(rest.as_bytes())?)
}

/// Writes a part of a column that was cut at its backslashes; a backslash where no escape begins.
fn push_part(out: &mut Vec<u8>, part: &str, is_plain: bool) -> Result<()> {
    if is_plain {
        return Ok(out.extend_from_slice(part.as_bytes())?);
    }
    if part.is_empty() {
        return Ok(out.extend_from_slice(b"\\")?);
    }
    push_escape(out, part)
}

/// A column with its escapes undone. Cut at its backslashes, an empty part is a second backslash,
/// behind which no escape begins.
fn undo(alloc: Global, column: &str) -> Result<Vec<u8>> {
    let mut out = Vec::new(alloc);
    let mut is_plain = true;
    for part in column.split('\\') {
        push_part(&mut out, part, is_plain)?;
        is_plain = !is_plain && part.is_empty();
    }
    Ok(out)
}

/// The text of these bytes; empty where they are none.
fn text(bytes: &[u8]) -> &str {
    std::str::from_utf8(bytes).unwrap_or("")
}

/// A line of the table, its escapes undone.
#[derive(Drop)]
pub struct Row {
    columns: Vec<Vec<u8>>,
}

impl Row {
    /// Reads a line.
    pub fn read(alloc: Global, line: &str) -> Result<Row> {
        let mut columns = Vec::new(alloc);
        for column in line.split('\t') {
            columns.push(undo(alloc, column)?)?;
        }
        Ok(Row { columns })
    }

    /// The bytes of a column; nothing where there is none.
    fn bytes(&self, at: usize) -> &[u8] {
        match self.columns.get(at) {
            Some(column) => column.as_slice(),
            None => &[],
        }
    }

    /// The call's name.
    pub fn call(&self) -> &str {
        text(self.bytes(0))
    }

    /// How many arguments stand between the call and the answer.
    pub fn arguments(&self) -> usize {
        self.columns.len().saturating_sub(3)
    }

    /// The bytes of an argument, counted from 0.
    pub fn argument_bytes(&self, at: usize) -> &[u8] {
        self.bytes(at.saturating_add(1))
    }

    /// An argument, counted from 0; empty where it is no text.
    pub fn argument(&self, at: usize) -> &str {
        text(self.argument_bytes(at))
    }

    /// The bytes of the answer.
    pub fn answer(&self) -> &[u8] {
        self.bytes(self.columns.len().saturating_sub(2))
    }
}

/// Writes a character as a table does: a tab, a line feed or a backslash escaped.
fn push_char(out: &mut String, c: char) -> Result<(), AllocError> {
    match c {
        '\t' => out.push_str("\\t"),
        '\n' => out.push_str("\\n"),
        '\\' => out.push_str("\\\\"),
        _ => out.push(c),
    }
}

/// A text as a table writes it: tabs, line feeds and backslashes escaped.
pub fn escape(alloc: Global, text: &str) -> Result<String, AllocError> {
    let mut out = String::new(alloc);
    for c in text.chars() {
        push_char(&mut out, c)?;
    }
    Ok(out)
}
