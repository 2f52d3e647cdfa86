//! The calls of `phone_book`: lines that are added to a contact book.
use crate::by_rules::by_rules;
use anyhow::{Result, anyhow};
use phone_book::{Book, BookError, Place};
use phone_engine::Rules;
use phone_meta::Database;
use phone_values::ParseError;
use phone_values::country::Id;
use phonenumber::PhoneNumber;
use replay_base::marks::{around, begin};
use replay_base::table::Row;
use replay_base::words::{hint, said};
use replay_database::named::load;
use replay_numbers::facts::push_parts;
use std::alloc::{AllocError, AllocGlobal, Global};
use std::fs::Files;

/// A text and the region under which it is read.
type Hinted<'a> = (Option<Id>, &'a str);

/// What a book answered to a line.
type Answer = Result<Place, BookError>;

/// What a book over the database that a line names answers, as the table writes it; none for any
/// other call. An error where the line's text has no hint, and where memory is refused.
pub fn answer<R: Files + AllocGlobal>(rt: &R, row: &Row) -> Result<Option<String>> {
    match by_rules(row) {
        (rules, "book" | "book-add" | "book-get") => Ok(Some(of_book(rt, rules, row)?)),
        _ => Ok(None),
    }
}

/// What a book over the database that a line names answers, which reads by these rules, or that one
/// of its codes begins another.
fn of_book<R: Files + AllocGlobal>(rt: &R, rules: Rules, row: &Row) -> Result<String> {
    match empty_book(load(rt, row.argument(0))?, rules) {
        Some(mut book) => in_book(rt.alloc(), row, &mut book),
        None => said(rt.alloc(), "Ambiguous"),
    }
}

/// An empty book over a database; none where one of its codes begins another.
fn empty_book(database: Database, rules: Rules) -> Option<Book> {
    match rules {
        Rules::Crate => Book::new(database).ok(),
        Rules::Library => Book::over(database.into_plans(), rules).ok(),
    }
}

/// What an empty book answers to a line's call.
fn in_book(alloc: Global, row: &Row, book: &mut Book) -> Result<String> {
    match by_rules(row) {
        (_, "book") => all_at_once(alloc, row, book),
        (_, "book-add") => one_by_one(alloc, row, book),
        _ => entry(alloc, row, book),
    }
}

/// The lines from an argument on, each a hint, a space and the text.
fn lines(alloc: Global, row: &Row, from: usize) -> Result<Vec<Hinted<'_>>> {
    let mut lines = Vec::new(alloc);
    for at in from..row.arguments() {
        let Some((word, text)) = row.argument(at).split_once(' ') else {
            return Err(anyhow!("a line of a book has no hint"));
        };
        lines.push((hint(word)?, text))?;
    }
    Ok(lines)
}

/// The answers of a book to all lines at once, and its numbers.
fn all_at_once(alloc: Global, row: &Row, book: &mut Book) -> Result<String> {
    let lines = lines(alloc, row, 1)?;
    let begun = begin(alloc);
    match around(alloc, begun, book.add_all(lines.as_slice())) {
        Ok(answers) => book_words(alloc, book, answers.as_slice()),
        Err(_) if book.len() == 0 => Err(anyhow!("out of memory")),
        Err(_) => said(alloc, "numbers without answers"),
    }
}

/// The same, line by line.
fn one_by_one(alloc: Global, row: &Row, book: &mut Book) -> Result<String> {
    let lines = lines(alloc, row, 1)?;
    let mut answers = Vec::with_capacity(alloc, lines.len())?;
    around(
        alloc,
        begin(alloc),
        add_each(book, lines.as_slice(), &mut answers),
    )?;
    book_words(alloc, book, answers.as_slice())
}

/// Adds each line, and keeps its answer, for which there is room.
fn add_each(
    book: &mut Book,
    lines: &[Hinted<'_>],
    answers: &mut Vec<Answer>,
) -> Result<(), AllocError> {
    for (hint, text) in lines {
        answers.push(book.add(*hint, text))?;
    }
    Ok(())
}

/// How many answers say that a number was added.
fn count_added(answers: &[Answer]) -> usize {
    let mut count = 0usize;
    for answer in answers {
        if let Ok(Place::Added(_)) = answer {
            count = count.saturating_add(1);
        }
    }
    count
}

/// The answers of a book to lines, and its numbers: answers, a tab behind each; then an equals sign
/// and the E.164 texts of the numbers in order, parted by spaces. There must be as many numbers as
/// were added, also where a line was answered by want of memory; that is then an error.
fn book_words(alloc: Global, book: &Book, answers: &[Answer]) -> Result<String> {
    if count_added(answers) != book.len() {
        return said(alloc, "not the numbers that were added");
    }
    let mut out = String::new(alloc);
    push_answers(&mut out, answers)?;
    push_numbers(&mut out, book)?;
    Ok(out)
}

/// Writes answers, a tab behind each.
fn push_answers(out: &mut String, answers: &[Answer]) -> Result<()> {
    for answer in answers {
        push_answer(out, answer)?;
    }
    Ok(())
}

/// Writes an answer, with a tab.
fn push_answer(out: &mut String, answer: &Answer) -> Result<()> {
    let written = match answer {
        Ok(Place::Added(place)) => write!(out, "Added {place}\t"),
        Ok(Place::Present(place)) => write!(out, "Present {place}\t"),
        Err(BookError::Refused(error)) => push_refused(out, error),
        Err(BookError::Memory) => return Err(anyhow!("out of memory")),
    };
    Ok(written?)
}

/// Writes `Refused`, and the number of a refusal, with a tab.
fn push_refused(out: &mut String, error: &ParseError) -> Result<(), AllocError> {
    let number = error.number();
    write!(out, "Refused {number}\t")
}

/// Writes an equals sign and the E.164 texts of a book's numbers in order, parted by spaces.
fn push_numbers(out: &mut String, book: &Book) -> Result<(), AllocError> {
    let mut sign = '=';
    for number in book.iter() {
        write!(out, "{sign}{number}")?;
        sign = ' ';
    }
    if sign == '=' {
        return out.push(sign);
    }
    Ok(())
}

/// How many numbers a book has that was given all lines, and the number at a place as it was
/// written, or a hyphen.
fn entry(alloc: Global, row: &Row, book: &mut Book) -> Result<String> {
    let place = row.argument(1).parse::<usize>()?;
    add_all(alloc, row, book)?;
    let mut out = book.len().to_string(alloc)?;
    push_entry(&mut out, book.get(place))?;
    Ok(out)
}

/// Writes a tab and a number as it was written, or a hyphen.
fn push_entry(out: &mut String, number: Option<&PhoneNumber>) -> Result<(), AllocError> {
    out.push('\t')?;
    match number {
        Some(number) => push_parts(out, number),
        None => out.push('-'),
    }
}

/// Adds the lines behind a place.
fn add_all(alloc: Global, row: &Row, book: &mut Book) -> Result<()> {
    let lines = lines(alloc, row, 2)?;
    let _answers = book.add_all(lines.as_slice())?;
    Ok(())
}
