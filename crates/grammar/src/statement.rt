// A line as a statement.
ghost use Rattle.std.specs.Prelude.{◌≡◌};
ghost use Rattle.std.specs.Option.{option_map};
ghost use Rattle.grammar.specs.Line.{said, name_byte, is_name, numeral, is_text, two_words, three_words, of_text, of_line, before_comment};

use crate::words::next_word;
use std::str::from_utf8;

#[derive(Clone, Copy, PartialEq, Eq, Debug)]
pub enum Statement<'a> {
    Nothing,
    Arrow { from: u64, event: &'a str, to: u64 },
    Fault { event: &'a str },
    Shows { event: &'a str, sign: u64 },
}

// The part of a line before a comment.
fn code_of(line: &str) -> &str
    ensures { result.now ≡ before_comment line.now }
{
    match line.split_once('#') {
        Some((code, _)) => code,
        None => line,
    }
}

// Whether a byte may stand in a name.
fn is_name_byte(b: u8) -> bool
    ensures { result ≡ name_byte b }
{
    b.is_ascii_alphanumeric() || b == b'-' || b == b'_'
}

fn is_name(word: &str) -> bool
    ensures { result ≡ is_name word.now }
{
    // a row of no events is printed as `nothing`
    if word.len() > 32 || word == "nothing" {
        return false;
    }
    word.as_bytes()
        .first()
        .is_some_and(|b| b.is_ascii_alphabetic())
        && word.bytes().all(is_name_byte)
}

fn number(word: &str) -> Option<u64>
    ensures { result ≡ numeral word.now }
{
    if word.len() > 18 {
        return None;
    }
    // `parse` would take a sign
    if word.starts_with('+') {
        return None;
    }
    word.parse().ok()
}

fn fault<'a>(event: &'a str, verb: &str) -> Option<Statement<'a>>
    ensures { option_map said result ≡ two_words event.now verb.now }
{
    (is_name(event) && verb == "fault").then_some(Statement::Fault { event })
}

fn shows_or_arrow<'a>(first: &'a str, second: &'a str, third: &str) -> Option<Statement<'a>>
    ensures { option_map said result ≡ three_words first.now second.now third.now }
{
    if is_name(first) {
        if second != "shows" {
            return None;
        }
        return Some(Statement::Shows {
            event: first,
            sign: number(third)?,
        });
    }
    let from = number(first)?;
    if !is_name(second) {
        return None;
    }
    let to = number(third)?;
    Some(Statement::Arrow {
        from,
        event: second,
        to,
    })
}

// What a line of text says, or nothing if it can't be read.
fn read_text(line: &str) -> Option<Statement<'_>>
    ensures { option_map said result ≡ of_text line.now }
{
    let Some((first, rest)) = next_word(code_of(line)) else {
        return Some(Statement::Nothing);
    };
    let (second, rest) = next_word(rest)?;
    let Some((third, rest)) = next_word(rest) else {
        return fault(first, second);
    };
    match next_word(rest) {
        None => shows_or_arrow(first, second, third),
        Some(_) => None,
    }
}

// What a line says, or nothing if it can't be read.
pub fn read_line(line: &[u8]) -> Option<Statement<'_>>
    ensures { option_map said result ≡ of_line line.now }
{
    read_text(from_utf8(line).ok()?)
}
