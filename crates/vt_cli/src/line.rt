//! The lines of a piece, and what each says.
ghost use Rattle.std.specs.Prelude.{◌≡◌, ◌+◌, ◌≤◌, ◌<◌, ◌∷◌, ◌++◌, [], length, map, not, position, vec_len, IfOk, IfSome};
ghost use Rattle.std.specs.Option.{option_copied};
ghost use Rattle.vt_cli.specs.Line.{is_newline, line_of, lines_of, play_of, said, sleep_of, words_of};
ghost use Rattle.std.specs.Char.{is_ascii_digit};
ghost use Rattle.std.specs.List.{list_all};
ghost use Rattle.vt_frac.specs.Decimal.{are_digits};
ghost use Rattle.vt_lex.specs.Bytes.{is_blank};
ghost use Rattle.vt_cli.specs.private.FirstPart.{BeginsLineWord, line_and_more, word_and_more};

use std::alloc::Global;
use vt_frac::{DecimalFault, Frac, NoMemory};
use vt_value::Integer;

/// A note, by its number.
#[derive(Clone, Copy)]
pub struct Note {
    pub number: Integer,
}

/// What a line says.
#[derive(Clone, Copy)]
pub enum Line {
    Nothing,
    /// A note is played.
    Play(Note),
    /// A rest, in seconds.
    Sleep(Frac),
    /// No line of a piece.
    Refused,
}

fn is_blank(byte: u8) -> bool
    ensures { result ≡ is_blank byte }
{
    byte == b' ' || byte == b'\t' || byte == b'\r'
}

/// Where the first byte stands that is no blank.
fn first_filled(line: &[u8]) -> Option<usize>
    ensures { result ≡ position (λ byte. not (is_blank byte)) line.now }
{
    line.iter().position(|byte| !is_blank(*byte))
}

fn first_blank(line: &[u8]) -> Option<usize>
    ensures { result ≡ position is_blank line.now }
{
    line.iter().position(|byte| is_blank(*byte))
}

fn first_newline(text: &[u8]) -> Option<usize>
    ensures { result ≡ position is_newline text.now }
{
    text.iter().position(|byte| *byte == b'\n')
}

/// What stands from the first byte on that is no blank.
fn skip_blanks(line: &[u8]) -> &[u8]
    ensures words { words_of result.now ≡ words_of line.now }
    ensures begins { BeginsLineWord result.now }
{
    match first_filled(line) {
        Some(start) => &line[start..],
        None => &[],
    }
}

/// The first word of a line, and what stands after it. A line without words has an empty one.
fn cut_word(line: &[u8]) -> (&[u8], &[u8])
    ensures { words_of line.now ≡ word_and_more result.0.now (words_of result.1.now) }
{
    let line = skip_blanks(line);
    match first_blank(line) {
        Some(end) => (&line[..end], &line[end + 1..]),
        None => (line, &[]),
    }
}

fn play_of(number: Result<Frac, DecimalFault>) -> Line
    ensures { result ≡ play_of number }
{
    match number {
        Ok(note) => match Integer::new(note.numer()) {
            Some(number) => Line::Play(Note { number }),
            None => unreachable!(),
        },
        Err(_) => Line::Refused,
    }
}

fn sleep_of(number: Result<Frac, DecimalFault>) -> Line
    ensures { result ≡ sleep_of number }
{
    match number {
        Ok(amount) => Line::Sleep(amount),
        Err(_) => Line::Refused,
    }
}

/// Whether a word of a line is digits alone, at least one.
pub fn are_line_digits(word: &[u8]) -> bool
    ensures { result ≡ are_digits word.now }
{
    !word.is_empty() && all_digits(word)
}

fn all_digits(word: &[u8]) -> bool
    ensures { result ≡ list_all is_ascii_digit word.now }
{
    word.iter().all(|byte| byte.is_ascii_digit())
}

/// What a line of two words says.
fn said(verb: &[u8], operand: &[u8]) -> Line
    ensures { result ≡ said verb.now operand.now }
{
    if verb == b"play".as_slice() && are_line_digits(operand) {
        play_of(Frac::read_decimal(operand))
    } else if verb == b"sleep".as_slice() {
        sleep_of(Frac::read_decimal(operand))
    } else {
        Line::Refused
    }
}

/// What a line says, by its words.
fn line_of(line: &[u8]) -> Line
    ensures { result ≡ line_of line.now }
{
    let (verb, more) = cut_word(line);
    let (operand, more) = cut_word(more);
    let (other, _) = cut_word(more);
    if verb.is_empty() {
        return Line::Nothing;
    }
    if operand.is_empty() {
        return Line::Refused;
    }
    if other.is_empty() {
        return said(verb, operand);
    }
    Line::Refused
}

/// The first line of a text, and what stands after its newline, where it has one.
fn cut_line(text: &[u8]) -> (&[u8], Option<&[u8]>)
    ensures lines { lines_of text.now ≡ line_and_more result.0.now (option_copied result.1) }
    ensures shorter { IfSome result.1 (λ more. length more.now < length text.now) }
{
    match first_newline(text) {
        Some(end) => (&text[..end], Some(&text[end + 1..])),
        None => (text, None),
    }
}

/// What the lines of a text say.
pub fn read_lines(alloc: Global, text: &[u8]) -> Result<Vec<Line>, NoMemory>
    ensures lines { IfOk result (λ lines. lines.items ≡ map line_of (lines_of text.now)) }
    ensures few { IfOk result (λ lines. length lines.items ≤ length text.now + 1) }
{
    let mut lines = Vec::new(alloc);
    let mut rest = Some(text);
    'cut: while let Some(text) = rest {
        let (line, more) = cut_line(text);
        lines.push(line_of(line))?;
        rest = more;
    }
    Ok(lines)
}
