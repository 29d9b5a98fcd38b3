//! Lines and their words.

ghost use Rattle.std.specs.Prelude.{◌≡◌, ◌+◌, ◌<◌, ◌≤◌, ◌^◌, ◌≢◌, [], ◌∷◌, ◌==◌, length, slice_get, position, IfNone, IfSome};
ghost use Rattle.std.specs.Option.{option_copied};
ghost use Rattle.std.specs.List.{position_or_len, before_first};
ghost use Rattle.std.specs.Iterator.{YieldsFirst, YieldsFirstRef, item_count};
ghost use Rattle.std.specs.Str.Lines.{strip_carriage_return};
ghost use Rattle.ak_text.specs.Lines.{text_lines, lines_of, words_of, has_bad_byte, is_word_byte, is_gap, begins_comment};

use std::marker::Model;

/// A line of a text without its comment.
#[derive(Debug, Drop)]
pub struct Line<'a> {
    number: u32,
    text: &'a [u8],
}

impl<'a> Model for Line<'a> {
    ghost use Rattle.ak_text.specs.Lines.{TextLine};

    ghost Value = { TextLine };

    ghost view = { λ l. record { number = l.number; text = l.text.now } };
}

impl<'a> Line<'a> {
    /// The number of the line, from 1.
    pub fn number(&self) -> u32
        ensures { result ≡ self.now.number }
    {
        self.number
    }

    /// Whether the line has a byte outside its comment that is no blank and stands in no word.
    pub fn is_bad(&self) -> bool
        ensures { result ≡ has_bad_byte self.now.text }
    {
        self.text.iter().any(|byte| !(is_of_word(*byte) || matches!(*byte, b' ' | b'\t')))
    }

    /// The `k`-th word from 0: `None` exactly past the last.
    pub fn word(&self, k: usize) -> Option<&'a [u8]>
        ensures { option_copied result ≡ slice_get (words_of self.now.text) k }
    {
        self.words().nth(k)
    }

    /// The words in order. All together they take the time of one walk over the line.
    pub fn words(&self) -> Words<'a>
        ensures { result ≡ words_of self.now.text }
    {
        Words { rest: self.text }
    }
}

/// The lines that are left of a text.
#[derive(Debug, Drop)]
pub struct Lines<'a> {
    rest: &'a [u8],
    next: u32,
}

impl<'a> Model for Lines<'a> {
    ghost use Rattle.std.specs.Prelude.{List, ◌+◌, ◌<◌, ◌^◌, length};
    ghost use Rattle.ak_text.specs.Lines.{TextLine, numbered, lines_of};

    ghost Value = { List TextLine };

    ghost view = { λ l. numbered l.next (lines_of l.rest.now) };

    ghost invariant = { λ l. l.next + length l.rest.now < 2 ^ 32 };
}

impl<'a> Lines<'a> {
    pub fn new(bytes: &'a [u8]) -> Lines<'a>
        requires { length bytes.now < 4294967295 }
        ensures { result ≡ text_lines bytes.now }
    {
        Lines {
            rest: bytes,
            next: 1,
        }
    }
}

impl<'a> Iterator for Lines<'a> {
    type Item = Line<'a>;

    ghost next_gives = { YieldsFirst (λ s. s) };

    ghost remaining = { item_count (λ s. s) };

    fn next(&mut self) -> Option<Line<'a>> {
        if self.rest.is_empty() {
            return None;
        }
        let (line, rest) = first_line(self.rest);
        let line = Line {
            number: self.next,
            text: without_comment(line),
        };
        self.rest = rest;
        self.next += 1;
        Some(line)
    }
}

#[tactic(auto, using(crate::proofs::Pieces::first_line_of, crate::proofs::Pieces::only_line))]
fn first_line(bytes: &[u8]) -> (&[u8], &[u8])
    requires { 0 < length bytes.now }
    ensures lines { lines_of bytes.now ≡ result.0.now ∷ lines_of result.1.now }
    ensures shorter { length result.1.now < length bytes.now }
{
    match find(bytes, b'\n') {
        Some(end) => (without_carriage_return(&bytes[..end]), &bytes[end + 1..]),
        None => (without_carriage_return(bytes), &[]),
    }
}

fn find(bytes: &[u8], wanted: u8) -> Option<usize>
    ensures { result ≡ position (λ byte. byte == wanted) bytes.now }
{
    bytes.iter().position(|byte| *byte == wanted)
}

fn without_carriage_return(line: &[u8]) -> &[u8]
    ensures { result.now ≡ strip_carriage_return line.now }
{
    match line {
        [front @ .., b'\r'] => front,
        _ => line,
    }
}

fn without_comment(line: &[u8]) -> &[u8]
    ensures { result.now ≡ before_first begins_comment line.now }
{
    match find(line, b'#') {
        Some(end) => &line[..end],
        None => line,
    }
}

fn is_of_word(byte: u8) -> bool
    ensures { result ≡ is_word_byte byte }
{
    matches!(byte, 0x21..=0x7e)
}

/// The words that are left of a line.
#[derive(Debug, Drop)]
pub struct Words<'a> {
    rest: &'a [u8],
}

impl<'a> Model for Words<'a> {
    ghost use Rattle.std.specs.Prelude.{List, ℕ};
    ghost use Rattle.ak_text.specs.Lines.{words_of};

    ghost Value = { List (List ℕ) };

    ghost view = { λ w. words_of w.rest.now };
}

impl<'a> Iterator for Words<'a> {
    type Item = &'a [u8];

    ghost next_gives = { YieldsFirstRef (λ s. s) };

    ghost remaining = { item_count (λ s. s) };

    fn next(&mut self) -> Option<&'a [u8]> {
        let text = from_word(self.rest)?;
        let (word, rest) = split_word(text);
        self.rest = rest;
        Some(word)
    }
}

/// The text from its first word on.
#[tactic(auto, using(crate::proofs::Pieces::skip_gap, crate::proofs::Pieces::no_word))]
fn from_word(text: &[u8]) -> Option<&[u8]>
    ensures none { IfNone result (words_of text.now ≡ []) }
    ensures same { IfSome result (λ rest. words_of text.now ≡ words_of rest.now) }
    ensures word { IfSome result (λ rest. 0 < position_or_len is_gap rest.now) }
{
    match first_word_byte(text) {
        Some(start) => Some(&text[start..]),
        None => None,
    }
}

fn first_word_byte(text: &[u8]) -> Option<usize>
    ensures { result ≡ position is_word_byte text.now }
{
    text.iter().position(|byte| is_of_word(*byte))
}

fn first_gap(text: &[u8]) -> Option<usize>
    ensures { result ≡ position is_gap text.now }
{
    text.iter().position(|byte| !is_of_word(*byte))
}

/// The first word of a text that begins with it, and what follows.
#[tactic(auto, using(crate::proofs::Pieces::first_word, crate::proofs::Pieces::only_word))]
fn split_word(text: &[u8]) -> (&[u8], &[u8])
    requires { 0 < position_or_len is_gap text.now }
    ensures { words_of text.now ≡ result.0.now ∷ words_of result.1.now }
{
    match first_gap(text) {
        Some(end) => (&text[..end], &text[end..]),
        None => (text, &[]),
    }
}
