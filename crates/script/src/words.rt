// The words of a line: what stands between blanks.
ghost use Rattle.std.specs.Prelude.{◌≡◌, ◌<◌, ◌≤◌, length, not, position};
ghost use Rattle.std.specs.List.{position_or_len};
ghost use Rattle.std.specs.Option.{IfSome};
ghost use Rattle.script.specs.Words.{is_blank, is_letter, listed, words_of};

use std::marker::Model;

// The first word of a line, and what follows it.
#[derive(Clone, Copy)]
pub struct Split<'a> {
    pub word: &'a [u8],
    pub rest: &'a [u8],
}

// The words that are left of a line.
#[derive(Drop)]
pub struct Words<'a> {
    line: &'a [u8],
}

impl<'a> Model for Words<'a> {
    ghost use Rattle.std.specs.Prelude.{ℕ, List};
    ghost use Rattle.script.specs.Words.{words_of};

    ghost Value = { List (List ℕ) };

    ghost view = { λ w. words_of w.line.now };
}

impl<'a> Words<'a> {
    pub fn of(line: &'a [u8]) -> Words<'a>
        ensures { result ≡ words_of line.now }
    {
        Words { line }
    }
}

// Not std's `is_ascii_whitespace`, which has other bytes.
fn is_blank(byte: u8) -> bool
    ensures { result ≡ is_blank byte }
{
    matches!(byte, b' ' | b'\t' | b'\r')
}

// Where the first word of a line begins.
fn first_letter(line: &[u8]) -> Option<usize>
    ensures { result ≡ position is_letter line.now }
{
    line.iter().position(|byte| !is_blank(*byte))
}

fn first_blank(text: &[u8]) -> Option<usize>
    ensures { result ≡ position is_blank text.now }
{
    text.iter().position(|byte| is_blank(*byte))
}

// Where the word ends that a text begins with.
fn word_end(text: &[u8]) -> usize
    ensures end { result ≡ position_or_len is_blank text.now }
    ensures within { result ≤ length text.now }
{
    first_blank(text).unwrap_or(text.len())
}

// None where a line has no word.
pub fn next_word(line: &[u8]) -> Option<Split<'_>>
    ensures words { words_of line.now ≡ listed result }
    ensures shorter { IfSome result (λ s. length s.rest.now < length line.now) }
{
    let start = first_letter(line)?;
    let text = &line[start..];
    let (word, rest) = text.split_at(word_end(text));
    Some(Split { word, rest })
}

impl<'a> Iterator for Words<'a> {
    ghost use Rattle.std.specs.Iterator.{YieldsFirstBy, item_count};

    type Item = &'a [u8];

    ghost next_gives = { YieldsFirstBy (λ word. word.now) (λ words. words) };

    ghost remaining = { item_count (λ words. words) };

    fn next(&mut self) -> Option<&'a [u8]> {
        let split = next_word(self.line)?;
        self.line = split.rest;
        Some(split.word)
    }
}
