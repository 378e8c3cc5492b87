//! The tokens of a text, one after another.

ghost use Rattle.std.specs.Prelude.{◌≡◌, ◌≤◌, ◌<◌, ◌+◌, ◌-◌, length, drop, take, false, true, slice_index};
ghost use Rattle.std.specs.List.{prefix_len};
ghost use Rattle.std.specs.Str.{IsCharBoundary};
ghost use Rattle.dypdl_expr.specs.Tokens.{is_white, is_inner, tokens_of, tokens_from, has_control};
ghost use Rattle.dypdl_expr.specs.Lexemes.{followed_by};

use std::marker::Model;

/// A token and the offset of its first byte, or the end of the text.
#[derive(Clone, Copy)]
pub(crate) enum Lexeme<'a> {
    End,
    Open(u32),
    Close(u32),
    Bar(u32),
    Word(u32, &'a str),
}

/// Reads a text's tokens from left to right. Contracts see the tokens that are left.
#[derive(Drop)]
pub(crate) struct Tokens<'a> {
    text: &'a str,
    at: usize,
}

impl<'a> Model for Tokens<'a> {
    ghost use Rattle.std.specs.Prelude.{◌≤◌, List, false, length, drop};
    ghost use Rattle.std.specs.Str.{IsCharBoundary};
    ghost use Rattle.dypdl_expr.specs.Tokens.{Token, tokens_code, tokens_from};

    ghost Value = { List Token };

    ghost coded = { tokens_code };

    ghost view = { λ t. tokens_from false t.at (drop t.at t.text.now) };

    ghost invariant = { λ t. (length t.text.now ≤ 16777216) × IsCharBoundary t.text.now t.at };
}

fn is_white(byte: u8) -> bool
    ensures { result ≡ is_white byte }
{
    matches!(byte, b' ' | b'\t' | b'\n' | b'\r')
}

fn is_inner(byte: u8) -> bool
    ensures { result ≡ is_inner byte }
{
    !(is_white(byte) || matches!(byte, b'(' | b')' | b'|'))
}

/// Whether a word has a control character.
pub(crate) fn has_control(word: &str) -> bool
    ensures { result ≡ has_control word.now }
{
    word.chars().any(|c| c.is_control())
}

/// Where the white space ends that begins at a place.
fn white_end(text: &str, from: usize) -> usize
    requires { IsCharBoundary text.now from }
    ensures boundary { IsCharBoundary text.now result }
    ensures same { tokens_from false from (drop from text.now)
        ≡ tokens_from false result (drop result text.now) }
    ensures stops { result < length text.now → is_white (slice_index text.now result) ≡ false }
{
    let bytes = text.as_bytes();
    let mut end = from;
    while end < bytes.len() && is_white(bytes[end]) {
        end += 1;
    }
    end
}

/// Where the word ends that has a byte at a place.
fn word_end(text: &str, from: usize) -> usize
    requires { IsCharBoundary text.now from }
    ensures boundary { IsCharBoundary text.now result }
    ensures run { result ≡ from + prefix_len is_inner (drop from text.now) }
    ensures same { tokens_from true from (drop from text.now)
        ≡ tokens_from false result (drop result text.now) }
{
    let bytes = text.as_bytes();
    let mut end = from;
    while end < bytes.len() && is_inner(bytes[end]) {
        end += 1;
    }
    end
}

impl<'a> Tokens<'a> {
    /// All tokens of a text.
    pub(crate) fn of(text: &'a str) -> Tokens<'a>
        requires { length text.now ≤ 16777216 }
        ensures { result ≡ tokens_of text.now }
    {
        Tokens { text, at: 0 }
    }

    /// Passes the next token.
    pub(crate) fn next(&mut self) -> Lexeme<'a>
        ensures { self.old ≡ followed_by result self.new }
    {
        let text = self.text;
        let begin = white_end(text, self.at);
        self.at = begin;
        if begin == text.len() {
            return Lexeme::End;
        }
        let offset = begin as u32;
        let byte = text.as_bytes()[begin];
        if is_inner(byte) {
            let end = word_end(text, begin);
            self.at = end;
            return Lexeme::Word(offset, &text[begin..end]);
        }
        self.at = begin + 1;
        if byte == b'(' {
            Lexeme::Open(offset)
        } else if byte == b')' {
            Lexeme::Close(offset)
        } else {
            Lexeme::Bar(offset)
        }
    }
}
