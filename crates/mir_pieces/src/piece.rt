ghost use Rattle.std.specs.Prelude.{◌≡◌, ◌<◌, ◌^◌, IfOk};
ghost use Rattle.mir_lex.specs.Views.{AreSlices, decimal, digits_of};
ghost use Rattle.mir_grammar.specs.Lexemes.{class_of, number_value};
ghost use Rattle.mir_pieces.specs.Seen.{lexemes};

use crate::classes::class_in;
use mir_lex::{Token, TokenKind, digits_of, number_within};
use std::alloc::Global;
use std::marker::Model;
use vk_core::NoMemory;

/// A token with its bytes, where it starts, and its class. Contracts see the lexeme.
#[derive(Drop)]
pub struct Piece<'a> {
    kind: TokenKind,
    text: &'a [u8],
    start: usize,
    class: u32,
}

impl<'a> Model for Piece<'a> {
    ghost use Rattle.std.specs.Prelude.{◌≡◌, ◌<◌, ◌^◌};
    ghost use Rattle.mir_lex.specs.Views.{decimal, digits_of};
    ghost use Rattle.mir_grammar.specs.Lexemes.{Lexeme, class_of};

    ghost Value = { Lexeme };

    ghost view = { λ p. record { kind = p.kind; text = p.text.now; start = p.start } };

    ghost invariant = { λ p. (p.class ≡ class_of (record { kind = p.kind; text = p.text.now; start = p.start })) × (decimal (digits_of p.text.now) < 2 ^ 128) };
}

impl<'a> Piece<'a> {
    /// A token whose number, if it is one, is below 2^128.
    pub fn new(kind: TokenKind, text: &'a [u8], start: usize) -> Piece<'a>
        requires { decimal (digits_of text.now) < 2 ^ 128 }
        ensures { result ≡ record { kind = kind; text = text.now; start = start } }
    {
        Piece {
            kind,
            text,
            start,
            class: class_in(kind, text),
        }
    }

    /// The class of the token.
    pub fn class(&self) -> u32
        ensures { result ≡ class_of self.now }
    {
        self.class
    }

    pub fn text(&self) -> &'a [u8]
        ensures { result.now ≡ self.now.text }
    {
        self.text
    }

    /// The value of a number's digits.
    #[tactic(auto, unfolding(mir_grammar::specs::Lexemes::number_value))]
    pub fn number_value(&self) -> u128
        ensures { result ≡ number_value self.now }
    {
        match number_within(10, u128::MAX, digits_of(self.text)) {
            Some(value) => value,
            None => 0,
        }
    }

    /// Where the token starts in the text.
    pub fn start(&self) -> usize
        ensures { result ≡ self.now.start }
    {
        self.start
    }
}

/// The tokens of a source, with their bytes and classes.
pub fn pieces<'a>(
    alloc: Global,
    source: &'a [u8],
    tokens: &[Token],
) -> Result<Vec<Piece<'a>>, NoMemory>
    requires { AreSlices source.now tokens.now }
    ensures { IfOk result (λ pieces. pieces.items ≡ lexemes source.now tokens.now) }
{
    let mut pieces = Vec::new(alloc);
    let mut left = tokens;
    while let [token, rest @ ..] = left {
        pieces.push(Piece::new(token.kind, token.text(source), token.start))?;
        left = rest;
    }
    Ok(pieces)
}
