/// What a token is. Locals and labels are words, and a number may have a type behind it.
#[derive(Clone, Copy, Debug, PartialEq, Eq)]
pub enum TokenKind {
    Word,
    Number,
    Text,
    Character,
    Lifetime,
    ImplSegment,
    Sign,
}

/// A token: the bytes of the text from `start` up to `end`, as they are written.
#[derive(Clone, Copy, Debug, PartialEq, Eq)]
pub struct Token {
    pub kind: TokenKind,
    pub start: usize,
    pub end: usize,
}
