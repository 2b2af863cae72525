use thiserror::Error;
use vk_core::TextPlace;

/// Why bytes are no token.
#[derive(Clone, Copy, Debug, PartialEq, Eq)]
pub enum FaultKind {
    BadByte,
    OpenText,
    NumberTooWide,
    NameTooLong,
}

/// Why a text has no tokens, and where: the earliest place at which none begins.
#[derive(Clone, Copy, Debug, PartialEq, Eq, Error)]
pub enum LexFault {
    #[error("a byte that begins no token")]
    BadByte { place: TextPlace },
    #[error("a text, a character or an impl segment that does not end")]
    OpenText { place: TextPlace },
    #[error("a number of 2^128 or more")]
    NumberTooWide { place: TextPlace },
    #[error("a name of more than 256 bytes")]
    NameTooLong { place: TextPlace },
    #[error("out of memory")]
    Memory,
}
