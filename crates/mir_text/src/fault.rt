use mir_lex::LexFault;
use raw_functions::Limit;
use thiserror::Error;
use vk_core::{Name, TextPlace};

/// Why a text is refused, and where; the first in this order.
#[derive(Debug, Drop, Error)]
pub enum TextFault {
    #[error("no tokens")]
    Lex(LexFault),
    #[error("a token, or the end, that no text has there")]
    Unexpected { place: TextPlace },
    #[error("a form that is not read")]
    Unsupported { place: TextPlace, form: Name },
    #[error("a type, a place or a scope that is nested too deep")]
    TooDeep { place: TextPlace },
    #[error("a name that stands twice")]
    Duplicate { place: TextPlace },
    #[error("more than a limit")]
    TooMany { what: Limit },
    #[error("out of memory")]
    Memory,
}

/// Why a text is no type, no place or no path.
#[derive(Clone, Copy, Debug, PartialEq, Eq, Error)]
pub enum PartFault {
    #[error("not one")]
    NotOne,
    #[error("out of memory")]
    Memory,
}
