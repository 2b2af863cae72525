ghost use Rattle.std.specs.Prelude.{◌≡◌};
ghost use Rattle.front_end.specs.Refusals.{declaration_refusal, layout_refusal, lex_refusal, text_refusal};

use decl_file::{DeclFault, DeclKind};
use layout_rules::{LayoutFault, LayoutKind};
use mir_lex::LexFault;
use mir_text::TextFault;
use raw_functions::Limit;
use type_rules::TypeKind;
use vk_core::{Name, TextPlace};

/// What is wrong at a place of a text.
#[derive(Clone, Copy, Debug, PartialEq, Eq)]
pub enum TextKind {
    BadByte,
    OpenText,
    NumberTooWide,
    NameTooLong,
    Unexpected,
    TooDeep,
    Duplicate,
}

/// Why two files are refused. `path` leads through the declaration file; `ty` is the canonical text of a type; `place` is a path too,
/// or `FUNCTION bbB[I]`.
#[derive(Debug, Drop)]
pub enum Refusal {
    Text { kind: TextKind, place: TextPlace },
    Unsupported { form: Name, place: TextPlace },
    TooMany { what: Limit },
    NotToml,
    Declaration { kind: DeclKind, path: Name },
    Layout { kind: LayoutKind, ty: Name },
    Types { kind: TypeKind, place: Name },
}

fn lex_refusal(fault: LexFault) -> Option<Refusal>
    ensures { result ≡ lex_refusal fault }
{
    let (kind, place) = match fault {
        LexFault::BadByte { place } => (TextKind::BadByte, place),
        LexFault::OpenText { place } => (TextKind::OpenText, place),
        LexFault::NumberTooWide { place } => (TextKind::NumberTooWide, place),
        LexFault::NameTooLong { place } => (TextKind::NameTooLong, place),
        LexFault::Memory => return None,
    };
    Some(Refusal::Text { kind, place })
}

/// The refusal of a text, and None for want of memory.
pub fn text_refusal(fault: TextFault) -> Option<Refusal>
    ensures { result ≡ text_refusal fault }
{
    match fault {
        TextFault::Lex(fault) => lex_refusal(fault),
        TextFault::Unexpected { place } => Some(Refusal::Text {
            kind: TextKind::Unexpected,
            place,
        }),
        TextFault::Unsupported { place, form } => Some(Refusal::Unsupported { form, place }),
        TextFault::TooDeep { place } => Some(Refusal::Text {
            kind: TextKind::TooDeep,
            place,
        }),
        TextFault::Duplicate { place } => Some(Refusal::Text {
            kind: TextKind::Duplicate,
            place,
        }),
        TextFault::TooMany { what } => Some(Refusal::TooMany { what }),
        TextFault::Memory => None,
    }
}

/// The refusal of a declaration file, and None for want of memory.
pub fn declaration_refusal(fault: DeclFault) -> Option<Refusal>
    ensures { result ≡ declaration_refusal fault }
{
    match fault {
        DeclFault::NotToml => Some(Refusal::NotToml),
        DeclFault::Key { kind, path } => Some(Refusal::Declaration { kind, path }),
        DeclFault::Memory => None,
    }
}

/// The refusal of a layout, and None for want of memory.
pub fn layout_refusal(fault: LayoutFault) -> Option<Refusal>
    ensures { result ≡ layout_refusal fault }
{
    match fault {
        LayoutFault::Rule { kind, ty } => Some(Refusal::Layout { kind, ty }),
        LayoutFault::Memory => None,
    }
}
