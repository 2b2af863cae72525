ghost use Rattle.std.specs.Prelude.{◌≡◌};
ghost use Rattle.front_end.specs.Lines.{declaration_word, layout_word, limit_word, text_word, type_word};

use crate::refusal::TextKind;
use decl_file::DeclKind;
use layout_rules::LayoutKind;
use raw_functions::Limit;
use type_rules::TypeKind;

pub fn text_word(kind: TextKind) -> &'static str
    ensures { result.now ≡ text_word kind }
{
    match kind {
        TextKind::BadByte => "BadByte",
        TextKind::OpenText => "OpenText",
        TextKind::NumberTooWide => "NumberTooWide",
        TextKind::NameTooLong => "NameTooLong",
        TextKind::Unexpected => "Unexpected",
        TextKind::TooDeep => "TooDeep",
        TextKind::Duplicate => "Duplicate",
    }
}

pub fn limit_word(limit: Limit) -> &'static str
    ensures { result.now ≡ limit_word limit }
{
    match limit {
        Limit::Functions => "Functions",
        Limit::Blocks => "Blocks",
        Limit::Locals => "Locals",
        Limit::NameBytes => "NameBytes",
    }
}

pub fn declaration_word(kind: DeclKind) -> &'static str
    ensures { result.now ≡ declaration_word kind }
{
    match kind {
        DeclKind::MissingKey => "MissingKey",
        DeclKind::UnknownKey => "UnknownKey",
        DeclKind::WrongKind => "WrongKind",
        DeclKind::OutOfRange => "OutOfRange",
        DeclKind::Duplicate => "Duplicate",
    }
}

pub fn layout_word(kind: LayoutKind) -> &'static str
    ensures { result.now ≡ layout_word kind }
{
    match kind {
        LayoutKind::Unknown => "Unknown",
        LayoutKind::Recursive => "Recursive",
        LayoutKind::TooBig => "TooBig",
        LayoutKind::Misaligned => "Misaligned",
        LayoutKind::Outside => "Outside",
        LayoutKind::Overlap => "Overlap",
    }
}

pub fn type_word(kind: TypeKind) -> &'static str
    ensures { result.now ≡ type_word kind }
{
    match kind {
        TypeKind::UnknownName => "UnknownName",
        TypeKind::Mismatch => "Mismatch",
        TypeKind::BadPlace => "BadPlace",
        TypeKind::BadCall => "BadCall",
        TypeKind::BadCast => "BadCast",
        TypeKind::NotPlain => "NotPlain",
    }
}
