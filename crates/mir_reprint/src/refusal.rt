//! The line of a refusal.
use mir_text::{LexFault, Limit, TextFault};
use std::io::{self, Write};
use vk_core::TextPlace;

fn print_at(rt: &impl Print, kind: &str, place: TextPlace) -> io::Result<()> {
    println!(rt; "error: text: {kind} at {}:{}", place.line, place.column)
}

fn print_lex(rt: &impl Print, fault: LexFault) -> io::Result<()> {
    match fault {
        LexFault::BadByte { place } => print_at(rt, "BadByte", place),
        LexFault::OpenText { place } => print_at(rt, "OpenText", place),
        LexFault::NumberTooWide { place } => print_at(rt, "NumberTooWide", place),
        LexFault::NameTooLong { place } => print_at(rt, "NameTooLong", place),
        LexFault::Memory => rt.println("error: text: out of memory"),
    }
}

fn print_limit(rt: &impl Print, what: Limit) -> io::Result<()> {
    match what {
        Limit::Functions => rt.println("error: text: TooMany Functions"),
        Limit::Blocks => rt.println("error: text: TooMany Blocks"),
        Limit::Locals => rt.println("error: text: TooMany Locals"),
        Limit::NameBytes => rt.println("error: text: TooMany NameBytes"),
    }
}

/// Prints why a text is refused.
pub fn print_refusal(rt: &impl Print, fault: &TextFault) -> io::Result<()> {
    match fault {
        TextFault::Lex(fault) => print_lex(rt, *fault),
        TextFault::Unexpected { place } => print_at(rt, "Unexpected", *place),
        TextFault::Unsupported { place, form } => {
            io::writer(rt).write_all(b"error: text: Unsupported ")?;
            io::writer(rt).write_all(form.as_bytes())?;
            println!(rt; " at {}:{}", place.line, place.column)
        }
        TextFault::TooDeep { place } => print_at(rt, "TooDeep", *place),
        TextFault::Duplicate { place } => print_at(rt, "Duplicate", *place),
        TextFault::TooMany { what } => print_limit(rt, *what),
        TextFault::Memory => rt.println("error: text: out of memory"),
    }
}
