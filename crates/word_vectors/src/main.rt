//! Tries the arithmetic of words against a table that Python computed, one row a line: the operation, 1 where it is
//! signed, the width, two values and the result.
#![tactic(auto)]

use std::io;
use word_bits::Word;

/// One line of the table.
#[derive(Clone, Copy, Debug)]
struct Row<'a> {
    operation: &'a str,
    signed: bool,
    a: Word,
    b: Word,
    result: u128,
}

/// The numbers of a row, or none where the line is no row.
fn read_row(line: &str) -> Option<Row<'_>> {
    let mut words = line.split_whitespace();
    let operation = words.next()?;
    let signed = words.next()? == "1";
    let width = words.next()?.parse::<u32>().ok()?;
    let a = words.next()?.parse::<u128>().ok()?;
    let b = words.next()?.parse::<u128>().ok()?;
    let result = words.next()?.parse::<u128>().ok()?;
    Some(Row {
        operation,
        signed,
        a: Word { width, value: a },
        b: Word { width, value: b },
        result,
    })
}

/// What the operation gives, or none where the row is none that the operation takes.
fn answer(row: &Row<'_>) -> Option<u128> {
    let a = row.a;
    let b = row.b;
    let signed = row.signed;
    if row.operation == "cast" {
        let width = u32::try_from(b.value).ok()?;
        if word_bits::is_word(a) && 1 <= width && width <= 128 {
            return Some(word_bits::cast(a, signed, width).value);
        }
        return None;
    }
    if !word_bits::are_words(a, b) {
        return None;
    }
    let lawful = word_bits::lawful_divisor(a, b, signed);
    match row.operation {
        "add" => Some(word_bits::add(a, b).value),
        "sub" => Some(word_bits::sub(a, b).value),
        "mul" => Some(word_bits::mul(a, b).value),
        "and" => Some(word_bits::and(a, b).value),
        "or" => Some(word_bits::or(a, b).value),
        "xor" => Some(word_bits::xor(a, b).value),
        "not" => Some(word_bits::not(a).value),
        "neg" => Some(word_bits::neg(a).value),
        "shl" => Some(word_bits::shl(a, b).value),
        "shr" => Some(word_bits::shr(a, b, signed).value),
        "less" => Some(u128::from(word_bits::less(a, b, signed))),
        "add_overflows" => Some(u128::from(word_bits::add_overflows(a, b, signed))),
        "sub_overflows" => Some(u128::from(word_bits::sub_overflows(a, b, signed))),
        "mul_overflows" => Some(u128::from(word_bits::mul_overflows(a, b, signed))),
        "lawful_divisor" => Some(u128::from(lawful)),
        "div" if lawful => Some(word_bits::div(a, b, signed).value),
        "rem" if lawful => Some(word_bits::rem(a, b, signed).value),
        _ => None,
    }
}

/// Whether the line is a row with the right result.
fn agrees(line: &str) -> bool {
    match read_row(line) {
        Some(row) => answer(&row) == Some(row.result),
        None => false,
    }
}

fn main(rt: HostRuntime) -> io::Result<()> {
    let mut rows = 0u64;
    let mut wrong = 0u64;
    for line in rt.lines(rt.alloc()) {
        let line = line?;
        rows = rows.wrapping_add(1);
        if !agrees(line.as_str()) {
            wrong = wrong.wrapping_add(1);
            println!(rt; "not so: {line}")?;
        }
    }
    println!(rt; "{rows} rows, {wrong} wrong")
}
