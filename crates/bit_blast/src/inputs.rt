ghost use Rattle.std.specs.Prelude.{◌≡◌, ◌≤◌, ◌++◌, ◌==◌, ◌<◌, ◌^◌, ℕ, IfOk, OnOk, length, get_or, vec_len, if◌then◌else◌};
ghost use Rattle.bit_blast.specs.Inputs.{AreFew, HaveWidths, ArePlaced, bits_of, input_of};

use bit_gates::InputBit;
use std::alloc::Global;
use sym_terms::{Term, TermId, Terms};
use vk_core::NoMemory;

/// The number and the width of an input.
fn input_of_term(term: Term) -> Option<(usize, u32)>
    ensures { result ≡ input_of term }
{
    match term {
        Term::Constant(_) => None,
        Term::Input { number, width } => Some((number, width)),
        Term::Apply { op: _, a: _, b: _ } => None,
        Term::Cast {
            a: _,
            signed: _,
            width: _,
        } => None,
        Term::Choose {
            test: _,
            a: _,
            b: _,
        } => None,
        Term::Slice {
            a: _,
            from: _,
            width: _,
        } => None,
    }
}

/// Makes the list at least so long, with zeros.
fn grow(widths: &mut Vec<u32>, count: usize) -> Result<(), NoMemory>
    ensures long { OnOk result (count ≤ vec_len widths.new) }
    ensures kept { (k : ℕ) → get_or widths.new.items k 0 ≡ get_or widths.old.items k 0 }
{
    while widths.len() < count {
        widths.push(0)?;
    }
    Ok(())
}

/// Notes the width of an input.
fn set_width(widths: &mut Vec<u32>, number: usize, width: u32) -> Result<(), NoMemory>
    requires { number < 2 ^ 62 }
    ensures { OnOk result ((k : ℕ) → get_or widths.new.items k 0 ≡ (if k == number then width else get_or widths.old.items k 0)) }
{
    grow(widths, number + 1)?;
    widths[number] = width;
    Ok(())
}

/// The width of each input by its number, 0 where there is none.
pub fn input_widths(alloc: Global, terms: &Terms) -> Result<Vec<u32>, NoMemory>
    ensures have { IfOk result (λ widths. HaveWidths terms.now (length terms.now) widths.items) }
    ensures few { IfOk result (λ widths. AreFew widths.items) }
{
    let mut widths = Vec::new(alloc);
    for n in 0..terms.len() {
        if let Some((number, width)) = input_of_term(terms.term(TermId(n))) {
            if number >= 1 << 62 {
                return Err(NoMemory);
            }
            set_width(&mut widths, number, width)?;
        }
    }
    Ok(widths)
}

/// The bits of all inputs, and where those of each input begin.
#[derive(Drop)]
pub struct Inputs {
    pub bits: Vec<InputBit>,
    pub places: Vec<usize>,
}

/// The bits of one input.
fn push_bits(bits: &mut Vec<InputBit>, number: usize, width: u32) -> Result<(), NoMemory>
    ensures { OnOk result (bits.new.items ≡ bits.old.items ++ bits_of number width) }
{
    for k in 0..width {
        bits.push(InputBit { number, bit: k })?;
    }
    Ok(())
}

/// The bits of the inputs of these widths.
pub fn place_inputs(alloc: Global, widths: &[u32]) -> Result<Inputs, NoMemory>
    ensures { IfOk result (λ r. ArePlaced widths.now r.bits.items r.places.items) }
{
    let mut bits = Vec::new(alloc);
    let mut places = Vec::new(alloc);
    for number in 0..widths.len() {
        places.push(bits.len())?;
        push_bits(&mut bits, number, widths[number])?;
    }
    Ok(Inputs { bits, places })
}
