ghost use Rattle.std.specs.Prelude.{◌≡◌, ◌≢◌, ◌<◌, ℕ, All, AllPairs, IfOk, OnOk, false, get_or, slice_index_or, vec_len};
ghost use Rattle.term_queries.specs.Numbers.{AreNumbers, IsBitPut, IsBitSet};

use bit_blast::InputBit;
use std::alloc::Global;
use vk_core::NoMemory;

/// Makes the list so long that it has the place, with zeros.
fn grow(numbers: &mut Vec<u128>, place: usize) -> Result<(), NoMemory>
    ensures inside { OnOk result (place < vec_len numbers.new) }
    ensures kept { (k : ℕ) → get_or numbers.new.items k 0 ≡ get_or numbers.old.items k 0 }
{
    while numbers.len() <= place {
        numbers.push(0)?;
    }
    Ok(())
}

/// Sets a bit of a number.
fn set_bit(numbers: &mut Vec<u128>, bit: InputBit) -> Result<(), NoMemory>
    requires { bit.bit < 128 }
    ensures { OnOk result (IsBitSet numbers.old.items numbers.new.items bit) }
{
    grow(numbers, bit.number)?;
    numbers[bit.number] |= 1 << bit.bit;
    Ok(())
}

/// Sets a bit of a number, where it is to be set.
fn put_bit(numbers: &mut Vec<u128>, bit: InputBit, value: bool) -> Result<(), NoMemory>
    requires { bit.bit < 128 }
    ensures { OnOk result (IsBitPut numbers.old.items numbers.new.items bit value) }
{
    if value {
        set_bit(numbers, bit)?;
        Ok(())
    } else {
        Ok(())
    }
}

fn value_at(values: &[bool], place: usize) -> bool
    ensures { result ≡ slice_index_or values.now place false }
{
    match values.get(place) {
        Some(value) => *value,
        None => false,
    }
}

/// The numbers of the inputs whose bits have these values, by the numbers of the inputs.
pub fn numbers_of(
    alloc: Global,
    inputs: &[InputBit],
    values: &[bool],
) -> Result<Vec<u128>, NoMemory>
    requires small { All (λ b. b.bit < 128) inputs.now }
    requires apart { AllPairs (λ x y. x ≢ y) inputs.now }
    ensures { IfOk result (λ numbers. AreNumbers inputs.now (λ v. slice_index_or values.now v false) (λ n. get_or numbers.items n 0)) }
{
    let mut numbers = Vec::new(alloc);
    for place in 0..inputs.len() {
        put_bit(&mut numbers, inputs[place], value_at(values, place))?;
    }
    Ok(numbers)
}
