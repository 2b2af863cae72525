use bit_gates::*;
use std::alloc::Global;
use std::test::Fail;
use vk_core::NoMemory;

// The value of a literal, by those of the variables.
fn literal_is(values: &Vec<bool>, literal: u64) -> bool {
    let value = match values.get((literal / 2) as usize) {
        Some(value) => *value,
        None => false,
    };
    value != (literal % 2 == 1)
}

// The values of all variables, where the input bits are those of a number.
fn values_at(alloc: Global, net: &Net, number: u128) -> Result<Vec<bool>, NoMemory> {
    let mut values = Vec::new(alloc);
    for k in 0..net.inputs() {
        values.push(k < 128 && (number >> (k % 128)) % 2 == 1)?;
    }
    for gate in net.gates() {
        let value = match *gate {
            Gate::True => true,
            Gate::And { a, b } => literal_is(&values, a) && literal_is(&values, b),
            Gate::Xor { a, b } => literal_is(&values, a) != literal_is(&values, b),
            Gate::Choose { test, a, b } => {
                if literal_is(&values, test) {
                    literal_is(&values, a)
                } else {
                    literal_is(&values, b)
                }
            }
        };
        values.push(value)?;
    }
    Ok(values)
}

fn number_of(values: &Vec<bool>, word: &Vec<u64>) -> u128 {
    let mut number = 0u128;
    for literal in word.iter().rev() {
        number = number.wrapping_mul(2) | if literal_is(values, *literal) { 1 } else { 0 };
    }
    number
}

// How many gates there are but the constant.
fn gate_count(net: &Net) -> usize {
    net.gates().len().saturating_sub(1)
}

#[test]
fn gates_of_a_sum(rt: HostRuntime) -> Result<(), Fail> {
    let alloc = rt.alloc();
    for width in [1u32, 8, 64] {
        let mut net = Net::new(alloc, 128)?;
        let xs = input_word(alloc, &net, 0, width)?;
        let ys = input_word(alloc, &net, 64, width)?;
        let carry = net.constant(false);
        let sum = add(alloc, &mut net, xs.as_slice(), ys.as_slice(), carry)?;
        assert!(rt;
            gate_count(&net) <= 3 * width as usize,
            "a sum of {width} bits"
        );
        let values = values_at(alloc, &net, (u64::MAX as u128) << 64 | 1)?;
        assert_eq!(rt;
            number_of(&values, &sum.literals),
            0,
            "one more than the greatest of {width} bits"
        );
        assert!(rt; literal_is(&values, sum.carry), "the carry of {width} bits");
    }
    Ok(())
}

#[test]
fn gates_of_products_and_comparisons(rt: HostRuntime) -> Result<(), Fail> {
    let alloc = rt.alloc();
    for width in [1u32, 8, 64] {
        let n = width as usize;
        let mut net = Net::new(alloc, 128)?;
        let xs = input_word(alloc, &net, 0, width)?;
        let ys = input_word(alloc, &net, 64, width)?;
        let product = multiply(alloc, &mut net, xs.as_slice(), ys.as_slice())?;
        assert!(rt;
            gate_count(&net) <= 2 * n * n + 2 * n,
            "a product of {width} bits"
        );
        let values = values_at(alloc, &net, 7u128 << 64 | 5)?;
        let want = if width == 1 { 1 } else { 35 };
        assert_eq!(rt;
            number_of(&values, &product),
            want,
            "5 times 7 in {width} bits"
        );
    }
    for width in [1u32, 8, 64] {
        let mut net = Net::new(alloc, 128)?;
        let xs = input_word(alloc, &net, 0, width)?;
        let ys = input_word(alloc, &net, 64, width)?;
        let below = less(&mut net, xs.as_slice(), ys.as_slice())?;
        assert!(rt;
            gate_count(&net) <= 2 * width as usize,
            "an order of {width} bits"
        );
        let values = values_at(alloc, &net, 1u128 << 64)?;
        assert!(rt;
            literal_is(&values, below),
            "0 is less than 1 in {width} bits"
        );
    }
    Ok(())
}

#[test]
fn gates_of_a_division(rt: HostRuntime) -> Result<(), Fail> {
    let alloc = rt.alloc();
    for width in [1u32, 8, 64] {
        let n = width as usize;
        let mut net = Net::new(alloc, 128)?;
        let xs = input_word(alloc, &net, 0, width)?;
        let ys = input_word(alloc, &net, 64, width)?;
        assert!(rt; ys.len() >= 1);
        let division = divide(alloc, &mut net, xs.as_slice(), ys.as_slice())?;
        assert!(rt;
            gate_count(&net) <= 4 * n * n + 4 * n,
            "a division of {width} bits"
        );
        let values = values_at(alloc, &net, 3u128 << 64 | 23)?;
        let (quotient, remainder) = if width == 1 { (1, 0) } else { (7, 2) };
        assert_eq!(rt;
            number_of(&values, &division.quotient),
            quotient,
            "23 by 3 in {width} bits"
        );
        assert_eq!(rt;
            number_of(&values, &division.remainder),
            remainder,
            "what 3 leaves of 23 in {width} bits"
        );
    }
    Ok(())
}

#[test]
fn gates_of_a_product_made_again(rt: HostRuntime) -> Result<(), Fail> {
    let alloc = rt.alloc();
    let mut net = Net::new(alloc, 128)?;
    let xs = input_word(alloc, &net, 0, 64)?;
    let ys = input_word(alloc, &net, 64, 64)?;
    let _first = multiply(alloc, &mut net, xs.as_slice(), ys.as_slice())?;
    let count = gate_count(&net);
    let xs = input_word(alloc, &net, 0, 64)?;
    let ys = input_word(alloc, &net, 64, 64)?;
    let _second = multiply(alloc, &mut net, xs.as_slice(), ys.as_slice())?;
    assert_eq!(rt; gate_count(&net), count, "no gate is new");
    Ok(())
}
