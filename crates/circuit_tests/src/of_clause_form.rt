use bit_gates::{Gates, InputBit, Net};
use clause_form::*;
use std::test::Fail;

#[test]
fn clauses_of_a_conjunction(rt: HostRuntime) -> Result<(), Fail> {
    let alloc = rt.alloc();
    let mut net = Net::new(alloc, 2)?;
    let a = net.input(0);
    let b = net.input(1);
    let both = net.and(a, b)?;
    let mut inputs = Vec::new(alloc);
    inputs.push(InputBit { number: 0, bit: 0 })?;
    inputs.push(InputBit { number: 1, bit: 0 })?;
    let gates = Gates {
        inputs,
        gates: Vec::from_slice(alloc, net.gates())?,
        roots: Vec::new(alloc),
    };
    let list = clauses(alloc, &gates, &[both])?;
    assert_eq!(rt; list.variables(), 4);
    assert_eq!(rt;
        list.len(),
        5,
        "one for the constant, three for the gate and one for the root"
    );
    Ok(())
}
