use bit_gates::Net;
use gate_trim::*;
use std::test::Fail;

#[test]
fn a_circuit_without_what_nobody_reads(rt: HostRuntime) -> Result<(), Fail> {
    let alloc = rt.alloc();
    let mut net = Net::new(alloc, 3)?;
    let a = net.input(0);
    let b = net.input(1);
    let c = net.input(2);
    let both = net.and(a, b)?;
    let differ = net.xor(both, c)?;
    let _either = net.or(a, c)?;
    assert_eq!(rt; net.gates().len(), 4);
    let mut word = Vec::new(alloc);
    word.push(differ)?;
    word.push(a)?;
    let mut roots = Vec::new(alloc);
    roots.push(word)?;
    let trimmed = trim(alloc, net.inputs(), net.into_gates(), roots.as_slice())?;
    assert_eq!(rt; trimmed.gates.len(), 3, "the constant and two gates");
    assert_eq!(rt; trimmed.roots.len(), 1);
    assert_eq!(rt; trimmed.roots[0].len(), 2);
    Ok(())
}
