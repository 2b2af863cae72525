use bit_blast::*;
use std::test::Fail;
use sym_terms::{Term, TermOp, Terms};

#[test]
fn gates_of_a_doubled_input(rt: HostRuntime) -> Result<(), Fail> {
    let alloc = rt.alloc();
    let mut terms = Terms::new(alloc);
    let a = terms.insert(Term::Input {
        number: 0,
        width: 8,
    })?;
    let sum = terms.insert(Term::Apply {
        op: TermOp::Add,
        a,
        b: a,
    })?;
    let _product = terms.insert(Term::Apply {
        op: TermOp::Mul,
        a: sum,
        b: sum,
    })?;
    let gates = blast(alloc, &terms, &[sum])?;
    assert_eq!(rt; gates.inputs.len(), 8);
    assert_eq!(rt; gates.roots.len(), 1);
    assert_eq!(rt;
        gates.gates.len(),
        1,
        "the constant: a doubled word has its bits in other places, and nobody reads the product"
    );
    Ok(())
}
