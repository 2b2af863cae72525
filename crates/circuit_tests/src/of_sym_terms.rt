use crate::constants::constant;
use std::test::Fail;
use sym_terms::{Term, TermOp, Terms};
use word_bits::Word;

#[test]
fn terms_are_shared_and_folded(rt: HostRuntime) -> Result<(), Fail> {
    let mut terms = Terms::new(rt.alloc());
    let x = terms.insert(Term::Input {
        number: 0,
        width: 64,
    })?;
    let two = terms.insert(constant(2))?;
    let same = terms.insert(constant(2))?;
    assert_eq!(rt; two, same);
    assert_eq!(rt; terms.len(), 2);
    assert_eq!(rt; terms.width(x), 64);
    let sum = terms.insert(Term::Apply {
        op: TermOp::Add,
        a: two,
        b: two,
    })?;
    assert_eq!(rt; terms.term(sum), constant(4));
    let none = terms.insert(Term::Apply {
        op: TermOp::Xor,
        a: x,
        b: x,
    })?;
    assert_eq!(rt; terms.term(none), constant(0));
    Ok(())
}

#[test]
fn an_equation_of_sums_is_folded(rt: HostRuntime) -> Result<(), Fail> {
    let mut terms = Terms::new(rt.alloc());
    let x = terms.insert(Term::Input {
        number: 0,
        width: 64,
    })?;
    let three = terms.insert(constant(3))?;
    let product = terms.insert(Term::Apply {
        op: TermOp::Mul,
        a: x,
        b: three,
    })?;
    let twice = terms.insert(Term::Apply {
        op: TermOp::Add,
        a: x,
        b: x,
    })?;
    let thrice = terms.insert(Term::Apply {
        op: TermOp::Add,
        a: twice,
        b: x,
    })?;
    let equation = terms.insert(Term::Apply {
        op: TermOp::Equal,
        a: product,
        b: thrice,
    })?;
    let truth = Term::Constant(Word { width: 1, value: 1 });
    assert_eq!(rt; terms.term(equation), truth);
    Ok(())
}
