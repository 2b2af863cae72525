use sat_core::Effort;
use std::alloc::Global;
use std::test::Fail;
use sym_terms::{Term, TermOp, Terms};
use term_queries::{TermAnswer, ask};
use vk_core::NoMemory;
use word_bits::Word;

/// The first number under which a term can be 1, of two terms of one input x of 8 bits: `x * 3 = 21`, and `x * 2 = 7`.
fn solve_product(alloc: Global, factor: u128, product: u128) -> Result<Option<u128>, NoMemory> {
    let mut terms = Terms::new(alloc);
    let mut effort = Effort::new();
    let x = terms.insert(Term::Input {
        number: 0,
        width: 8,
    })?;
    let by = terms.insert(Term::Constant(Word {
        width: 8,
        value: factor % 256,
    }))?;
    let wanted = terms.insert(Term::Constant(Word {
        width: 8,
        value: product % 256,
    }))?;
    let made = terms.insert(Term::Apply {
        op: TermOp::Mul,
        a: x,
        b: by,
    })?;
    let root = terms.insert(Term::Apply {
        op: TermOp::Equal,
        a: made,
        b: wanted,
    })?;
    match ask(alloc, &terms, root, u64::MAX, &mut effort)? {
        TermAnswer::Can(numbers) => Ok(numbers.get(0).copied()),
        TermAnswer::Never => Ok(None),
        TermAnswer::Spent => Ok(None),
    }
}

#[test]
fn products_of_a_byte(rt: HostRuntime) -> Result<(), Fail> {
    assert_eq!(rt; solve_product(rt.alloc(), 3, 21)?, Some(7));
    assert_eq!(rt; solve_product(rt.alloc(), 2, 7)?, None);
    Ok(())
}
