use mir_ir::BinaryOp;
use std::test::Fail;
use sym_terms::{Term, Terms};
use value_terms::*;
use word_bits::Word;

#[test]
fn quotients_of_constants(rt: HostRuntime) -> Result<(), Fail> {
    let mut terms = Terms::new(rt.alloc());
    let a = known(
        &mut terms,
        Word {
            width: 8,
            value: 249,
        },
    )?;
    let b = known(&mut terms, Word { width: 8, value: 2 })?;
    let quotient = operator_terms(&mut terms, BinaryOp::Div, true, a.word, b.word)?;
    assert_eq!(rt;
        terms.term(quotient.word),
        Term::Constant(Word {
            width: 8,
            value: 253
        }),
        "-7 / 2 is -3"
    );
    Ok(())
}
