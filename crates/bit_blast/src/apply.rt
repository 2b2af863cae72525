ghost use Rattle.std.specs.Prelude.{◌≡◌, ◌≤◌, ◌<◌, ◌*◌, ℕ, Bool, true, false, IfOk, IsTrue, length};
ghost use Rattle.sym_terms.specs.Ops.{is_binary, is_shift};
ghost use Rattle.sym_terms.specs.Terms.{applied, is_shift_width};
ghost use Rattle.bit_gates.specs.Made.{AreIn};
ghost use Rattle.bit_blast.specs.Blasted.{word_at, IsMadeWord};

use crate::arithmetic::{
    add_words, and_words, complement_word, multiply_words, negate_word, or_words, subtract_words,
    xor_words,
};
use crate::division::{
    lawful_signed_word, lawful_unsigned_word, quotient_signed, quotient_unsigned, remainder_signed,
    remainder_unsigned,
};
use crate::moves::{shift_left, shift_right_signed, shift_right_unsigned};
use crate::overflow::{
    difference_over_signed, product_over_signed, product_over_unsigned, sum_over_signed,
};
use crate::tests_of_words::{
    difference_over_unsigned, equal_words, less_signed, less_unsigned, sum_over_unsigned,
};
use bit_gates::Net;
use std::alloc::Global;
use sym_terms::TermOp;
use vk_core::NoMemory;

/// Whether the operation looks at its second operand.
pub fn takes_two(op: TermOp) -> bool
    ensures { result ≡ is_binary op }
{
    match op {
        TermOp::Not => false,
        TermOp::Neg => false,
        TermOp::Equal => true,
        TermOp::Add => true,
        TermOp::Sub => true,
        TermOp::Mul => true,
        TermOp::And => true,
        TermOp::Or => true,
        TermOp::Xor => true,
        TermOp::Shl => true,
        TermOp::DivUnsigned => true,
        TermOp::DivSigned => true,
        TermOp::RemUnsigned => true,
        TermOp::RemSigned => true,
        TermOp::ShrUnsigned => true,
        TermOp::ShrSigned => true,
        TermOp::LessUnsigned => true,
        TermOp::LessSigned => true,
        TermOp::AddOverflowsUnsigned => true,
        TermOp::AddOverflowsSigned => true,
        TermOp::SubOverflowsUnsigned => true,
        TermOp::SubOverflowsSigned => true,
        TermOp::MulOverflowsUnsigned => true,
        TermOp::MulOverflowsSigned => true,
        TermOp::LawfulUnsigned => true,
        TermOp::LawfulSigned => true,
    }
}

/// The operation on two words that fit it.
pub fn apply(
    alloc: Global,
    net: &mut Net,
    op: TermOp,
    xs: &[u64],
    ys: &[u64],
) -> Result<Vec<u64>, NoMemory>
    requires some_bits { 1 ≤ length xs.now }
    requires few_bits { length xs.now ≤ 128 }
    requires power { IsTrue (is_shift op) → IsTrue (is_shift_width (length xs.now)) }
    requires one_width { is_shift op ≡ false → length ys.now ≡ length xs.now }
    requires xs_inside { AreIn net.old xs.now }
    requires ys_inside { AreIn net.old ys.now }
    ensures { IfOk result (λ word. IsMadeWord net.old net.new word.items (λ v. applied op (word_at v xs.now) (word_at v ys.now))) }
{
    match op {
        TermOp::Equal => Ok(equal_words(alloc, net, xs, ys)?),
        TermOp::Add => Ok(add_words(alloc, net, xs, ys)?),
        TermOp::Sub => Ok(subtract_words(alloc, net, xs, ys)?),
        TermOp::Mul => Ok(multiply_words(alloc, net, xs, ys)?),
        TermOp::And => Ok(and_words(alloc, net, xs, ys)?),
        TermOp::Or => Ok(or_words(alloc, net, xs, ys)?),
        TermOp::Xor => Ok(xor_words(alloc, net, xs, ys)?),
        TermOp::Not => Ok(complement_word(alloc, net, xs)?),
        TermOp::Neg => Ok(negate_word(alloc, net, xs)?),
        TermOp::Shl => Ok(shift_left(alloc, net, xs, ys)?),
        TermOp::DivUnsigned => Ok(quotient_unsigned(alloc, net, xs, ys)?),
        TermOp::DivSigned => Ok(quotient_signed(alloc, net, xs, ys)?),
        TermOp::RemUnsigned => Ok(remainder_unsigned(alloc, net, xs, ys)?),
        TermOp::RemSigned => Ok(remainder_signed(alloc, net, xs, ys)?),
        TermOp::ShrUnsigned => Ok(shift_right_unsigned(alloc, net, xs, ys)?),
        TermOp::ShrSigned => Ok(shift_right_signed(alloc, net, xs, ys)?),
        TermOp::LessUnsigned => Ok(less_unsigned(alloc, net, xs, ys)?),
        TermOp::LessSigned => Ok(less_signed(alloc, net, xs, ys)?),
        TermOp::AddOverflowsUnsigned => Ok(sum_over_unsigned(alloc, net, xs, ys)?),
        TermOp::AddOverflowsSigned => Ok(sum_over_signed(alloc, net, xs, ys)?),
        TermOp::SubOverflowsUnsigned => Ok(difference_over_unsigned(alloc, net, xs, ys)?),
        TermOp::SubOverflowsSigned => Ok(difference_over_signed(alloc, net, xs, ys)?),
        TermOp::MulOverflowsUnsigned => Ok(product_over_unsigned(alloc, net, xs, ys)?),
        TermOp::MulOverflowsSigned => Ok(product_over_signed(alloc, net, xs, ys)?),
        TermOp::LawfulUnsigned => Ok(lawful_unsigned_word(alloc, net, xs, ys)?),
        TermOp::LawfulSigned => Ok(lawful_signed_word(alloc, net, xs, ys)?),
    }
}
