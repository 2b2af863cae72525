ghost use Rattle.std.specs.Prelude.{◌≡◌, ◌∷◌, [], IfOk};
ghost use Rattle.grammar_words.specs.Reading.{made, many};
ghost use Rattle.grammar_words.specs.Classes.{inside};
ghost use Rattle.grammar_words.specs.Coded.{counted};
ghost use Rattle.mir_grammar.specs.Lexemes.{class_of};
ghost use Rattle.mir_grammar.specs.Values.{operand_at};
ghost use Rattle.mir_grammar.specs.Blocks.{to_switch, arm_at, arrow_at};
ghost use Rattle.mir_pieces.specs.Views.{read_view};
ghost use Rattle.value_reader.specs.Levels.{places, types};
ghost use Rattle.line_reader.specs.Parts.{otherwise_at, switch_arms_part, switch_part};

use crate::labels::{Seen, label_at};
use crate::sets::{ARROW, OTHERWISE, SWITCH};
use crate::terminators::EndingAt;
use grammar_words::{Why, stop_before};
use mir_grammar::{Ending, Limited};
use mir_ir::{Arm, Operand, Terminator};
use mir_pieces::{
    CLOSE_BRACKET, CLOSE_PAREN, COMMA, NUMBER, OPEN_BRACKET, OPEN_PAREN, Piece, Read, SEMICOLON,
    starts, token,
};
use sqlite_items::Items;
use std::alloc::Global;
use value_pieces::{COLON, all_passed, same, values_of};
use value_reader::operand_at;
use vk_core::{BlockId, NoMemory};

/// `number : label ,`
#[tactic(auto, unfolding(grammar_words::specs::Reading::made, grammar_words::specs::Reading::chained, grammar_words::specs::Reading::choose, mir_grammar::specs::Blocks::to_arm))]
fn arm_at<'t, 'a>(tokens: &'t [Piece<'a>]) -> Seen<'t, 'a, Limited<Arm>>
    ensures { read_view result ≡ counted (arm_at tokens.now) }
{
    let (number, rest) = token(&NUMBER, tokens)?;
    let (_colon, rest) = token(&COLON, rest)?;
    let (label, rest) = label_at(rest)?;
    let (_comma, rest) = token(&COMMA, rest)?;
    let arm = Limited {
        value: Arm {
            number: number.number_value(),
            target: label.value,
        },
        passed: label.passed,
    };
    Ok((arm, rest))
}

fn arms<'t, 'a>(
    alloc: Global,
    turns: usize,
    tokens: &'t [Piece<'a>],
) -> Read<'t, 'a, Items<Limited<Arm>>>
    ensures { IfOk result (λ read. read_view read ≡ counted (many (inside class_of (35 ∷ [])) arm_at turns tokens.now)) }
{
    let mut found = Vec::new(alloc);
    let mut left = tokens;
    let mut done = 0;
    while starts(&NUMBER, left) {
        if done == turns {
            return Ok(Err(stop_before(Why::Spent, left)));
        }
        let (arm, rest) = read!(arm_at(left));
        found.push(arm)?;
        left = same(rest);
        done += 1;
    }
    Ok(Ok((Items::from_vec(found), left)))
}

/// `otherwise : label ]`
#[tactic(auto, unfolding(grammar_words::specs::Reading::made, grammar_words::specs::Reading::chained, grammar_words::specs::Reading::choose))]
fn otherwise<'t, 'a>(tokens: &'t [Piece<'a>]) -> Seen<'t, 'a, Limited<BlockId>>
    ensures { read_view result ≡ counted (otherwise_at tokens.now) }
{
    let (_otherwise, rest) = token(&OTHERWISE, tokens)?;
    let (_colon, rest) = token(&COLON, rest)?;
    let (label, rest) = label_at(rest)?;
    let (_close, rest) = token(&CLOSE_BRACKET, rest)?;
    Ok((label, rest))
}

/// `[ arms otherwise ]`
#[tactic(auto, unfolding(grammar_words::specs::Reading::made, grammar_words::specs::Reading::chained, grammar_words::specs::Reading::choose, crate::specs::Parts::switch_arms_part))]
fn switch_arms<'t, 'a>(
    alloc: Global,
    turns: usize,
    tokens: &'t [Piece<'a>],
) -> Read<'t, 'a, (Items<Limited<Arm>>, Limited<BlockId>)>
    ensures { IfOk result (λ read. read_view read ≡ counted (switch_arms_part turns tokens.now)) }
{
    let (_open, rest) = read!(token(&OPEN_BRACKET, tokens));
    let (arms, rest) = read!(arms(alloc, turns, rest)?);
    let (otherwise, rest) = read!(otherwise(rest));
    Ok(Ok(((arms, otherwise), rest)))
}

/// `-> [ arms otherwise ] ;`
#[tactic(auto, unfolding(grammar_words::specs::Reading::made, grammar_words::specs::Reading::chained, grammar_words::specs::Reading::choose))]
fn arrow_arms<'t, 'a>(
    alloc: Global,
    turns: usize,
    tokens: &'t [Piece<'a>],
) -> Read<'t, 'a, (Items<Limited<Arm>>, Limited<BlockId>)>
    ensures { IfOk result (λ read. read_view read ≡ counted (arrow_at (switch_arms_part turns) tokens.now)) }
{
    let (_arrow, rest) = read!(token(&ARROW, tokens));
    let (arms, rest) = read!(switch_arms(alloc, turns, rest)?);
    let (_end, rest) = read!(token(&SEMICOLON, rest));
    Ok(Ok((arms, rest)))
}

#[tactic(auto, unfolding(mir_grammar::specs::Blocks::to_switch))]
fn to_switch(
    alloc: Global,
    operand: Limited<Operand>,
    arms: Items<Limited<Arm>>,
    otherwise: Limited<BlockId>,
) -> Result<EndingAt, NoMemory>
    ensures { IfOk result (λ ending. ending ≡ to_switch (operand, (arms, otherwise))) }
{
    let passed = operand
        .passed
        .both(all_passed(arms.as_slice()).both(otherwise.passed));
    let arms = values_of(alloc, arms)?;
    let Limited { value, .. } = operand;
    Ok(Limited {
        value: Ending::Settled(Terminator::Switch {
            operand: value,
            arms,
            otherwise: otherwise.value,
        }),
        passed,
    })
}

/// `switchInt ( operand ) -> [ arms otherwise ] ;`
#[tactic(auto, unfolding(grammar_words::specs::Reading::made, grammar_words::specs::Reading::chained, grammar_words::specs::Reading::choose))]
pub fn switching<'t, 'a>(
    alloc: Global,
    turns: usize,
    depth: u32,
    tokens: &'t [Piece<'a>],
) -> Read<'t, 'a, EndingAt>
    ensures { IfOk result (λ read. read_view read ≡ counted (switch_part (operand_at turns (types turns depth) (places turns depth)) turns tokens.now)) }
{
    let (_switch, rest) = read!(token(&SWITCH, tokens));
    let (_open, rest) = read!(token(&OPEN_PAREN, rest));
    let (operand, rest) = read!(operand_at(alloc, turns, depth, rest)?);
    let (_close, rest) = read!(token(&CLOSE_PAREN, rest));
    let ((arms, otherwise), rest) = read!(arrow_arms(alloc, turns, rest)?);
    let ending = to_switch(alloc, operand, arms, otherwise)?;
    Ok(Ok((ending, rest)))
}
