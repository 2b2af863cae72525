ghost use Rattle.std.specs.Prelude.{◌≡◌, IfOk};
ghost use Rattle.mir_grammar.specs.Values.{to_copy, to_move, to_const, to_field};

use mir_grammar::{Limited, Placed};
use mir_ir::{Constant, NamedOperand, Operand};
use mir_pieces::Piece;
use std::alloc::Global;
use vk_core::{Name, NoMemory};

#[tactic(auto, unfolding(mir_grammar::specs::Values::to_copy))]
pub fn to_copy(placed: Placed) -> Limited<Operand>
    ensures { result ≡ to_copy placed }
{
    let Placed { place, passed } = placed;
    Limited {
        value: Operand::Copy(place),
        passed,
    }
}

#[tactic(auto, unfolding(mir_grammar::specs::Values::to_move))]
pub fn to_move(placed: Placed) -> Limited<Operand>
    ensures { result ≡ to_move placed }
{
    let Placed { place, passed } = placed;
    Limited {
        value: Operand::Move(place),
        passed,
    }
}

#[tactic(auto, unfolding(mir_grammar::specs::Values::to_const))]
pub fn to_const(constant: Limited<Constant>) -> Limited<Operand>
    ensures { result ≡ to_const constant }
{
    let Limited { value, passed } = constant;
    Limited {
        value: Operand::Const(value),
        passed,
    }
}

/// A field in braces, from its name and its operand.
#[tactic(auto, unfolding(mir_grammar::specs::Values::to_field))]
pub fn to_named_operand(
    alloc: Global,
    word: &Piece<'_>,
    operand: Limited<Operand>,
) -> Result<Limited<NamedOperand>, NoMemory>
    ensures { IfOk result (λ field. field ≡ to_field (word.now, operand)) }
{
    let name = Name::from_bytes(alloc, word.text())?;
    let Limited { value, passed } = operand;
    Ok(Limited {
        value: NamedOperand {
            name,
            operand: value,
        },
        passed,
    })
}
