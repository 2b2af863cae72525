ghost use Rattle.std.specs.Prelude.{◌≡◌, ◌==◌, Some};
ghost use Rattle.std.specs.List.{list_any};
ghost use Rattle.scalar_form.specs.Typing.{agree, are_arms, are_blocks, are_shown, are_statements, binary_kind, bits_kind, cast_kind, has_kind, has_no_steps, integers_kind, is_any_call, is_assert_call, is_assume_call, is_block, is_builtin_call, is_call, is_constant, is_local, is_next, is_panic_call, is_plain, is_statement, is_switch, is_target, is_terminator, is_text, is_truth, neg_kind, not_kind, operand_kind, order_kind, place_kind, recast_kind, rvalue_kind, shift_kind, switch_width};

use mir_ir::{
    Arm, BinaryOp, Block, CastKind, Constant, Function, IntTy, Operand, PlaceExpr, Rvalue,
    Statement, Terminator,
};
use scalar_runs::{
    Builtin, ValueKind, block_of, builtin_of, is_scalar_value, is_word, kind_of, kind_of_operand,
    local_kind, same_int,
};
use vk_core::BlockId;
use word_bits::Word;

fn is_local(place: &PlaceExpr) -> bool
    ensures { result ≡ is_local place.now }
{
    place.steps.as_slice().is_empty()
}

fn is_constant(constant: &Constant) -> bool
    ensures { result ≡ is_constant constant.now }
{
    match constant {
        Constant::Integer { ty, word } => ValueKind::Int(*ty).has(*word),
        Constant::Bool(_) => true,
        Constant::Char(value) => is_scalar_value(*value as u128),
        Constant::Text(_) | Constant::Unit | Constant::Named(_) => false,
    }
}

fn is_plain(operand: &Operand) -> bool
    ensures { result ≡ is_plain operand.now }
{
    match operand {
        Operand::Copy(place) => is_local(place),
        Operand::Move(place) => is_local(place),
        Operand::Const(constant) => is_constant(constant),
    }
}

fn operand_kind(function: &Function, operand: &Operand) -> Option<ValueKind>
    ensures { result ≡ operand_kind function.now operand.now }
{
    if is_plain(operand) {
        kind_of_operand(function, operand)
    } else {
        None
    }
}

fn integers_kind(a: Option<ValueKind>, b: Option<ValueKind>) -> Option<ValueKind>
    ensures { result ≡ integers_kind a b }
{
    match a {
        Some(ValueKind::Int(first)) => match b {
            Some(ValueKind::Int(second)) if same_int(first, second) => Some(ValueKind::Int(first)),
            _ => None,
        },
        _ => None,
    }
}

fn bits_kind(a: Option<ValueKind>, b: Option<ValueKind>) -> Option<ValueKind>
    ensures { result ≡ bits_kind a b }
{
    match a {
        Some(ValueKind::Int(first)) => match b {
            Some(ValueKind::Int(second)) if same_int(first, second) => Some(ValueKind::Int(first)),
            _ => None,
        },
        Some(ValueKind::Bool) => match b {
            Some(ValueKind::Bool) => Some(ValueKind::Bool),
            _ => None,
        },
        _ => None,
    }
}

fn shift_kind(a: Option<ValueKind>, b: Option<ValueKind>) -> Option<ValueKind>
    ensures { result ≡ shift_kind a b }
{
    match a {
        Some(ValueKind::Int(first)) => match b {
            Some(ValueKind::Int(_)) => Some(ValueKind::Int(first)),
            _ => None,
        },
        _ => None,
    }
}

fn order_kind(a: Option<ValueKind>, b: Option<ValueKind>) -> Option<ValueKind>
    ensures { result ≡ order_kind a b }
{
    match a {
        Some(ValueKind::Int(first)) => match b {
            Some(ValueKind::Int(second)) if same_int(first, second) => Some(ValueKind::Bool),
            _ => None,
        },
        Some(ValueKind::Bool) => match b {
            Some(ValueKind::Bool) => Some(ValueKind::Bool),
            _ => None,
        },
        Some(ValueKind::Char) => match b {
            Some(ValueKind::Char) => Some(ValueKind::Bool),
            _ => None,
        },
        _ => None,
    }
}

fn binary_kind(op: BinaryOp, a: Option<ValueKind>, b: Option<ValueKind>) -> Option<ValueKind>
    ensures { result ≡ binary_kind op a b }
{
    match op {
        BinaryOp::Add | BinaryOp::Sub | BinaryOp::Mul | BinaryOp::Div | BinaryOp::Rem => {
            integers_kind(a, b)
        }
        BinaryOp::BitXor | BinaryOp::BitAnd | BinaryOp::BitOr => bits_kind(a, b),
        BinaryOp::Shl | BinaryOp::Shr => shift_kind(a, b),
        BinaryOp::Eq | BinaryOp::Lt | BinaryOp::Le | BinaryOp::Ne | BinaryOp::Ge | BinaryOp::Gt =>
            order_kind(a, b),
        BinaryOp::Offset
        | BinaryOp::AddWithOverflow
        | BinaryOp::SubWithOverflow
        | BinaryOp::MulWithOverflow => None,
    }
}

fn not_kind(a: Option<ValueKind>) -> Option<ValueKind>
    ensures { result ≡ not_kind a }
{
    match a {
        Some(ValueKind::Int(int)) => Some(ValueKind::Int(int)),
        Some(ValueKind::Bool) => Some(ValueKind::Bool),
        _ => None,
    }
}

fn neg_kind(a: Option<ValueKind>) -> Option<ValueKind>
    ensures { result ≡ neg_kind a }
{
    match a {
        Some(ValueKind::Int(int)) if int.is_signed() => Some(ValueKind::Int(int)),
        _ => None,
    }
}

fn recast_kind(from: Option<ValueKind>, to: Option<ValueKind>) -> Option<ValueKind>
    ensures { result ≡ recast_kind from to }
{
    match from {
        Some(ValueKind::Int(source)) => match to {
            Some(ValueKind::Int(target)) => Some(ValueKind::Int(target)),
            Some(ValueKind::Char) if same_int(source, IntTy::U8) => Some(ValueKind::Char),
            _ => None,
        },
        Some(ValueKind::Bool) => match to {
            Some(ValueKind::Int(target)) => Some(ValueKind::Int(target)),
            _ => None,
        },
        Some(ValueKind::Char) => match to {
            Some(ValueKind::Int(target)) => Some(ValueKind::Int(target)),
            _ => None,
        },
        _ => None,
    }
}

fn cast_kind(cast: CastKind, from: Option<ValueKind>, to: Option<ValueKind>) -> Option<ValueKind>
    ensures { result ≡ cast_kind cast from to }
{
    match cast {
        CastKind::IntToInt => recast_kind(from, to),
        _ => None,
    }
}

fn rvalue_kind(function: &Function, value: &Rvalue) -> Option<ValueKind>
    ensures { result ≡ rvalue_kind function.now value.now }
{
    match value {
        Rvalue::Use(operand) => operand_kind(function, operand),
        Rvalue::Cast { operand, ty, kind } => {
            cast_kind(*kind, operand_kind(function, operand), kind_of(ty))
        }
        Rvalue::Binary { op, a, b } => {
            binary_kind(*op, operand_kind(function, a), operand_kind(function, b))
        }
        Rvalue::Not(operand) => not_kind(operand_kind(function, operand)),
        Rvalue::Neg(operand) => neg_kind(operand_kind(function, operand)),
        _ => None,
    }
}

/// Whether both are there and one kind.
pub fn agree(a: Option<ValueKind>, b: Option<ValueKind>) -> bool
    ensures { result ≡ agree a b }
{
    match a {
        None => false,
        Some(a) => match b {
            None => false,
            Some(b) => a.same(b),
        },
    }
}

fn place_kind(function: &Function, place: &PlaceExpr) -> Option<ValueKind>
    ensures { result ≡ place_kind function.now place.now }
{
    if is_local(place) {
        local_kind(function, place.local)
    } else {
        None
    }
}

fn is_statement(function: &Function, statement: &Statement) -> bool
    ensures { result ≡ is_statement function.now statement.now }
{
    match statement {
        Statement::Assign { place, value } => agree(
            place_kind(function, place),
            rvalue_kind(function, value),
        ),
        _ => false,
    }
}

fn is_target(function: &Function, from: u32, to: BlockId) -> bool
    ensures { result ≡ is_target function.now from to }
{
    from < to.0 && block_of(function, to).is_some()
}

fn is_next(function: &Function, from: u32, to: Option<BlockId>) -> bool
    ensures { result ≡ is_next function.now from to }
{
    match to {
        None => false,
        Some(to) => is_target(function, from, to),
    }
}

fn switch_width(kind: Option<ValueKind>) -> Option<u32>
    ensures { result ≡ switch_width kind }
{
    match kind {
        None => None,
        Some(kind) => {
            if kind.has_bytes() {
                Some(kind.width())
            } else {
                None
            }
        }
    }
}

fn has_number(arms: &[Arm], number: u128) -> bool
    ensures { result ≡ list_any (λ other. other.number == number) arms.now }
{
    arms.iter().any(|other| other.number == number)
}

fn are_arms(function: &Function, from: u32, width: u32, arms: &[Arm]) -> bool
    ensures { result ≡ are_arms function.now from width arms.now }
{
    let mut left = arms;
    while let [arm, rest @ ..] = left {
        let word = Word {
            width,
            value: arm.number,
        };
        if !is_word(word) {
            return false;
        }
        if !is_target(function, from, arm.target) {
            return false;
        }
        if has_number(rest, arm.number) {
            return false;
        }
        left = rest;
    }
    true
}

fn is_switch(
    function: &Function,
    from: u32,
    kind: Option<ValueKind>,
    arms: &[Arm],
    otherwise: BlockId,
) -> bool
    ensures { result ≡ is_switch function.now from (switch_width kind) arms.now otherwise }
{
    match switch_width(kind) {
        None => false,
        Some(width) => {
            are_arms(function, from, width, arms) && is_target(function, from, otherwise)
        }
    }
}

fn is_truth(function: &Function, operand: &Operand) -> bool
    ensures { result ≡ is_truth function.now operand.now }
{
    agree(operand_kind(function, operand), Some(ValueKind::Bool))
}

fn are_shown(function: &Function, operands: &[Operand]) -> bool
    ensures { result ≡ are_shown function.now operands.now }
{
    let mut left = operands;
    while let [operand, rest @ ..] = left {
        if operand_kind(function, operand).is_none() {
            return false;
        }
        left = rest;
    }
    true
}

fn is_text(operand: &Operand) -> bool
    ensures { result ≡ is_text operand.now }
{
    match operand {
        Operand::Const(constant) => match constant {
            Constant::Text(_) => true,
            _ => false,
        },
        _ => false,
    }
}

fn is_any_call(kind: ValueKind, destination: Option<ValueKind>, arguments: &[Operand]) -> bool
    ensures { result ≡ is_any_call kind destination arguments.now }
{
    match arguments {
        [] => kind.has_bytes() && agree(destination, Some(kind)),
        _ => false,
    }
}

fn is_assume_call(
    function: &Function,
    destination: Option<ValueKind>,
    arguments: &[Operand],
) -> bool
    ensures { result ≡ is_assume_call function.now destination arguments.now }
{
    match arguments {
        [condition] => {
            is_truth(function, condition) && agree(destination, Some(ValueKind::Unit))
        }
        _ => false,
    }
}

fn is_assert_call(
    function: &Function,
    destination: Option<ValueKind>,
    arguments: &[Operand],
) -> bool
    ensures { result ≡ is_assert_call function.now destination arguments.now }
{
    match arguments {
        [condition, text] => {
            is_truth(function, condition)
                && is_text(text)
                && agree(destination, Some(ValueKind::Unit))
        }
        _ => false,
    }
}

fn is_panic_call(
    destination: Option<ValueKind>,
    arguments: &[Operand],
    next: Option<BlockId>,
) -> bool
    ensures { result ≡ is_panic_call destination arguments.now next }
{
    match arguments {
        [text] => match next {
            None => is_text(text) && agree(destination, Some(ValueKind::Never)),
            Some(_) => false,
        },
        _ => false,
    }
}

fn is_builtin_call(
    function: &Function,
    from: u32,
    destination: Option<ValueKind>,
    called: Builtin,
    arguments: &[Operand],
    next: Option<BlockId>,
) -> bool
    ensures { result ≡ is_builtin_call function.now from destination called arguments.now next }
{
    match called {
        Builtin::Any(kind) => {
            is_any_call(kind, destination, arguments) && is_next(function, from, next)
        }
        Builtin::Assume => {
            is_assume_call(function, destination, arguments) && is_next(function, from, next)
        }
        Builtin::Assert => {
            is_assert_call(function, destination, arguments) && is_next(function, from, next)
        }
        Builtin::Panic => is_panic_call(destination, arguments, next),
    }
}

fn is_call(
    function: &Function,
    from: u32,
    destination: Option<ValueKind>,
    called: Option<Builtin>,
    arguments: &[Operand],
    next: Option<BlockId>,
) -> bool
    ensures { result ≡ is_call function.now from destination called arguments.now next }
{
    match called {
        None => false,
        Some(called) => is_builtin_call(function, from, destination, called, arguments, next),
    }
}

fn is_terminator(function: &Function, from: u32, last: &Terminator) -> bool
    ensures { result ≡ is_terminator function.now from last.now }
{
    match last {
        Terminator::Goto { target } => is_target(function, from, *target),
        Terminator::Switch {
            operand,
            arms,
            otherwise,
        } => is_switch(
            function,
            from,
            operand_kind(function, operand),
            arms.as_slice(),
            *otherwise,
        ),
        Terminator::Return => true,
        Terminator::Assert {
            operand,
            shown,
            next,
            ..
        } => {
            is_truth(function, operand)
                && are_shown(function, shown.as_slice())
                && is_target(function, from, *next)
        }
        Terminator::Call {
            destination,
            callee,
            arguments,
            next,
        } => is_call(
            function,
            from,
            place_kind(function, destination),
            builtin_of(callee),
            arguments.as_slice(),
            *next,
        ),
        _ => false,
    }
}

fn are_statements(function: &Function, statements: &[Statement]) -> bool
    ensures { result ≡ are_statements function.now statements.now }
{
    let mut left = statements;
    while let [statement, rest @ ..] = left {
        if !is_statement(function, statement) {
            return false;
        }
        left = rest;
    }
    true
}

fn is_block(function: &Function, block: &Block) -> bool
    ensures { result ≡ is_block function.now block.now }
{
    block.statements.len() < 0x1_0000_0000
        && are_statements(function, block.statements.as_slice())
        && is_terminator(function, block.id.0, &block.terminator)
}

/// Whether the statements and terminators of the blocks are of the form.
pub fn are_blocks(function: &Function, blocks: &[Block]) -> bool
    ensures { result ≡ are_blocks function.now blocks.now }
{
    match blocks {
        [] => true,
        [block, rest @ ..] => is_block(function, block) && are_blocks(function, rest),
    }
}
