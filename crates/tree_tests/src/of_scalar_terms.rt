use mir_ir::{
    BinaryOp, Block, Callee, Constant, Function, IntTy, Local, Operand, PlaceExpr, Rvalue,
    Statement, Steps, Terminator, Ty,
};
use scalar_form::is_scalar;
use scalar_terms::{faults_of, replay};
use sqlite_items::Items;
use std::alloc::Global;
use std::test::Fail;
use vk_core::{BlockId, LocalId, Name, NoMemory, TextPlace};
use word_bits::Word;

/// `_1`
fn number(alloc: Global) -> PlaceExpr {
    PlaceExpr {
        local: LocalId(1),
        steps: Steps::new(alloc),
    }
}

/// `const 1_u8`
fn one() -> Operand {
    Operand::Const(Constant::Integer {
        ty: IntTy::U8,
        word: Word { width: 8, value: 1 },
    })
}

/// `_1 = Add(copy _1, const 1_u8);`
fn addition(alloc: Global) -> Statement {
    Statement::Assign {
        place: number(alloc),
        value: Rvalue::Binary {
            op: BinaryOp::Add,
            a: Operand::Copy(number(alloc)),
            b: one(),
        },
    }
}

/// `_1 = Div(const 1_u8, copy _1);`
fn division(alloc: Global) -> Statement {
    Statement::Assign {
        place: number(alloc),
        value: Rvalue::Binary {
            op: BinaryOp::Div,
            a: one(),
            b: Operand::Copy(number(alloc)),
        },
    }
}

/// So many additions, and a division.
fn statements(alloc: Global, additions: u32) -> Result<Items<Statement>, NoMemory> {
    let mut statements = Items::new(alloc);
    for _ in 0..additions {
        statements.push(addition(alloc))?;
    }
    statements.push(division(alloc))?;
    Ok(statements)
}

/// `_1 = kani::any::<u8>() -> bb1;`
fn choice(alloc: Global) -> Result<Terminator, NoMemory> {
    let path = Name::from_bytes(alloc, b"kani::any<u8>")?;
    Ok(Terminator::Call {
        destination: number(alloc),
        callee: Callee {
            path,
            argument: Some(Ty::Int(IntTy::U8)),
        },
        arguments: Items::new(alloc),
        next: Some(BlockId(1)),
    })
}

/// `bb0: { _1 = kani::any::<u8>() -> bb1; } bb1: { ..; return; }` with so many additions and a division.
fn blocks(alloc: Global, additions: u32) -> Result<Items<Block>, NoMemory> {
    let terminator = choice(alloc)?;
    let statements = statements(alloc, additions)?;
    let mut blocks = Items::new(alloc);
    blocks.push(Block {
        id: BlockId(0),
        statements: Items::new(alloc),
        terminator,
    })?;
    blocks.push(Block {
        id: BlockId(1),
        statements,
        terminator: Terminator::Return,
    })?;
    Ok(blocks)
}

/// `let _1: u8;`
fn locals(alloc: Global) -> Result<Items<Local>, NoMemory> {
    let mut locals = Items::new(alloc);
    locals.push(Local {
        id: LocalId(1),
        ty: Ty::Int(IntTy::U8),
    })?;
    Ok(locals)
}

/// A function of these blocks.
pub fn quotient(alloc: Global, additions: u32) -> Result<Function, NoMemory> {
    let name = Name::from_bytes(alloc, b"check")?;
    let locals = locals(alloc)?;
    let blocks = blocks(alloc, additions)?;
    Ok(Function {
        name,
        place: TextPlace { line: 1, column: 4 },
        parameters: 0,
        result: Ty::Tuple(Items::new(alloc)),
        locals,
        blocks,
    })
}

/// How many faults the function can end in; None where it is not of the form.
fn count_faults(alloc: Global, additions: u32) -> Result<Option<usize>, NoMemory> {
    let function = quotient(alloc, additions)?;
    if is_scalar(&function) {
        let found = faults_of(alloc, &function)?;
        Ok(Some(found.failures.len()))
    } else {
        Ok(None)
    }
}

/// Where the run with this choice ends in a fault, and in which step.
fn fault_with(alloc: Global, additions: u32, number: u128) -> Result<Option<(u32, u64)>, NoMemory> {
    let function = quotient(alloc, additions)?;
    if is_scalar(&function) {
        match replay(alloc, &function, &[number])? {
            None => Ok(None),
            Some(found) => Ok(Some((found.breach.index, found.steps))),
        }
    } else {
        Ok(None)
    }
}

#[test]
fn a_quotient_faults_at_the_divisor_0_alone(rt: HostRuntime) -> Result<(), Fail> {
    let alloc = rt.alloc();
    assert_eq!(rt; count_faults(alloc, 0)?, Some(1));
    assert_eq!(rt; fault_with(alloc, 0, 0)?, Some((0, 2)));
    assert_eq!(rt; fault_with(alloc, 0, 7)?, None);
    Ok(())
}

#[test]
fn a_block_of_40000_statements(rt: HostRuntime) -> Result<(), Fail> {
    let alloc = rt.alloc();
    assert_eq!(rt; count_faults(alloc, 40_000)?, Some(1));
    assert_eq!(rt; fault_with(alloc, 40_000, 192)?, Some((40_000, 40_002)));
    Ok(())
}
