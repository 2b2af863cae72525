use mir_ir::{Block, Function, Local, Terminator, Ty};
use scalar_checks::checks_of;
use scalar_form::*;
use scalar_runs::*;
use sqlite_items::Items;
use std::alloc::Global;
use std::test::Fail;
use vk_core::{BlockId, LocalId, Name, NoMemory, TextPlace};

/// `fn check() -> () { bb0: { return; } }`
pub fn returning(alloc: Global) -> Result<Function, NoMemory> {
    let mut locals = Items::new(alloc);
    locals.push(Local {
        id: LocalId(0),
        ty: Ty::Tuple(Items::new(alloc)),
    })?;
    let mut blocks = Items::new(alloc);
    blocks.push(Block {
        id: BlockId(0),
        statements: Items::new(alloc),
        terminator: Terminator::Return,
    })?;
    Ok(Function {
        name: Name::from_bytes(alloc, b"check")?,
        place: TextPlace { line: 1, column: 4 },
        parameters: 0,
        result: Ty::Tuple(Items::new(alloc)),
        locals,
        blocks,
    })
}

#[test]
fn a_return_is_of_the_form_and_has_three_checks(rt: HostRuntime) -> Result<(), Fail> {
    let alloc = rt.alloc();
    let function = returning(alloc)?;
    assert!(rt; is_scalar(&function));
    let checks = checks_of(alloc, &function)?;
    assert_eq!(rt; checks.len(), 3);
    let mut state = State {
        block: BlockId(0),
        index: 0,
        values: Vec::new(alloc),
    };
    assert_eq!(rt; take_step(&function, &mut state), Step::Ended);
    Ok(())
}
