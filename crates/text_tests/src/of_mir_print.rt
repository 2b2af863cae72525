use mir_ir::{Block, Function, IntTy, Local, Terminator, Ty};
use mir_print::print;
use sqlite_items::Items;
use std::test::Fail;
use vk_core::{BlockId, LocalId, Name, TextPlace};

#[test]
fn a_function_of_one_block(rt: HostRuntime) -> Result<(), Fail> {
    let alloc = rt.alloc();
    let mut locals = Items::new(alloc);
    locals.push(Local {
        id: LocalId(1),
        ty: Ty::Int(IntTy::U8),
    })?;
    locals.push(Local {
        id: LocalId(0),
        ty: Ty::Tuple(Items::new(alloc)),
    })?;
    let mut blocks = Items::new(alloc);
    blocks.push(Block {
        id: BlockId(0),
        statements: Items::new(alloc),
        terminator: Terminator::Return,
    })?;
    let mut functions = Items::new(alloc);
    functions.push(Function {
        name: Name::from_bytes(alloc, b"f")?,
        place: TextPlace { line: 1, column: 4 },
        parameters: 1,
        result: Ty::Tuple(Items::new(alloc)),
        locals,
        blocks,
    })?;
    let text = print(alloc, functions.as_slice())?;
    assert_eq!(rt;
        text.as_slice(),
        b"fn f(_1: u8) -> () {\n    let mut _0: ();\n\n    bb0: {\n        return;\n    }\n}\n".as_slice()
    );
    Ok(())
}
