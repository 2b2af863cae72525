use mir_ir::Declarations;
use mir_program::Program;
use sqlite_items::Items;

#[test]
#[tactic(auto, using(mir_program::proofs::Examples::empty_program))]
fn a_program_keeps_what_it_was_given(rt: HostRuntime) {
    let program = Program::join(
        Items::new(rt.alloc()),
        Declarations {
            types: Items::new(rt.alloc()),
            traits: Items::new(rt.alloc()),
            vtables: Items::new(rt.alloc()),
            constants: Items::new(rt.alloc()),
            aliases: Items::new(rt.alloc()),
            contracts: Items::new(rt.alloc()),
            loops: Items::new(rt.alloc()),
            units: Items::new(rt.alloc()),
        },
    );
    assert_eq!(rt; program.functions().len(), 0);
    assert_eq!(rt; program.declarations().types.len(), 0);
}
