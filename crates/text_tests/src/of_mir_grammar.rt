use mir_grammar::Passed;

#[test]
fn limits_add_up(rt: HostRuntime) {
    assert_eq!(rt; Passed::of_local(4095), Passed::none());
    let far = Passed::of_local(4096).both(Passed::of_block(4096));
    assert_eq!(rt;
        far,
        Passed {
            locals: true,
            blocks: true,
            names: false
        }
    );
    assert_eq!(rt; Passed::none().both(Passed::of_name(true)).names, true);
}
