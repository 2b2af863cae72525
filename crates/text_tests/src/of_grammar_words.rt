use grammar_words::{Stop, Why, expect_end, stop_before};

#[test]
fn nothing_may_stand_behind_the_whole(rt: HostRuntime) {
    let tokens = [b'a', b'b'];
    let stop = Stop {
        why: Why::Wrong,
        left: 2,
    };
    assert_eq!(rt; expect_end(&tokens), Err(stop));
    assert_eq!(rt; expect_end(&tokens[2..]), Ok(()));
    assert_eq!(rt; stop_before(Why::Wrong, &tokens), stop);
}
