ghost use Rattle.mir_text.specs.Answers.{HasOneMeaning};

/// Does nothing: its contract is a law of every text, which means at most one list of functions, and none where it is
/// refused.
pub fn one_meaning(text: &[u8])
    ensures { HasOneMeaning text.now }
{}
