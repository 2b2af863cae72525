ghost use Rattle.mir_lex.specs.Agreement.{HasOneLexing};

/// Does nothing: its contract is a law of the tokens of every text.
pub fn one_lexing(text: &[u8])
    ensures { HasOneLexing text.now }
{}
