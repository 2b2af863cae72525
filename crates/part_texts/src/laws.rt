ghost use Rattle.std.specs.Prelude.{◌≤◌, length};
ghost use Rattle.part_texts.specs.Laws.{IsReadAsWritten};

use mir_text::MAX_TEXT;

/// Does nothing: its contract is a law of every text, which is read as a type, a path or a place exactly where it is one by
/// the grammar.
pub fn texts_are_read(text: &[u8])
    requires { length text.now ≤ MAX_TEXT }
    ensures { IsReadAsWritten text.now }
{}
