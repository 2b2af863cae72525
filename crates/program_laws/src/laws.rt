ghost use Rattle.std.specs.Prelude.{◌≤◌, length};
ghost use Rattle.program_laws.specs.Laws.{IsReadWellMade};

use mir_text::MAX_TEXT;

/// Does nothing: its contract is a law of what `parse` gives of a text. Its functions are well made, so that a program can be
/// joined of them.
pub fn each_text_is_well_made(text: &[u8])
    requires { length text.now ≤ MAX_TEXT }
    ensures { IsReadWellMade text.now }
{}
