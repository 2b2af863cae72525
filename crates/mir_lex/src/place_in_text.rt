ghost use Rattle.std.specs.Prelude.{◌≡◌, ◌≤◌, length};
ghost use Rattle.mir_lex.specs.Places.{text_place};

use crate::lexer::MAX_TEXT;
use vk_core::TextPlace;

/// The line and the column of the byte behind `offset` bytes of the text, at its end where it has fewer.
#[tactic(auto, using(crate::proofs::PlaceSteps::column_new, crate::proofs::PlaceSteps::column_on, crate::proofs::PlaceSteps::line_new, crate::proofs::PlaceSteps::line_on), unfolding(crate::specs::Places::text_place))]
pub fn text_place(text: &[u8], offset: usize) -> TextPlace
    requires { length text.now ≤ MAX_TEXT }
    ensures { result ≡ text_place text.now offset }
{
    let before = if offset <= text.len() {
        &text[..offset]
    } else {
        text
    };
    let mut line = 1;
    let mut column = 1;
    for byte in before {
        if *byte == b'\n' {
            line += 1;
            column = 1;
        } else {
            column += 1;
        }
    }
    TextPlace { line, column }
}
