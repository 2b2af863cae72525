ghost use Rattle.std.specs.Prelude.{◌≡◌, ◌≤◌, ◌+◌, length, take};
ghost use Rattle.mir_lex.specs.Places.{text_place, line_behind, column_behind};

use mir_lex::{MAX_TEXT, text_place};
use vk_core::TextPlace;

/// The place behind these bytes of the text, from the one before them.
#[tactic(auto, using(mir_lex::proofs::PlaceSteps::column_new, mir_lex::proofs::PlaceSteps::column_on, mir_lex::proofs::PlaceSteps::line_new, mir_lex::proofs::PlaceSteps::line_on, crate::proofs::Placing::line_bound, crate::proofs::Placing::column_bound), unfolding(mir_lex::specs::Places::text_place))]
fn place_on(text: &[u8], from: usize, place: TextPlace, to: usize) -> TextPlace
    requires text { length text.now ≤ MAX_TEXT }
    requires order { from ≤ to }
    requires within { to ≤ length text.now }
    requires place { place ≡ text_place text.now from }
    ensures { result ≡ text_place text.now to }
{
    let mut line = place.line;
    let mut column = place.column;
    for at in from..to {
        if text[at] == b'\n' {
            line += 1;
            column = 1;
        } else {
            column += 1;
        }
    }
    TextPlace { line, column }
}

/// The place behind `to` bytes of the text, from the one behind `from` bytes.
pub fn place_from(text: &[u8], from: usize, place: TextPlace, to: usize) -> TextPlace
    requires text { length text.now ≤ MAX_TEXT }
    requires place { place ≡ text_place text.now from }
    ensures { result ≡ text_place text.now to }
{
    if from <= to && to <= text.len() {
        place_on(text, from, place, to)
    } else {
        text_place(text, to)
    }
}
