ghost use Rattle.std.specs.Prelude.{◌≡◌};
ghost use Rattle.mir_grammar.specs.Types.{firsts_of};
ghost use Rattle.mir_pieces.specs.Wants.{want_of};

use crate::sets::{COLONS, LESS, TYPE_FIRSTS, TYPE_FIRSTS_BUT_MUT};

/// What is wanted one level deeper: a type; one that does not begin with `mut`; how a path goes on whose first word is
/// `mut`; `<T as P>`.
#[derive(Clone, Copy, Debug)]
pub enum Want {
    AnyType,
    NotMut,
    BehindMut,
    Qualified,
}

/// The tokens that may come first.
pub fn firsts(want: Want) -> &'static [u32]
    ensures { result.now ≡ firsts_of (want_of want) }
{
    match want {
        Want::AnyType => &TYPE_FIRSTS,
        Want::NotMut => &TYPE_FIRSTS_BUT_MUT,
        Want::BehindMut => &COLONS,
        Want::Qualified => &LESS,
    }
}
