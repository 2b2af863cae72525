ghost use Rattle.std.specs.Prelude.{◌≡◌, ◌<◌, OnOk, length};
ghost use Rattle.sym_terms.specs.Terms.{width_of};
ghost use Rattle.value_terms.specs.Made.{IsBit};
ghost use Rattle.value_terms.specs.Slots.{AreSlots};
ghost use Rattle.scalar_terms.specs.Joins.{AreWays};
ghost use Rattle.scalar_terms.specs.Switches.{AreArms, IsSwitched};

use crate::join::join;
use crate::ways::Way;
use mir_ir::{Arm, Function};
use std::alloc::Global;
use sym_terms::{TermId, Terms};
use value_terms::{Slot, both, but_not, equals};
use vk_core::{BlockId, NoMemory};
use word_bits::Word;

/// Goes on at the target of the first arm whose number the word is, else at the other block, where `left` is 1.
pub fn switch_arms(
    alloc: Global,
    terms: &mut Terms,
    function: &Function,
    ways: &mut [Option<Way>],
    word: TermId,
    width: u32,
    left: TermId,
    slots: &[Slot],
    arms: &[Arm],
    otherwise: BlockId,
) -> Result<(), NoMemory>
    requires inside { otherwise.0 < length ways.old }
    requires arms { AreArms (length ways.old) width arms.now }
    requires word { word.0 < length terms.old }
    requires width { width_of terms.old word.0 ≡ width }
    requires left { IsBit terms.old left.0 }
    requires slots { AreSlots function.now terms.old slots.now }
    requires ways { AreWays function.now terms.old ways.old }
    ensures { OnOk result (IsSwitched function.now terms.old terms.new ways.old ways.new word.0 left.0 slots.now arms.now otherwise) }
{
    let mut unmatched = left;
    let mut ahead = arms;
    while let [arm, rest @ ..] = ahead {
        let number = Word {
            width,
            value: arm.number,
        };
        let is_equal = equals(terms, word, number)?;
        let hit = both(terms, unmatched, is_equal)?;
        let others = but_not(terms, unmatched, is_equal)?;
        join(alloc, terms, function, ways, arm.target, hit, slots)?;
        unmatched = others;
        ahead = rest;
    }
    join(alloc, terms, function, ways, otherwise, unmatched, slots)?;
    Ok(())
}
