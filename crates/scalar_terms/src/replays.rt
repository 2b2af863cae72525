ghost use Rattle.std.specs.Prelude.{◌≡◌, ◌≤◌, ◌<◌, ◌^◌, ℕ, IfOk, get_or, true};
ghost use Rattle.word_bits.specs.Words.{word};
ghost use Rattle.scalar_runs.specs.Engine.{configuration};
ghost use Rattle.scalar_form.specs.Form.{is_scalar};
ghost use Rattle.scalar_runs.specs.Kinds.{width_of_kind};
ghost use Rattle.scalar_runs.specs.Run.{breach_at};
ghost use Rattle.scalar_terms.specs.Replays.{IsMadeChoice, IsReplay};

use mir_ir::Function;
use scalar_runs::{Breach, Choice, State, Step, ValueKind, begin, store, take_step};
use std::alloc::Global;
use vk_core::{BlockId, CheckClass, LocalId, NoMemory};
use word_bits::Word;

/// A run that ends in a fault: its choices, and how many steps it makes, the one that faults among them.
#[derive(Drop)]
pub struct FaultRun {
    pub breach: Breach,
    pub choices: Vec<Choice>,
    pub steps: u64,
}

/// The input with the block's number, 0 where there is none.
fn input_of(inputs: &[u128], block: BlockId) -> u128
    ensures { result ≡ get_or inputs.now block.0 0 }
{
    match inputs.get(block.0 as usize) {
        Some(number) => *number,
        None => 0,
    }
}

/// The input with the block's number, cut to the width of the kind.
fn chosen_word(inputs: &[u128], block: BlockId, kind: ValueKind) -> Word
    ensures { result ≡ word (width_of_kind kind) (get_or inputs.now block.0 0) }
{
    let all = Word {
        width: 128,
        value: input_of(inputs, block),
    };
    word_bits::cast(all, false, kind.width())
}

/// The fault of this class where the run stands.
fn breach_at(state: &State, class: CheckClass) -> Breach
    requires { state.now.index < 2 ^ 32 }
    ensures { result ≡ breach_at (configuration state.now) class }
{
    Breach {
        block: state.block,
        index: state.index as u32,
        class,
    }
}

/// Makes the choice that the inputs say, unless that is no value of the kind.
fn choose(
    inputs: &[u128],
    state: &mut State,
    choices: &mut Vec<Choice>,
    kind: ValueKind,
    destination: LocalId,
    next: BlockId,
) -> Result<bool, NoMemory>
    ensures { IfOk result (λ made. IsMadeChoice (λ n. get_or inputs.now n 0) (configuration state.old) (configuration state.new) choices.old.items choices.new.items kind destination.0 next.0 made) }
{
    let word = chosen_word(inputs, state.block, kind);
    if kind.has(word) {
        choices.push(Choice { kind, word })?;
        store(&mut state.values, destination, word);
        state.block = next;
        state.index = 0;
        Ok(true)
    } else {
        Ok(false)
    }
}

/// The run that takes its choices from the inputs, up to its fault; None where it ends in none. The choice in a block is the
/// input with the block's number, cut to the width of what is chosen, and 0 for a number beyond the inputs.
pub fn replay(
    alloc: Global,
    function: &Function,
    inputs: &[u128],
) -> Result<Option<FaultRun>, NoMemory>
    requires { is_scalar function.now ≡ true }
    ensures { IfOk result (λ found. IsReplay function.now (λ n. get_or inputs.now n 0) found) }
{
    let mut state = begin(alloc, function)?;
    let mut choices = Vec::new(alloc);
    for made in 0..50_000 {
        match take_step(function, &mut state) {
            Step::Went => {}
            Step::Ended => return Ok(None),
            Step::Cut => return Ok(None),
            Step::Stuck => return Ok(None),
            Step::Faulted(class) => {
                return Ok(Some(FaultRun {
                    breach: breach_at(&state, class),
                    choices,
                    steps: made + 1,
                }));
            }
            Step::Chooses {
                kind,
                destination,
                next,
            } => {
                let is_made = choose(inputs, &mut state, &mut choices, kind, destination, next)?;
                if !is_made {
                    return Ok(None);
                }
            }
        }
    }
    unreachable!()
}
