ghost use Rattle.std.specs.Prelude.{◌≡◌, IfOk};
ghost use Rattle.canonical_text.specs.Functions.{functions_text};
ghost use Rattle.mir_print.specs.Again.{ReadsAgain};

use canonical_text::functions_text;
use mir_ir::Function;
use std::alloc::Global;
use vk_core::NoMemory;

/// The canonical text of functions. A function has its parameters among its locals. Where some text means these functions,
/// what is printed means them again, each but for its place in the text, as long as it is within the limits of texts.
#[tactic(auto, using(crate::proofs::Meanings::canonical_reads_again))]
pub fn print(alloc: Global, functions: &[Function]) -> Result<Vec<u8>, NoMemory>
    ensures exact { IfOk result (λ bytes. bytes.items ≡ functions_text functions.now) }
    ensures again { IfOk result (λ bytes. ReadsAgain functions.now bytes.items) }
{
    let bytes = functions_text(alloc, functions)?;
    Ok(bytes)
}
