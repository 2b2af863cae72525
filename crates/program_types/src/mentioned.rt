ghost use Rattle.std.specs.Prelude.{◌≡◌, IfOk};
ghost use Rattle.program_types.specs.Mentioned.{types_written};

use crate::code_types::push_functions;
use crate::declared_types::push_declarations;
use crate::written::Written;
use mir_ir::{Declarations, Function};
use std::alloc::Global;
use vk_core::NoMemory;

/// The types that declarations and functions name, in their order, a part before the whole.
#[tactic(auto, unfolding(crate::specs::Mentioned::types_written))]
pub fn types_written<'a>(
    alloc: Global,
    functions: &'a [Function],
    declarations: &'a Declarations,
) -> Result<Written<'a>, NoMemory>
    ensures { IfOk result (λ types. types ≡ types_written (record { functions = functions.now; declarations = declarations.now })) }
{
    let mut out = Written::new(alloc);
    push_declarations(&mut out, declarations)?;
    push_functions(&mut out, functions)?;
    Ok(out)
}
