ghost use Rattle.std.specs.Prelude.{◌≡◌, IfOk};
ghost use Rattle.type_rules.specs.Entries.{declarations_fit};
ghost use Rattle.entry_types.specs.Paths.{told};

use crate::functions::Functions;
use crate::paths::{Misfit, refusal};
use crate::rules::{aliases_fit, contracts_fit, loops_fit};
use crate::types::types_fit;
use crate::units::units_fit;
use crate::vtables::vtables_fit;
use name_tables::Declared;
use std::alloc::Global;
use type_rules::Refusal;
use vk_core::NoMemory;

fn first_misfit<'a>(functions: &Functions<'a>, declared: &Declared<'a>) -> Result<(), Misfit>
    ensures { told result ≡ declarations_fit functions.now declared.now }
{
    let all = declared.declarations();
    types_fit(functions, declared, all.types.as_slice())?;
    vtables_fit(functions, declared, all.vtables.as_slice())?;
    aliases_fit(functions, all.aliases.as_slice())?;
    contracts_fit(functions, declared, all.contracts.as_slice())?;
    loops_fit(functions, declared, all.loops.as_slice())?;
    units_fit(functions, all.units.as_slice())?;
    Ok(())
}

/// Whether the entries of the declarations fit the functions and one another: Ok, or the first refusal, with the path of the key or
/// list element that is at fault. Memory is taken for that path alone.
pub fn declarations_fit<'a>(
    alloc: Global,
    functions: &Functions<'a>,
    declared: &Declared<'a>,
) -> Result<Result<(), Refusal>, NoMemory>
    ensures { IfOk result (λ fits. fits ≡ declarations_fit functions.now declared.now) }
{
    match first_misfit(functions, declared) {
        Ok(()) => Ok(Ok(())),
        Err(misfit) => Ok(Err(refusal(alloc, misfit)?)),
    }
}
