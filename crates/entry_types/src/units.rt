ghost use Rattle.std.specs.Prelude.{◌≡◌, option_copied};
ghost use Rattle.type_rules.specs.Entries.{is_harness, unit_fits, unit_function, units_fit};
ghost use Rattle.entry_types.specs.Paths.{entry_path, told};

use crate::drops::is_unit;
use crate::functions::Functions;
use crate::known::functions_known;
use crate::paths::{Entry, EntryKey, EntryTable, KeyPath, ListPath, Misfit, at_path};
use code_types::check;
use mir_ir::{Function, Unit, UnitKind};
use type_rules::TypeKind;

/// A harness takes nothing and gives `()`.
fn is_harness(function: &Function) -> bool
    ensures { result ≡ is_harness function.now }
{
    function.parameters == 0 && is_unit(&function.result)
}

fn unit_function(kind: UnitKind, function: Option<&Function>) -> Result<(), TypeKind>
    ensures { result ≡ unit_function kind (option_copied function.entry) }
{
    match function {
        None => Err(TypeKind::UnknownName),
        Some(function) => match kind {
            UnitKind::Proof => check(is_harness(function), TypeKind::BadCall),
            UnitKind::Contract => Ok(()),
        },
    }
}

fn unit_fits(functions: &Functions<'_>, entry: Entry, unit: &Unit) -> Result<(), Misfit>
    ensures { told result ≡ unit_fits functions.now (entry_path entry) unit.now }
{
    let function = functions.find(unit.name.as_bytes());
    let fits = unit_function(unit.kind, function);
    at_path(fits, KeyPath::Key(entry, EntryKey::Function))?;
    functions_known(
        functions,
        ListPath::AtKey(entry, EntryKey::Stubs),
        unit.stubs.as_slice(),
    )?;
    Ok(())
}

/// The units, one after the other.
pub fn units_fit(functions: &Functions<'_>, units: &[Unit]) -> Result<(), Misfit>
    ensures { told result ≡ units_fit functions.now 0 units.now }
{
    let mut at = 0;
    while at < units.len() {
        let unit = &units[at];
        let entry = Entry {
            table: EntryTable::Unit,
            at,
        };
        unit_fits(functions, entry, unit)?;
        at += 1;
    }
    Ok(())
}
