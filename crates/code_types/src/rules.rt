ghost use Rattle.std.specs.Prelude.{◌≡◌, option_copied};
ghost use Rattle.type_rules.specs.Refusals.{check, required};
ghost use Rattle.code_types.specs.Views.{ok_now};

use mir_ir::Ty;
use type_rules::TypeKind;

/// Refused where the test is false.
pub fn check(holds: bool, kind: TypeKind) -> Result<(), TypeKind>
    ensures { result ≡ check holds kind }
{
    if holds { Ok(()) } else { Err(kind) }
}

/// Refused where there is no type.
pub fn required<'a>(ty: Option<&'a Ty>, kind: TypeKind) -> Result<&'a Ty, TypeKind>
    ensures { ok_now result ≡ required (option_copied ty.entry) kind }
{
    match ty {
        Some(ty) => Ok(ty),
        None => Err(kind),
    }
}
