ghost use Rattle.std.specs.Prelude.{◌≡◌};
ghost use Rattle.type_rules.specs.Code.{label_fits, next_fits};
ghost use Rattle.function_types.specs.Steps.{then_label};

use code_types::check;
use name_tables::Body;
use type_rules::TypeKind;
use vk_core::BlockId;

/// A block with this label exists.
pub fn label_fits(body: &Body<'_>, label: BlockId) -> Result<(), TypeKind>
    ensures { result ≡ label_fits body.now label }
{
    check(body.block_at(label).is_some(), TypeKind::UnknownName)?;
    Ok(())
}

/// The block behind a call, where it has one.
pub fn next_fits(body: &Body<'_>, next: Option<BlockId>) -> Result<(), TypeKind>
    ensures { result ≡ next_fits body.now next }
{
    match next {
        None => Ok(()),
        Some(label) => label_fits(body, label),
    }
}

/// A label behind what was tested first.
pub fn then_label(
    fits: Result<(), TypeKind>,
    body: &Body<'_>,
    label: BlockId,
) -> Result<(), TypeKind>
    ensures { result ≡ then_label body.now fits label }
{
    fits?;
    label_fits(body, label)?;
    Ok(())
}
