ghost use Rattle.std.specs.Prelude.{◌≡◌, IfOk};
ghost use Rattle.type_rules.specs.Code.{refused_at, site};

use type_rules::{Refusal, TypeKind};
use vk_core::{At, BlockId, FnId, NoMemory, Site};

/// A place as it stands in a site. No memory holds more than 2^32 functions or statements.
fn number_of(place: usize) -> Result<u32, NoMemory>
    ensures { IfOk result (λ number. number ≡ place) }
{
    match u32::try_from(place) {
        Ok(number) => Ok(number),
        Err(_too_many) => Err(NoMemory),
    }
}

fn site_of(function: usize, block: BlockId, index: usize) -> Result<At, NoMemory>
    ensures { IfOk result (λ at. at ≡ site function block index) }
{
    let function = FnId(number_of(function)?);
    let index = number_of(index)?;
    Ok(At::Code(Site {
        function,
        block,
        index,
    }))
}

/// A refusal at the statement or terminator with this index in the block.
pub fn refused_at(
    function: usize,
    block: BlockId,
    index: usize,
    fits: Result<(), TypeKind>,
) -> Result<Result<(), Refusal>, NoMemory>
    ensures { IfOk result (λ refused. refused ≡ refused_at (site function block index) fits) }
{
    match fits {
        Ok(()) => Ok(Ok(())),
        Err(kind) => {
            let at = site_of(function, block, index)?;
            Ok(Err(Refusal { kind, at }))
        }
    }
}
