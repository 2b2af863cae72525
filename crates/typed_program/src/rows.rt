ghost use Rattle.std.specs.Prelude.{◌≡◌, IfOk, map};
ghost use Rattle.typed_program.specs.Rows.{row_of, sized_layout};

use crate::places::{places_of, tags_of};
use canonical_text::type_text;
use mir_ir::Ty;
use sqlite_items::Items;
use std::alloc::Global;
use type_layouts::{Extent, Form, Scope, alignment, extent_of};
use vk_core::NoMemory;
use word_bits::Word;

/// How many bytes a value of a type takes, and of what its address is a multiple.
#[derive(Clone, Copy, Debug, PartialEq, Eq)]
pub struct Layout {
    pub size: u64,
    pub align: u64,
}

/// What is kept of a type. A struct and a tuple have one list of places, an enum one for each variant.
#[derive(Debug, Drop)]
pub struct TypeRow {
    pub layout: Option<Layout>,
    pub places: Items<Items<u64>>,
    pub tags: Items<Option<Word>>,
}

fn sized_layout(extent: &Extent) -> Option<Layout>
    ensures { result ≡ sized_layout extent.now }
{
    match extent.form {
        Form::Sized => Some(Layout {
            size: extent.size,
            align: alignment(extent.align),
        }),
        Form::Slice | Form::Dyn => None,
    }
}

fn row_of(alloc: Global, scope: &Scope<'_>, ty: &Ty) -> Result<TypeRow, NoMemory>
    ensures { IfOk result (λ row. row ≡ row_of scope.now ty.now) }
{
    let extent = extent_of(alloc, scope, ty)?;
    let text = type_text(alloc, ty)?;
    let places = places_of(alloc, scope, &text, ty)?;
    let tags = tags_of(alloc, scope, &text, ty)?;
    Ok(TypeRow {
        layout: sized_layout(&extent),
        places,
        tags,
    })
}

/// What is kept of each of the types.
pub fn rows_of(alloc: Global, scope: &Scope<'_>, types: &[Ty]) -> Result<Vec<TypeRow>, NoMemory>
    ensures { IfOk result (λ rows. rows.items ≡ map (row_of scope.now) types.now) }
{
    let mut rows = Vec::new(alloc);
    for ty in types {
        let row = row_of(alloc, scope, ty)?;
        rows.push(row)?;
    }
    Ok(rows)
}
