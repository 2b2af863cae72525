ghost use Rattle.std.specs.Prelude.{◌≡◌, option_copied};
ghost use Rattle.mir_ir.specs.declared.types.Ty.{out-Ty};
ghost use Rattle.code_types.specs.Forms.{array_form, tuple_form};
ghost use Rattle.code_types.specs.Views.{some_array};

use mir_ir::Ty;

/// An array type: the type of its items, and how many there are.
#[derive(Clone, Copy)]
pub struct ArrayTy<'a> {
    pub item: &'a Ty,
    pub count: u128,
}

/// The parts of an array type.
pub fn array_of(ty: &Ty) -> Option<ArrayTy<'_>>
    ensures { some_array result ≡ array_form (out-Ty ty.now) }
{
    match ty {
        Ty::Array { item, count } => Some(ArrayTy {
            item: item.get(),
            count: *count,
        }),
        _ => None,
    }
}

/// The items of a tuple type.
pub fn tuple_of(ty: &Ty) -> Option<&[Ty]>
    ensures { option_copied result ≡ tuple_form (out-Ty ty.now) }
{
    match ty {
        Ty::Tuple(items) => Some(items.as_slice()),
        _ => None,
    }
}
