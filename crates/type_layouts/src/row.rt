ghost use Rattle.std.specs.Prelude.{◌≡◌, ◌++◌, [], ◌∷◌, false, map, OnOk, IfOk};
ghost use Rattle.type_layouts.specs.Extents.{empty, in_order};
ghost use Rattle.type_layouts.specs.Rows.{all_values, extent_in, extent_of, is_slice, placed, rows_of, seen};
ghost use Rattle.type_layouts.specs.Levels.{level_extent, level_inner};

use crate::extent::{self, Extent, Form};
use crate::scope::Scope;
use canonical_text::type_text;
use mir_ir::Ty;
use std::alloc::Global;
use vk_core::{Name, NoMemory};

/// A type that a program names. `is_value` says that a value of it stands there: a local, a parameter, a result, a field or an
/// element.
#[derive(Debug, Drop)]
pub struct Row {
    pub text: Name,
    pub is_value: bool,
    pub extent: Extent,
}

pub fn push_row(out: &mut Vec<Row>, row: Row, is_value: bool) -> Result<(), NoMemory>
    ensures { OnOk result (out.new.items ≡ out.old.items ++ placed is_value row ∷ []) }
{
    let Row { text, extent, .. } = row;
    out.push(Row {
        text,
        is_value,
        extent,
    })?;
    Ok(())
}

/// Adds the types that a type names, and it.
pub fn push_type(
    alloc: Global,
    out: &mut Vec<Row>,
    scope: &Scope<'_>,
    ty: &Ty,
    is_value: bool,
) -> Result<(), NoMemory>
    ensures { OnOk result (out.new.items ≡ out.old.items ++ rows_of scope.now is_value ty.now) }
{
    let row = push_inner(alloc, out, scope, ty)?;
    push_row(out, row, is_value)?;
    Ok(())
}

/// What a value of the type takes.
pub fn extent_of(alloc: Global, scope: &Scope<'_>, ty: &Ty) -> Result<Extent, NoMemory>
    ensures { IfOk result (λ e. e ≡ extent_of scope.now ty.now) }
{
    let mut inner = Vec::new(alloc);
    let Row { extent, .. } = push_inner(alloc, &mut inner, scope, ty)?;
    Ok(extent)
}

/// Adds the types that a type names, and gives the type's own row.
#[cycle(rows)]
pub fn push_inner(
    alloc: Global,
    out: &mut Vec<Row>,
    scope: &Scope<'_>,
    ty: &Ty,
) -> Result<Row, NoMemory>
    ensures own { IfOk result (λ row. row ≡ (seen scope.now ty.now).own) }
    ensures inner { OnOk result (out.new.items ≡ out.old.items ++ (seen scope.now ty.now).inner) }
{
    let text = type_text(alloc, ty)?;
    let extent = push_parts(alloc, out, scope, &text, ty)?;
    Ok(Row {
        text,
        is_value: false,
        extent,
    })
}

#[cycle(rows)]
fn push_parts(
    alloc: Global,
    out: &mut Vec<Row>,
    scope: &Scope<'_>,
    text: &Name,
    ty: &Ty,
) -> Result<Extent, NoMemory>
    ensures own { IfOk result (λ e. e ≡ level_extent scope.now text.now ty.now) }
    ensures inner { OnOk result (out.new.items ≡ out.old.items ++ level_inner scope.now ty.now) }
{
    match ty {
        Ty::Bool => Ok(extent::number_extent(alloc, 1)),
        Ty::Char => Ok(extent::number_extent(alloc, 4)),
        Ty::Int(int) => Ok(extent::number_extent(alloc, int.width() as u64 / 8)),
        Ty::Never => Ok(extent::empty(alloc)),
        Ty::Str => Ok(extent::without_size(alloc, Form::Slice, true)),
        Ty::Tuple(items) => {
            let items = push_items(alloc, out, scope, items.as_slice())?;
            let extent = scope.extent_named(alloc, text.as_bytes(), items.rounded())?;
            Ok(extent)
        }
        Ty::Array { item, count } => {
            let row = push_inner(alloc, out, scope, item.get())?;
            let extent = extent::repeated(alloc, *count, &row.extent)?;
            push_row(out, row, true)?;
            Ok(extent)
        }
        Ty::Slice(item) => {
            let row = push_inner(alloc, out, scope, item.get())?;
            push_row(out, row, true)?;
            Ok(extent::without_size(alloc, Form::Slice, false))
        }
        Ty::Ref { target, .. } => {
            let form = push_target(alloc, out, scope, target.get())?;
            Ok(extent::pointer_extent(alloc, form, false))
        }
        Ty::Raw { target, .. } => {
            let form = push_target(alloc, out, scope, target.get())?;
            Ok(extent::pointer_extent(alloc, form, false))
        }
        Ty::BoxOf(target) => {
            let form = push_target(alloc, out, scope, target.get())?;
            Ok(extent::pointer_extent(alloc, form, is_slice(form)))
        }
        Ty::Dyn(_) => Ok(extent::without_size(alloc, Form::Dyn, false)),
        Ty::Named(_) => {
            let other = extent::without_size(alloc, Form::Sized, true);
            let extent = scope.extent_named(alloc, text.as_bytes(), other)?;
            Ok(extent)
        }
    }
}

/// Adds the items of a tuple, and gives what they take one behind the other.
#[cycle(rows)]
fn push_items(
    alloc: Global,
    out: &mut Vec<Row>,
    scope: &Scope<'_>,
    items: &[Ty],
) -> Result<Extent, NoMemory>
    ensures own { IfOk result (λ e. e ≡ in_order empty (map extent_in (map (seen scope.now) items.now))) }
    ensures inner { OnOk result (out.new.items ≡ out.old.items ++ all_values (map (seen scope.now) items.now)) }
{
    let mut done = extent::empty(alloc);
    for item in items {
        let row = push_inner(alloc, out, scope, item)?;
        done.put_behind(&row.extent)?;
        push_row(out, row, true)?;
    }
    Ok(done)
}

/// Adds a type behind a pointer, and gives its form.
#[cycle(rows)]
fn push_target(
    alloc: Global,
    out: &mut Vec<Row>,
    scope: &Scope<'_>,
    target: &Ty,
) -> Result<Form, NoMemory>
    ensures own { IfOk result (λ f. f ≡ (extent_of scope.now target.now).form) }
    ensures inner { OnOk result (out.new.items ≡ out.old.items ++ rows_of scope.now false target.now) }
{
    let row = push_inner(alloc, out, scope, target)?;
    let form = row.extent.form;
    push_row(out, row, false)?;
    Ok(form)
}

fn is_slice(form: Form) -> bool
    ensures { result ≡ is_slice form }
{
    match form {
        Form::Slice => true,
        Form::Sized | Form::Dyn => false,
    }
}
