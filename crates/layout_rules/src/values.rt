ghost use Rattle.std.specs.Prelude.{◌≡◌, ◌&&◌, ◌||◌, ℕ, List, bytes_eq, find, IfOk, OnOk, option_copied};
ghost use Rattle.std.specs.List.{list_any};
ghost use Rattle.indexmap.specs.IndexSet.{contains_by};
ghost use Rattle.layout_rules.specs.Rules.{is_unknown, is_unsized, is_value_of};

use indexmap::IndexSet;
use std::alloc::Global;
use std::marker::Model;
use type_layouts::{Form, Row};
use vk_core::NoMemory;

/// The types that a program names, with the texts of the slice and dyn types of which a value stands somewhere. Contracts see
/// the types.
#[derive(Drop)]
pub struct Values<'a> {
    rows: &'a [Row],
    texts: IndexSet<Vec<u8>>,
}

impl<'a> Model for Values<'a> {
    ghost use Rattle.std.specs.Prelude.{List};
    ghost use Rattle.type_layouts.specs.declared.row.Row.{Row};
    ghost use Rattle.layout_rules.specs.Listed.{rows_in, IsListed};

    ghost Value = { List Row };

    ghost view = { rows_in };

    ghost invariant = { IsListed };
}

fn is_unsized(form: Form) -> bool
    ensures { result ≡ is_unsized form }
{
    match form {
        Form::Sized => false,
        Form::Slice | Form::Dyn => true,
    }
}

fn is_unsized_value(row: &Row) -> bool
    ensures { result ≡ (row.now.is_value && is_unsized row.now.extent.form) }
{
    row.is_value && is_unsized(row.extent.form)
}

#[tactic(auto, using(crate::proofs::UnknownLaws::text_put))]
fn put_text(alloc: Global, set: &mut IndexSet<Vec<u8>>, text: &[u8]) -> Result<(), NoMemory>
    ensures { OnOk result ((other : List ℕ) → contains_by (λ k. bytes_eq other k.items) set.new ≡ (contains_by (λ k. bytes_eq other k.items) set.old || bytes_eq other text.now)) }
{
    let owned = Vec::from_slice(alloc, text)?;
    set.insert(owned)?;
    Ok(())
}

#[tactic(auto, using(crate::proofs::UnknownLaws::value_put, crate::proofs::UnknownLaws::value_left))]
fn put_value(alloc: Global, set: &mut IndexSet<Vec<u8>>, row: &Row) -> Result<(), NoMemory>
    ensures { OnOk result ((other : List ℕ) → contains_by (λ k. bytes_eq other k.items) set.new ≡ (contains_by (λ k. bytes_eq other k.items) set.old || is_value_of other row.now)) }
{
    if is_unsized_value(row) {
        put_text(alloc, set, row.text.as_bytes())?;
        Ok(())
    } else {
        Ok(())
    }
}

impl<'a> Values<'a> {
    #[tactic(auto, using(crate::proofs::UnknownLaws::rows_first, crate::proofs::UnknownLaws::rows_next, crate::proofs::UnknownLaws::rows_all))]
    pub fn new(alloc: Global, rows: &'a [Row]) -> Result<Values<'a>, NoMemory>
        ensures { IfOk result (λ values. values ≡ rows.now) }
    {
        let mut texts = IndexSet::new(alloc);
        for row in rows {
            put_value(alloc, &mut texts, row)?;
        }
        Ok(Values { rows, texts })
    }

    /// Whether a value of a slice or dyn type of this text stands somewhere.
    fn has(&self, text: &[u8]) -> bool
        ensures { result ≡ list_any (is_value_of text.now) self.now }
    {
        self.texts.contains(text)
    }

    /// Whether a type is unknown.
    #[tactic(auto, unfolding(crate::specs::Rules::is_unknown))]
    fn is_unknown(&self, row: &Row) -> bool
        ensures { result ≡ is_unknown self.now row.now }
    {
        row.extent.is_unknown || (is_unsized(row.extent.form) && self.has(row.text.as_bytes()))
    }
}

/// The first type that is unknown.
pub fn first_unknown<'a>(alloc: Global, rows: &'a [Row]) -> Result<Option<&'a Row>, NoMemory>
    ensures { IfOk result (λ row. option_copied row ≡ find (is_unknown rows.now) rows.now) }
{
    let values = Values::new(alloc, rows)?;
    for row in rows {
        if values.is_unknown(row) {
            return Ok(Some(row));
        }
    }
    Ok(None)
}
