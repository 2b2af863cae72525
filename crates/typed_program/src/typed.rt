ghost use Rattle.std.specs.Prelude.{◌≡◌, ◌<◌, IfOk, IsSome, Some, is_some, length, map, option_and_then, slice_get};
ghost use Rattle.typed_program.specs.Lookups.{IsNumberOf, field_place, layout_of, row_layout, row_place, row_tag, tag_of, type_at};
ghost use Rattle.typed_program.specs.Numbers.{types_of};
ghost use Rattle.typed_program.specs.Rows.{row_of};
ghost use Rattle.typed_program.specs.WellTyped.{IsWellTyped};

use crate::numbers::{Numbers, numbers_of};
use crate::rows::{Layout, TypeRow, rows_of};
use mir_ir::{Declarations, Ty};
use mir_program::Program;
use sqlite_items::at;
use std::alloc::Global;
use std::marker::Model;
use type_layouts::Scope;
use vk_core::{NoMemory, TyId};
use word_bits::Word;

/// A program whose layouts keep the rules and whose types fit one another, with its types numbered from 0. Contracts see the
/// program.
#[derive(Drop)]
pub struct Typed {
    program: Program,
    numbers: Numbers,
    rows: Vec<TypeRow>,
}

impl Model for Typed {
    ghost use Rattle.std.specs.Coded.{codes};
    ghost use Rattle.mir_ir.specs.contracts.types.Ty as ty;
    ghost use Rattle.mir_program.specs.Joined.{Joined};

    ghost Value = { Joined };

    ghost coded = { Prim.hlevel (codes, ty.the_row.coded) };

    ghost use Rattle.typed_program.specs.Inside.{program_in, IsTyped};

    ghost view = { program_in };

    ghost invariant = { IsTyped };
}

fn rows_in(
    alloc: Global,
    declarations: &Declarations,
    types: &[Ty],
) -> Result<Vec<TypeRow>, NoMemory>
    ensures { IfOk result (λ rows. rows.items ≡ map (row_of declarations.now.types) types.now) }
{
    let scope = Scope::new(alloc, declarations.types.as_slice())?;
    let rows = rows_of(alloc, &scope, types)?;
    Ok(rows)
}

fn layout_at(rows: &[TypeRow], number: usize) -> Option<Layout>
    ensures { result ≡ option_and_then row_layout (slice_get rows.now number) }
{
    match at(rows, number) {
        None => None,
        Some(row) => row.layout,
    }
}

fn place_in(row: &TypeRow, variant: usize, field: usize) -> Option<u64>
    ensures { result ≡ row_place variant field row.now }
{
    match at(row.places.as_slice(), variant) {
        None => None,
        Some(places) => at(places.as_slice(), field).copied(),
    }
}

fn place_at(rows: &[TypeRow], number: usize, variant: usize, field: usize) -> Option<u64>
    ensures { result ≡ option_and_then (row_place variant field) (slice_get rows.now number) }
{
    match at(rows, number) {
        None => None,
        Some(row) => place_in(row, variant, field),
    }
}

fn tag_in(row: &TypeRow, variant: usize) -> Option<Word>
    ensures { result ≡ row_tag variant row.now }
{
    match at(row.tags.as_slice(), variant) {
        None => None,
        Some(tag) => *tag,
    }
}

fn tag_at(rows: &[TypeRow], number: usize, variant: usize) -> Option<Word>
    ensures { result ≡ option_and_then (row_tag variant) (slice_get rows.now number) }
{
    match at(rows, number) {
        None => None,
        Some(row) => tag_in(row, variant),
    }
}

impl Typed {
    /// Numbers the types of a program and finds their layouts.
    #[tactic(auto, unfolding(crate::specs::Rows::rows_of))]
    pub fn from_program(alloc: Global, program: Program) -> Result<Typed, NoMemory>
        requires { IsWellTyped program }
        ensures { IfOk result (λ typed. typed ≡ program) }
    {
        let numbers = numbers_of(alloc, program.functions(), program.declarations())?;
        let rows = rows_in(alloc, program.declarations(), numbers.types())?;
        Ok(Typed {
            program,
            numbers,
            rows,
        })
    }

    pub fn program(&self) -> &Program
        ensures value { result.now ≡ self.now }
        ensures typed { IsWellTyped self.now }
    {
        &self.program
    }

    /// How many types there are.
    pub fn count(&self) -> usize
        ensures { result ≡ length (types_of self.now) }
    {
        self.numbers.types().len()
    }

    /// The type with a number.
    pub fn ty(&self, id: TyId) -> &Ty
        requires { id.0 < length (types_of self.now) }
        ensures { Some result.now ≡ type_at self.now id.0 }
    {
        &self.numbers.types()[id.0 as usize]
    }

    /// The number of a type, if the program has it.
    pub fn id_of(&self, ty: &Ty) -> Option<TyId>
        ensures { IsNumberOf self.now ty.now result }
    {
        match self.numbers.find(ty) {
            None => None,
            Some(number) => Some(TyId(number as u32)),
        }
    }

    /// Whether values of the type have a size.
    pub fn is_sized(&self, ty: TyId) -> bool
        ensures { result ≡ is_some (layout_of self.now ty.0) }
    {
        layout_at(self.rows.as_slice(), ty.0 as usize).is_some()
    }

    /// Whether the type has such a field.
    pub fn has_field(&self, ty: TyId, variant: u32, field: u32) -> bool
        ensures { result ≡ is_some (field_place self.now ty.0 variant field) }
    {
        place_at(
            self.rows.as_slice(),
            ty.0 as usize,
            variant as usize,
            field as usize,
        )
        .is_some()
    }

    /// Whether the type has such a variant, with a tag.
    pub fn has_tag(&self, ty: TyId, variant: u32) -> bool
        ensures { result ≡ is_some (tag_of self.now ty.0 variant) }
    {
        tag_at(self.rows.as_slice(), ty.0 as usize, variant as usize).is_some()
    }

    /// How many bytes a value of the type takes, and how it is aligned.
    pub fn layout_of(&self, ty: TyId) -> Layout
        requires { IsSome (layout_of self.now ty.0) }
        ensures { Some result ≡ layout_of self.now ty.0 }
    {
        match layout_at(self.rows.as_slice(), ty.0 as usize) {
            Some(layout) => layout,
            None => unreachable!(),
        }
    }

    /// Where a field stands, in bytes from the start of its struct, tuple or enum. A struct and a tuple have the variant 0 alone.
    pub fn field_place(&self, ty: TyId, variant: u32, field: u32) -> u64
        requires { IsSome (field_place self.now ty.0 variant field) }
        ensures { Some result ≡ field_place self.now ty.0 variant field }
    {
        match place_at(
            self.rows.as_slice(),
            ty.0 as usize,
            variant as usize,
            field as usize,
        ) {
            Some(place) => place,
            None => unreachable!(),
        }
    }

    /// The tag that tells a variant of an enum.
    pub fn tag_of(&self, ty: TyId, variant: u32) -> Word
        requires { IsSome (tag_of self.now ty.0 variant) }
        ensures { Some result ≡ tag_of self.now ty.0 variant }
    {
        match tag_at(self.rows.as_slice(), ty.0 as usize, variant as usize) {
            Some(tag) => tag,
            None => unreachable!(),
        }
    }
}
