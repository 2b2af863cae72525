use crate::declaring::with_types;
use mir_ir::{FieldDecl, IntTy, TagDecl, Ty, TypeDecl, TypeShape, VariantDecl};
use mir_program::Program;
use sqlite_items::Items;
use std::alloc::Global;
use std::test::Fail;
use type_layouts::Scope;
use typed_program::{Layout, TypeRow, Typed, rows_of};
use vk_core::{Name, NoMemory};
use word_bits::Word;

/// A program without functions and declarations.
#[tactic(auto, using(mir_program::proofs::Examples::empty_program))]
fn empty_typed(alloc: Global) -> Result<Typed, NoMemory> {
    let program = Program::join(Items::new(alloc), with_types(alloc, Items::new(alloc)));
    let typed = Typed::from_program(alloc, program)?;
    Ok(typed)
}

/// The layout of a type, if it has a number and a size.
fn layout_asked(typed: &Typed, ty: &Ty) -> Option<Layout> {
    match typed.id_of(ty) {
        None => None,
        Some(id) => {
            if typed.is_sized(id) {
                Some(typed.layout_of(id))
            } else {
                None
            }
        }
    }
}

/// How many types there are, and the layouts of two of them.
fn numbered(alloc: Global) -> Result<(usize, Option<Layout>, Option<Layout>), NoMemory> {
    let typed = empty_typed(alloc)?;
    Ok((
        typed.count(),
        layout_asked(&typed, &Ty::Int(IntTy::U32)),
        layout_asked(&typed, &Ty::Str),
    ))
}

#[test]
fn scalars_have_numbers_in_every_program(rt: HostRuntime) -> Result<(), Fail> {
    let (count, number, text) = numbered(rt.alloc())?;
    assert_eq!(rt; count, 16);
    assert_eq!(rt; number, Some(Layout { size: 4, align: 4 }));
    assert_eq!(rt; text, None);
    Ok(())
}

/// The field `0` of type `u32`, at some place.
fn number_at(alloc: Global, offset: u64) -> Result<Items<FieldDecl>, NoMemory> {
    let mut fields = Items::new(alloc);
    fields.push(FieldDecl {
        name: Name::from_bytes(alloc, b"0")?,
        ty: Ty::Int(IntTy::U32),
        offset,
    })?;
    Ok(fields)
}

fn variant(
    alloc: Global,
    name: &[u8],
    number: u128,
    fields: Items<FieldDecl>,
) -> Result<VariantDecl, NoMemory> {
    Ok(VariantDecl {
        name: Name::from_bytes(alloc, name)?,
        value: Word {
            width: 64,
            value: number,
        },
        tag: Some(Word {
            width: 8,
            value: number,
        }),
        fields,
    })
}

fn two_variants(alloc: Global) -> Result<Items<VariantDecl>, NoMemory> {
    let mut variants = Items::new(alloc);
    variants.push(variant(alloc, b"N", 0, Items::new(alloc))?)?;
    variants.push(variant(alloc, b"S", 1, number_at(alloc, 4)?)?)?;
    Ok(variants)
}

/// The enum `E` of `N` and `S(u32)`, with a tag of one byte.
fn one_enum(alloc: Global) -> Result<Items<TypeDecl>, NoMemory> {
    let mut types = Items::new(alloc);
    types.push(TypeDecl {
        name: Ty::Named(Name::from_bytes(alloc, b"E")?),
        shape: TypeShape::Enum {
            variants: two_variants(alloc)?,
            tag: Some(TagDecl {
                ty: Ty::Int(IntTy::U8),
                offset: 0,
            }),
            discriminant: IntTy::Isize,
        },
        size: 8,
        align: 4,
        drop: None,
    })?;
    Ok(types)
}

/// What is kept of one type beside the declaration of `E`.
fn row_of(alloc: Global, ty: Ty) -> Result<Option<TypeRow>, NoMemory> {
    let types = one_enum(alloc)?;
    let scope = Scope::new(alloc, types.as_slice())?;
    let mut asked = Vec::new(alloc);
    asked.push(ty)?;
    let mut rows = rows_of(alloc, &scope, asked.as_slice())?;
    Ok(rows.pop())
}

/// The layout, how many variants have places, the last place of the last one, and the value of the last tag.
fn seen_of(row: Option<TypeRow>) -> (Option<Layout>, usize, Option<u64>, Option<u128>) {
    match row {
        None => (None, 0, None, None),
        Some(row) => (
            row.layout,
            row.places.len(),
            last_place(row.places.as_slice()),
            last_tag(row.tags.as_slice()),
        ),
    }
}

fn last_place(places: &[Items<u64>]) -> Option<u64> {
    places.last()?.as_slice().last().copied()
}

fn last_tag(tags: &[Option<Word>]) -> Option<u128> {
    match tags.last() {
        Some(Some(tag)) => Some(tag.value),
        Some(None) | None => None,
    }
}

/// `(u8, u32, u8)`
fn three_numbers(alloc: Global) -> Result<Ty, NoMemory> {
    let mut items = Items::new(alloc);
    items.push(Ty::Int(IntTy::U8))?;
    items.push(Ty::Int(IntTy::U32))?;
    items.push(Ty::Int(IntTy::U8))?;
    Ok(Ty::Tuple(items))
}

#[test]
fn a_tuple_without_a_declaration_has_places(rt: HostRuntime) -> Result<(), Fail> {
    let tuple = three_numbers(rt.alloc())?;
    let seen = seen_of(row_of(rt.alloc(), tuple)?);
    assert_eq!(rt;
        seen,
        (Some(Layout { size: 12, align: 4 }), 1, Some(8), None)
    );
    Ok(())
}

#[test]
fn an_enum_has_places_and_tags(rt: HostRuntime) -> Result<(), Fail> {
    let own = Ty::Named(Name::from_bytes(rt.alloc(), b"E")?);
    let seen = seen_of(row_of(rt.alloc(), own)?);
    assert_eq!(rt;
        seen,
        (Some(Layout { size: 8, align: 4 }), 2, Some(4), Some(1))
    );
    Ok(())
}
