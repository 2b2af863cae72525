use crate::types::reference;
use entry_types::{Functions, declarations_fit};
use mir_ir::{
    AliasDecl, Block, Contract, Declarations, FieldDecl, Function, IntTy, Local, LoopRule,
    PlaceExpr, Projection, Steps, Terminator, TraitDecl, Ty, TypeDecl, TypeShape, Unit, UnitKind,
    VariantDecl, VtableDecl,
};
use name_tables::Declared;
use sqlite_items::Items;
use std::alloc::Global;
use std::test::Fail;
use type_rules::{Refusal, TypeKind};
use vk_core::{At, BlockId, LocalId, Name, NoMemory, TextPlace};
use word_bits::Word;

fn nothing_declared(alloc: Global) -> Declarations {
    Declarations {
        types: Items::new(alloc),
        traits: Items::new(alloc),
        vtables: Items::new(alloc),
        constants: Items::new(alloc),
        aliases: Items::new(alloc),
        contracts: Items::new(alloc),
        loops: Items::new(alloc),
        units: Items::new(alloc),
    }
}

fn named(alloc: Global, path: &[u8]) -> Result<Ty, NoMemory> {
    let path = Name::from_bytes(alloc, path)?;
    Ok(Ty::Named(path))
}

/// `&dyn Missing`
fn without_trait(alloc: Global) -> Result<Ty, NoMemory> {
    let path = Name::from_bytes(alloc, b"Missing")?;
    reference(alloc, false, Ty::Dyn(path))
}

fn field(alloc: Global, name: &[u8], ty: Ty) -> Result<FieldDecl, NoMemory> {
    let name = Name::from_bytes(alloc, name)?;
    Ok(FieldDecl {
        name,
        ty,
        offset: 0,
    })
}

/// `fn NAME(_1: &A)` or `fn NAME(_1: &mut A)`, with the block `bb0`.
fn function(alloc: Global, name: &[u8], mutable: bool) -> Result<Function, NoMemory> {
    let name = Name::from_bytes(alloc, name)?;
    let target = named(alloc, b"A")?;
    let ty = reference(alloc, mutable, target)?;
    let mut locals = Items::new(alloc);
    locals.push(Local { id: LocalId(1), ty })?;
    let mut blocks = Items::new(alloc);
    blocks.push(Block {
        id: BlockId(0),
        statements: Items::new(alloc),
        terminator: Terminator::Return,
    })?;
    Ok(Function {
        name,
        place: TextPlace { line: 1, column: 4 },
        parameters: 1,
        result: Ty::Tuple(Items::new(alloc)),
        locals,
        blocks,
    })
}

/// `fn read(_1: &A)` and `fn change(_1: &mut A)`.
fn two_functions(alloc: Global) -> Result<Items<Function>, NoMemory> {
    let mut functions = Items::new(alloc);
    functions.push(function(alloc, b"read", false)?)?;
    functions.push(function(alloc, b"change", true)?)?;
    Ok(functions)
}

/// Whether a refusal is of this kind, at this path of the declarations.
fn is_at(refusal: &Refusal, kind: TypeKind, path: &[u8]) -> bool {
    match &refusal.at {
        At::Code(_) => false,
        At::Entry(own) => refusal.kind == kind && own.as_bytes() == path,
    }
}

/// Whether this is what was found; without a kind, that all fits.
fn is_found(found: Result<(), Refusal>, kind: Option<TypeKind>, path: &[u8]) -> bool {
    match found {
        Ok(()) => kind.is_none(),
        Err(refusal) => match kind {
            None => false,
            Some(kind) => is_at(&refusal, kind, path),
        },
    }
}

/// What is refused first in the declarations beside the two functions.
fn first_refusal(alloc: Global, all: &Declarations) -> Result<Result<(), Refusal>, NoMemory> {
    let text = two_functions(alloc)?;
    let functions = Functions::new(alloc, text.as_slice())?;
    let declared = Declared::new(alloc, all)?;
    let found = declarations_fit(alloc, &functions, &declared)?;
    Ok(found)
}

/// Whether this is the first refusal beside the two functions; without a kind, whether there is none.
fn is_refused(
    alloc: Global,
    all: Declarations,
    kind: Option<TypeKind>,
    path: &[u8],
) -> Result<bool, NoMemory> {
    let found = first_refusal(alloc, &all)?;
    Ok(is_found(found, kind, path))
}

/// A type of this shape by the name A.
fn with_type(
    alloc: Global,
    name: Ty,
    shape: TypeShape,
    dropped_by: Option<Name>,
) -> Result<Declarations, NoMemory> {
    let mut all = nothing_declared(alloc);
    all.types.push(TypeDecl {
        name,
        shape,
        size: 8,
        align: 8,
        drop: dropped_by,
    })?;
    Ok(all)
}

/// `A { x: u8, y: &dyn Missing }`
fn struct_with_unknown_trait(alloc: Global) -> Result<Declarations, NoMemory> {
    let mut fields = Items::new(alloc);
    fields.push(field(alloc, b"x", Ty::Int(IntTy::U8))?)?;
    let unknown = without_trait(alloc)?;
    fields.push(field(alloc, b"y", unknown)?)?;
    let name = named(alloc, b"A")?;
    with_type(alloc, name, TypeShape::Struct(fields), None)
}

/// `enum A { X, Y { x: &dyn Missing } }`
fn enum_with_unknown_trait(alloc: Global) -> Result<Declarations, NoMemory> {
    let mut variants = Items::new(alloc);
    let name = Name::from_bytes(alloc, b"X")?;
    variants.push(VariantDecl {
        name,
        value: Word {
            width: 64,
            value: 0,
        },
        tag: None,
        fields: Items::new(alloc),
    })?;
    let mut fields = Items::new(alloc);
    let unknown = without_trait(alloc)?;
    fields.push(field(alloc, b"x", unknown)?)?;
    let name = Name::from_bytes(alloc, b"Y")?;
    variants.push(VariantDecl {
        name,
        value: Word {
            width: 64,
            value: 1,
        },
        tag: None,
        fields,
    })?;
    let shape = TypeShape::Enum {
        variants,
        tag: None,
        discriminant: IntTy::Isize,
    };
    let name = named(alloc, b"A")?;
    with_type(alloc, name, shape, None)
}

/// `(u8, bool)` with the fields `bool` and `bool`
fn tuple_with_another_item(alloc: Global) -> Result<Declarations, NoMemory> {
    let mut items = Items::new(alloc);
    items.push(Ty::Int(IntTy::U8))?;
    items.push(Ty::Bool)?;
    let mut fields = Items::new(alloc);
    fields.push(field(alloc, b"0", Ty::Bool)?)?;
    fields.push(field(alloc, b"1", Ty::Bool)?)?;
    with_type(alloc, Ty::Tuple(items), TypeShape::Tuple(fields), None)
}

/// A struct A without fields, and its drop function.
fn with_drop(alloc: Global, function: &[u8]) -> Result<Declarations, NoMemory> {
    let dropped_by = Name::from_bytes(alloc, function)?;
    let name = named(alloc, b"A")?;
    with_type(
        alloc,
        name,
        TypeShape::Struct(Items::new(alloc)),
        Some(dropped_by),
    )
}

#[test]
fn the_second_field_names_no_trait(rt: HostRuntime) -> Result<(), Fail> {
    let all = struct_with_unknown_trait(rt.alloc())?;
    let kind = Some(TypeKind::UnknownName);
    assert!(rt; is_refused(rt.alloc(), all, kind, b"type[0].fields[1].type")?);
    Ok(())
}

#[test]
fn a_field_of_the_second_variant_names_no_trait(rt: HostRuntime) -> Result<(), Fail> {
    let all = enum_with_unknown_trait(rt.alloc())?;
    let kind = Some(TypeKind::UnknownName);
    assert!(rt; is_refused(rt.alloc(), all, kind, b"type[0].variants[1].fields[0].type")?);
    Ok(())
}

#[test]
fn a_field_of_a_tuple_is_no_item_of_its_name(rt: HostRuntime) -> Result<(), Fail> {
    let all = tuple_with_another_item(rt.alloc())?;
    let kind = Some(TypeKind::Mismatch);
    assert!(rt; is_refused(rt.alloc(), all, kind, b"type[0].fields[0].type")?);
    Ok(())
}

#[test]
fn drop_functions_take_a_mutable_reference(rt: HostRuntime) -> Result<(), Fail> {
    let all = with_drop(rt.alloc(), b"change")?;
    assert!(rt; is_refused(rt.alloc(), all, None, b"")?);
    let all = with_drop(rt.alloc(), b"read")?;
    let kind = Some(TypeKind::BadCall);
    assert!(rt; is_refused(rt.alloc(), all, kind, b"type[0].drop")?);
    Ok(())
}

/// The trait `Sized` with the method `size`.
fn sized(alloc: Global) -> Result<TraitDecl, NoMemory> {
    let mut methods = Items::new(alloc);
    methods.push(Name::from_bytes(alloc, b"size")?)?;
    let name = Name::from_bytes(alloc, b"Sized")?;
    Ok(TraitDecl { name, methods })
}

/// `read`, so often.
fn reads(alloc: Global, count: usize) -> Result<Items<Name>, NoMemory> {
    let mut names = Items::new(alloc);
    for _ in 0..count {
        names.push(Name::from_bytes(alloc, b"read")?)?;
    }
    Ok(names)
}

/// A vtable of a type for `Sized`, with `read` so often.
fn vtable_of(alloc: Global, path: &[u8], count: usize) -> Result<VtableDecl, NoMemory> {
    let methods = reads(alloc, count)?;
    let trait_name = Name::from_bytes(alloc, b"Sized")?;
    let ty = named(alloc, path)?;
    Ok(VtableDecl {
        ty,
        trait_name,
        methods,
    })
}

fn with_vtable(alloc: Global, path: &[u8], count: usize) -> Result<Declarations, NoMemory> {
    let own = vtable_of(alloc, path, count)?;
    let mut all = nothing_declared(alloc);
    all.vtables.push(own)?;
    all.traits.push(sized(alloc)?)?;
    Ok(all)
}

#[test]
fn a_vtable_has_a_method_for_each_of_its_trait(rt: HostRuntime) -> Result<(), Fail> {
    let all = with_vtable(rt.alloc(), b"A", 1)?;
    assert!(rt; is_refused(rt.alloc(), all, None, b"")?);
    let all = with_vtable(rt.alloc(), b"A", 2)?;
    let kind = Some(TypeKind::BadCall);
    assert!(rt; is_refused(rt.alloc(), all, kind, b"vtable[0].methods")?);
    Ok(())
}

#[test]
fn a_method_takes_the_type_of_its_vtable(rt: HostRuntime) -> Result<(), Fail> {
    let all = with_vtable(rt.alloc(), b"B", 1)?;
    let kind = Some(TypeKind::BadCall);
    assert!(rt; is_refused(rt.alloc(), all, kind, b"vtable[0].methods[0]")?);
    Ok(())
}

/// Two aliases, the second of which names no function.
fn with_aliases(alloc: Global) -> Result<Declarations, NoMemory> {
    let mut all = nothing_declared(alloc);
    all.aliases.push(AliasDecl {
        call: Name::from_bytes(alloc, b"a")?,
        function: Name::from_bytes(alloc, b"read")?,
    })?;
    all.aliases.push(AliasDecl {
        call: Name::from_bytes(alloc, b"b")?,
        function: Name::from_bytes(alloc, b"a")?,
    })?;
    Ok(all)
}

/// A contract of `change` whose second precondition names no function.
fn with_contract(alloc: Global) -> Result<Declarations, NoMemory> {
    let mut all = nothing_declared(alloc);
    let mut required = Items::new(alloc);
    required.push(Name::from_bytes(alloc, b"read")?)?;
    required.push(Name::from_bytes(alloc, b"missing")?)?;
    all.contracts.push(Contract {
        function: Name::from_bytes(alloc, b"change")?,
        required,
        ensured: Items::new(alloc),
        modifies: Items::new(alloc),
    })?;
    Ok(all)
}

/// A contract of `change` that modifies `**_1`, where `*_1` is no pointer.
fn with_place(alloc: Global) -> Result<Declarations, NoMemory> {
    let mut all = nothing_declared(alloc);
    let mut steps = Steps::new(alloc);
    steps.push(Projection::Deref)?;
    steps.push(Projection::Deref)?;
    let mut modifies = Items::new(alloc);
    modifies.push(PlaceExpr {
        local: LocalId(1),
        steps,
    })?;
    all.contracts.push(Contract {
        function: Name::from_bytes(alloc, b"change")?,
        required: Items::new(alloc),
        ensured: Items::new(alloc),
        modifies,
    })?;
    Ok(all)
}

/// A rule of `change` at this block, for this local.
fn with_loop(alloc: Global, header: u32, local: u32) -> Result<Declarations, NoMemory> {
    let mut all = nothing_declared(alloc);
    let mut arguments = Items::new(alloc);
    arguments.push(LocalId(local))?;
    all.loops.push(LoopRule {
        function: Name::from_bytes(alloc, b"change")?,
        header: BlockId(header),
        invariant: Name::from_bytes(alloc, b"read")?,
        arguments,
        modifies: Items::new(alloc),
    })?;
    Ok(all)
}

/// A unit of `read`, as a harness or as a contract.
fn with_unit(alloc: Global, kind: UnitKind) -> Result<Declarations, NoMemory> {
    let mut all = nothing_declared(alloc);
    all.units.push(Unit {
        name: Name::from_bytes(alloc, b"read")?,
        kind,
        unwind: 20,
        stubs: Items::new(alloc),
    })?;
    Ok(all)
}

#[test]
fn an_alias_names_a_function(rt: HostRuntime) -> Result<(), Fail> {
    let all = with_aliases(rt.alloc())?;
    let kind = Some(TypeKind::UnknownName);
    assert!(rt; is_refused(rt.alloc(), all, kind, b"alias[1].function")?);
    Ok(())
}

#[test]
fn a_precondition_names_a_function(rt: HostRuntime) -> Result<(), Fail> {
    let all = with_contract(rt.alloc())?;
    let kind = Some(TypeKind::UnknownName);
    assert!(rt; is_refused(rt.alloc(), all, kind, b"contract[0].requires[1]")?);
    Ok(())
}

#[test]
fn a_modified_place_has_a_type(rt: HostRuntime) -> Result<(), Fail> {
    let all = with_place(rt.alloc())?;
    let kind = Some(TypeKind::BadPlace);
    assert!(rt; is_refused(rt.alloc(), all, kind, b"contract[0].modifies[0]")?);
    Ok(())
}

#[test]
fn a_loop_rule_names_a_block_and_locals(rt: HostRuntime) -> Result<(), Fail> {
    let all = with_loop(rt.alloc(), 0, 1)?;
    assert!(rt; is_refused(rt.alloc(), all, None, b"")?);
    let all = with_loop(rt.alloc(), 1, 1)?;
    let kind = Some(TypeKind::UnknownName);
    assert!(rt; is_refused(rt.alloc(), all, kind, b"loop[0].header")?);
    let all = with_loop(rt.alloc(), 0, 2)?;
    assert!(rt; is_refused(rt.alloc(), all, kind, b"loop[0].arguments[0]")?);
    Ok(())
}

#[test]
fn a_harness_takes_nothing(rt: HostRuntime) -> Result<(), Fail> {
    let all = with_unit(rt.alloc(), UnitKind::Contract)?;
    assert!(rt; is_refused(rt.alloc(), all, None, b"")?);
    let all = with_unit(rt.alloc(), UnitKind::Proof)?;
    let kind = Some(TypeKind::BadCall);
    assert!(rt; is_refused(rt.alloc(), all, kind, b"unit[0].function")?);
    Ok(())
}

/// How many functions there are, and whether one of this name is found, by each look-up.
fn looked_up(alloc: Global, name: &[u8]) -> Result<(usize, bool, bool, bool), NoMemory> {
    let text = two_functions(alloc)?;
    let functions = Functions::new(alloc, text.as_slice())?;
    Ok((
        functions.bodies().len(),
        functions.find(name).is_some(),
        functions.body_of(name).is_some(),
        functions.table().find(name).is_some(),
    ))
}

#[test]
fn functions_are_found_by_their_names(rt: HostRuntime) -> Result<(), Fail> {
    assert_eq!(rt; looked_up(rt.alloc(), b"change")?, (2, true, true, true));
    assert_eq!(rt;
        looked_up(rt.alloc(), b"missing")?,
        (2, false, false, false)
    );
    Ok(())
}
