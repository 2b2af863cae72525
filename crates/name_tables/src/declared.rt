ghost use Rattle.std.specs.Prelude.{◌≡◌, ◌&&◌, IfOk, bytes_eq, find, map, option_copied};
ghost use Rattle.type_rules.specs.Plain.{is_plain};
ghost use Rattle.name_tables.specs.Plain.{plain_marks};
ghost use Rattle.type_rules.specs.Types.{same_type};
ghost use Rattle.type_rules.specs.Lookup.{alias_named, all_true, constant_named, declaration_of, first_vtable, knows_traits, shape_variants, trait_named, type_named, variant_named, variants_of, vtable_for};

use crate::plain::{is_plain_by, plain_marks};
use crate::table::Table;
use mir_ir::{
    AliasDecl, ConstantDecl, Declarations, TraitDecl, Ty, TypeDecl, TypeShape, VariantDecl,
    VtableDecl,
};
use std::alloc::Global;
use std::marker::Model;
use type_rules::same_type;
use vk_core::NoMemory;

/// The declared types, and a mark for each that is plain.
#[derive(Drop)]
struct Types<'a> {
    named: Table<'a, TypeDecl>,
    plain: Vec<bool>,
}

#[derive(Drop)]
struct Traits<'a> {
    named: Table<'a, TraitDecl>,
    vtables: Table<'a, VtableDecl>,
}

#[derive(Drop)]
struct Words<'a> {
    constants: Table<'a, ConstantDecl>,
    aliases: Table<'a, AliasDecl>,
}

/// What a declaration file declares, found by names. Contracts see the declarations.
#[derive(Drop)]
pub struct Declared<'a> {
    declarations: &'a Declarations,
    types: Types<'a>,
    traits: Traits<'a>,
    words: Words<'a>,
}

impl<'a> Model for Declared<'a> {
    ghost use Rattle.mir_ir.specs.declared.declarations.Declarations.{Declarations};
    ghost use Rattle.name_tables.specs.Tables.{AreTables};
    ghost use Rattle.std.specs.Coded.{codes};
    ghost use Rattle.mir_ir.specs.contracts.types.Ty as ty;

    ghost Value = { Declarations };

    ghost coded = { Prim.hlevel (codes, ty.the_row.coded) };

    ghost view = { λ d. d.declarations.now };

    ghost invariant = { λ d. AreTables d.declarations.now d.types.named d.traits.named d.traits.vtables d.words.constants d.words.aliases d.types.plain.items };
}

fn types_of<'a>(alloc: Global, types: &'a [TypeDecl]) -> Result<Types<'a>, NoMemory>
    ensures { IfOk result (λ t. (t.named ≡ types.now) × (t.plain.items ≡ plain_marks types.now)) }
{
    let named = Table::new(alloc, types)?;
    let plain = plain_marks(alloc, &named)?;
    Ok(Types { named, plain })
}

fn traits_of<'a>(
    alloc: Global,
    traits: &'a [TraitDecl],
    vtables: &'a [VtableDecl],
) -> Result<Traits<'a>, NoMemory>
    ensures { IfOk result (λ t. (t.named ≡ traits.now) × (t.vtables ≡ vtables.now)) }
{
    let named = Table::new(alloc, traits)?;
    let by_trait = Table::new(alloc, vtables)?;
    Ok(Traits {
        named,
        vtables: by_trait,
    })
}

fn words_of<'a>(
    alloc: Global,
    constants: &'a [ConstantDecl],
    aliases: &'a [AliasDecl],
) -> Result<Words<'a>, NoMemory>
    ensures { IfOk result (λ w. (w.constants ≡ constants.now) × (w.aliases ≡ aliases.now)) }
{
    let values = Table::new(alloc, constants)?;
    let calls = Table::new(alloc, aliases)?;
    Ok(Words {
        constants: values,
        aliases: calls,
    })
}

fn vtable_among<'a>(vtables: &'a [VtableDecl], ty: &Ty, name: &[u8]) -> Option<&'a VtableDecl>
    ensures { option_copied result ≡ find (λ v. bytes_eq name.now v.trait_name && same_type ty.now v.ty) vtables.now }
{
    vtables.iter().find(|vtable| name == vtable.trait_name.as_bytes() && same_type(ty, &vtable.ty))
}

fn shape_variants(shape: &TypeShape) -> Option<&[VariantDecl]>
    ensures { option_copied result ≡ shape_variants shape.now }
{
    match shape {
        TypeShape::Enum { variants, .. } => Some(variants.as_slice()),
        TypeShape::Struct(_) | TypeShape::Tuple(_) => None,
    }
}

/// The variant of this name.
pub fn variant_named<'a>(variants: &'a [VariantDecl], name: &[u8]) -> Option<&'a VariantDecl>
    ensures { option_copied result ≡ variant_named variants.now name.now }
{
    variants
        .iter()
        .find(|variant| variant.name.as_bytes() == name)
}

impl<'a> Declared<'a> {
    pub fn new(alloc: Global, declarations: &'a Declarations) -> Result<Declared<'a>, NoMemory>
        ensures { IfOk result (λ declared. declared ≡ declarations.now) }
    {
        let types = types_of(alloc, declarations.types.as_slice())?;
        let traits = traits_of(
            alloc,
            declarations.traits.as_slice(),
            declarations.vtables.as_slice(),
        )?;
        let words = words_of(
            alloc,
            declarations.constants.as_slice(),
            declarations.aliases.as_slice(),
        )?;
        Ok(Declared {
            declarations,
            types,
            traits,
            words,
        })
    }

    pub fn declarations(&self) -> &'a Declarations
        ensures { result.now ≡ self.now }
    {
        self.declarations
    }

    /// The struct or enum of this path.
    pub fn type_named(&self, path: &[u8]) -> Option<&'a TypeDecl>
        ensures { option_copied result ≡ type_named self.now path.now }
    {
        self.types.named.find(path)
    }

    /// The declaration of a type that is written as a path.
    pub fn declaration_of(&self, ty: &Ty) -> Option<&'a TypeDecl>
        ensures { option_copied result ≡ declaration_of self.now ty.now }
    {
        match ty {
            Ty::Named(path) => self.type_named(path.as_bytes()),
            _ => None,
        }
    }

    /// The variants of an enum.
    pub fn variants_of(&self, ty: &Ty) -> Option<&'a [VariantDecl]>
        ensures { option_copied result ≡ variants_of self.now ty.now }
    {
        match self.declaration_of(ty) {
            None => None,
            Some(own) => shape_variants(&own.shape),
        }
    }

    pub fn trait_named(&self, name: &[u8]) -> Option<&'a TraitDecl>
        ensures { option_copied result ≡ trait_named self.now name.now }
    {
        self.traits.named.find(name)
    }

    pub fn constant_named(&self, name: &[u8]) -> Option<&'a ConstantDecl>
        ensures { option_copied result ≡ constant_named self.now name.now }
    {
        self.words.constants.find(name)
    }

    pub fn alias_named(&self, name: &[u8]) -> Option<&'a AliasDecl>
        ensures { option_copied result ≡ alias_named self.now name.now }
    {
        self.words.aliases.find(name)
    }

    /// The first declared vtable of a trait.
    pub fn first_vtable(&self, name: &[u8]) -> Option<&'a VtableDecl>
        ensures { option_copied result ≡ first_vtable self.now name.now }
    {
        self.traits.vtables.find(name)
    }

    /// The vtable of a type for a trait.
    pub fn vtable_for(&self, ty: &Ty, name: &[u8]) -> Option<&'a VtableDecl>
        ensures { option_copied result ≡ vtable_for self.now ty.now name.now }
    {
        vtable_among(self.traits.vtables.items(), ty, name)
    }

    /// Whether each trait of a `dyn` in the type is declared.
    #[cycle(traits)]
    #[tactic(auto, using(type_rules::proofs::KnownTraits::knows_traits_out))]
    pub fn knows_traits(&self, ty: &Ty) -> bool
        ensures { result ≡ knows_traits self.now ty.now }
    {
        match ty {
            Ty::Tuple(items) => self.knows_all(items.as_slice()),
            Ty::Array { item, .. } => self.knows_traits(item.get()),
            Ty::Slice(item) => self.knows_traits(item.get()),
            Ty::Ref { target, .. } => self.knows_traits(target.get()),
            Ty::Raw { target, .. } => self.knows_traits(target.get()),
            Ty::BoxOf(target) => self.knows_traits(target.get()),
            Ty::Dyn(path) => self.trait_named(path.as_bytes()).is_some(),
            Ty::Bool | Ty::Char | Ty::Int(_) | Ty::Never | Ty::Str | Ty::Named(_) => true,
        }
    }

    #[cycle(traits)]
    fn knows_all(&self, types: &[Ty]) -> bool
        ensures { result ≡ all_true (map (knows_traits self.now) types.now) }
    {
        let mut place = 0;
        while place < types.len() {
            if !self.knows_traits(&types[place]) {
                return false;
            }
            place += 1;
        }
        true
    }

    /// Whether the type is plain, so that `kani::any` may choose values of it.
    pub fn is_plain(&self, ty: &Ty) -> bool
        ensures { result ≡ is_plain self.now ty.now }
    {
        is_plain_by(&self.types.named, self.types.plain.as_slice(), ty)
    }
}
