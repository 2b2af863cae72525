ghost use Rattle.std.specs.Prelude.{◌≡◌, ◌++◌, ◌*◌, ◌<◌, ◌^◌, map, min, OnOk, IfOk};
ghost use Rattle.type_layouts.specs.Extents.{alignment, behind, empty, number_extent, pointer_extent, repeated, repeated_held, rounded, rounded_up, within_bytes, within_parts};

use sqlite_items::Items;
use std::alloc::Global;
use vk_core::NoMemory;

/// Sizes above 4,096 bytes all count as this one.
const SIZE_ABOVE: u64 = 4097;

/// Counts above 16,384 parts all count as this one.
pub const PARTS_ABOVE: u64 = 16385;

/// What stands behind a pointer to the type: nothing beside it, a length, or a table of methods.
#[derive(Clone, Copy, Debug, PartialEq, Eq)]
pub enum Form {
    Sized,
    Slice,
    Dyn,
}

/// A declared type that lies inside a type, with no pointer between: its place among the declared ones, and how often it
/// lies there.
#[derive(Clone, Copy, Debug, PartialEq, Eq)]
pub struct Held {
    pub entry: usize,
    pub times: u64,
}

/// What a value of a type takes: bytes, parts that are in no declared type, and declared types. `is_unknown` says that the
/// type cannot be known: it has no declaration, or it is a `str` or a `Box` of a slice.
#[derive(Debug, Drop)]
pub struct Extent {
    pub form: Form,
    pub is_unknown: bool,
    pub size: u64,
    pub align: u64,
    pub parts: u64,
    pub held: Items<Held>,
}

/// A number of so many bytes.
pub fn number_extent(alloc: Global, size: u64) -> Extent
    ensures { result ≡ number_extent size }
{
    Extent {
        form: Form::Sized,
        is_unknown: false,
        size,
        align: size,
        parts: 1,
        held: Items::new(alloc),
    }
}

/// A type without bytes, which counts as one part.
pub fn empty(alloc: Global) -> Extent
    ensures { result ≡ empty }
{
    Extent {
        form: Form::Sized,
        is_unknown: false,
        size: 0,
        align: 1,
        parts: 1,
        held: Items::new(alloc),
    }
}

/// A type that has no size of its own, or that is not known.
pub fn without_size(alloc: Global, form: Form, is_unknown: bool) -> Extent
    ensures { result ≡ record empty { form = form; is_unknown = is_unknown } }
{
    Extent {
        form,
        is_unknown,
        size: 0,
        align: 1,
        parts: 1,
        held: Items::new(alloc),
    }
}

/// A pointer to a type of the form.
pub fn pointer_extent(alloc: Global, target: Form, is_unknown: bool) -> Extent
    ensures { result ≡ pointer_extent target is_unknown }
{
    let size = match target {
        Form::Sized => 8,
        Form::Slice => 16,
        Form::Dyn => 16,
    };
    Extent {
        form: Form::Sized,
        is_unknown,
        size,
        align: 8,
        parts: 1,
        held: Items::new(alloc),
    }
}

/// The least size of all that are counted alike, or the size.
pub fn within_bytes(size: u128) -> u64
    ensures { result ≡ within_bytes size }
{
    size.min(SIZE_ABOVE as u128) as u64
}

pub fn within_parts(parts: u128) -> u64
    ensures { result ≡ within_parts parts }
{
    parts.min(PARTS_ABOVE as u128) as u64
}

/// An alignment is at least 1.
pub fn alignment(align: u64) -> u64
    ensures { result ≡ alignment align }
{
    align.max(1)
}

/// The next multiple of an alignment.
fn rounded_up(size: u64, align: u64) -> u128
    ensures value { result ≡ rounded_up size align }
    ensures bound { result < 2 ^ 66 }
{
    let step = alignment(align) as u128;
    (size as u128 + (step - 1)) / step * step
}

/// The product, or the limit where it is more.
fn product_within(count: u128, number: u64, limit: u64) -> u64
    ensures { result ≡ min (count * number) limit }
{
    match count.checked_mul(number as u128) {
        Some(product) => product.min(limit as u128) as u64,
        None => limit,
    }
}

impl Extent {
    /// Puts an item behind, at the next multiple of its alignment. An error leaves something between.
    pub fn put_behind(&mut self, item: &Extent) -> Result<(), NoMemory>
        ensures { OnOk result (self.new ≡ behind self.old item.now) }
    {
        push_held(&mut self.held, item.held.as_slice())?;
        let start = rounded_up(self.size, item.align);
        self.size = within_bytes(start + item.size as u128);
        self.align = self.align.max(item.align);
        self.parts = within_parts(self.parts as u128 + item.parts as u128);
        Ok(())
    }

    /// With the size as the next multiple of the alignment.
    pub fn rounded(self) -> Extent
        ensures { result ≡ rounded self }
    {
        let Extent {
            form,
            is_unknown,
            size,
            align,
            parts,
            held,
        } = self;
        Extent {
            form,
            is_unknown,
            size: within_bytes(rounded_up(size, align)),
            align,
            parts,
            held,
        }
    }
}

fn push_held(out: &mut Items<Held>, more: &[Held]) -> Result<(), NoMemory>
    ensures { OnOk result (out.new ≡ out.old ++ more.now) }
{
    for held in more {
        out.push(*held)?;
    }
    Ok(())
}

fn push_repeated(out: &mut Items<Held>, count: u128, more: &[Held]) -> Result<(), NoMemory>
    ensures { OnOk result (out.new ≡ out.old ++ map (repeated_held count) more.now) }
{
    for held in more {
        out.push(Held {
            entry: held.entry,
            times: product_within(count, held.times, PARTS_ABOVE),
        })?;
    }
    Ok(())
}

/// So many items, one behind the other.
pub fn repeated(alloc: Global, count: u128, item: &Extent) -> Result<Extent, NoMemory>
    ensures { IfOk result (λ e. e ≡ repeated count item.now) }
{
    let mut held = Items::new(alloc);
    push_repeated(&mut held, count, item.held.as_slice())?;
    let parts = product_within(count, item.parts, PARTS_ABOVE);
    Ok(Extent {
        form: Form::Sized,
        is_unknown: false,
        size: product_within(count, item.size, SIZE_ABOVE),
        align: item.align,
        parts: within_parts(1 + parts as u128),
        held,
    })
}
