ghost use Rattle.std.specs.Prelude.{◌≡◌, Decides};
ghost use Rattle.std.specs.List.{list_any};
ghost use Rattle.layout_rules.specs.Placing.{ShareAByte, is_misaligned, is_multiple, is_outside, is_overlapping, is_spot_misaligned, is_spot_outside, share_a_byte, some_share, tag_passes, with_tag};

use sqlite_items::Items;
use type_layouts::{Outline, Spot, alignment};

fn is_multiple(number: u64, align: u64) -> bool
    ensures { result ≡ is_multiple number align }
{
    number % alignment(align) == 0
}

fn is_spot_misaligned(align: u64, spot: Spot) -> bool
    ensures { result ≡ is_spot_misaligned align spot }
{
    !is_multiple(spot.offset, spot.align) || alignment(align) < alignment(spot.align)
}

fn is_spot_outside(size: u64, spot: Spot) -> bool
    ensures { result ≡ is_spot_outside size spot }
{
    (size as u128) < spot.offset as u128 + spot.size as u128
}

#[tactic(auto, using(crate::proofs::PlacingLaws::share_tells))]
fn share_a_byte(a: Spot, b: Spot) -> bool
    ensures value { result ≡ share_a_byte a b }
    ensures byte { Decides result (ShareAByte a b) }
{
    let start = a.offset.max(b.offset) as u128;
    let a_end = a.offset as u128 + a.size as u128;
    let b_end = b.offset as u128 + b.size as u128;
    start < a_end.min(b_end)
}

fn some_misaligned(align: u64, spots: &[Spot]) -> bool
    ensures { result ≡ list_any (is_spot_misaligned align) spots.now }
{
    for spot in spots {
        if is_spot_misaligned(align, *spot) {
            return true;
        }
    }
    false
}

fn some_group_misaligned(align: u64, groups: &[Items<Spot>]) -> bool
    ensures { result ≡ list_any (list_any (is_spot_misaligned align)) groups.now }
{
    for group in groups {
        if some_misaligned(align, group.as_slice()) {
            return true;
        }
    }
    false
}

fn some_outside(size: u64, spots: &[Spot]) -> bool
    ensures { result ≡ list_any (is_spot_outside size) spots.now }
{
    for spot in spots {
        if is_spot_outside(size, *spot) {
            return true;
        }
    }
    false
}

fn some_group_outside(size: u64, groups: &[Items<Spot>]) -> bool
    ensures { result ≡ list_any (list_any (is_spot_outside size)) groups.now }
{
    for group in groups {
        if some_outside(size, group.as_slice()) {
            return true;
        }
    }
    false
}

/// Whether the size, a field or the tag is at no multiple of its alignment, or is aligned to more than the type.
#[tactic(auto, unfolding(crate::specs::Placing::is_misaligned))]
pub fn is_misaligned(outline: &Outline) -> bool
    ensures { result ≡ is_misaligned outline.now }
{
    let tag = match outline.tag {
        None => false,
        Some(tag) => is_spot_misaligned(outline.align, tag),
    };
    !is_multiple(outline.size, outline.align)
        || (tag || some_group_misaligned(outline.align, outline.groups.as_slice()))
}

/// Whether a field or the tag ends past the size.
#[tactic(auto, unfolding(crate::specs::Placing::is_outside))]
pub fn is_outside(outline: &Outline) -> bool
    ensures { result ≡ is_outside outline.now }
{
    let tag = match outline.tag {
        None => false,
        Some(tag) => is_spot_outside(outline.size, tag),
    };
    tag || some_group_outside(outline.size, outline.groups.as_slice())
}

/// A spot without bytes shares none, so that it is not held against the others.
#[tactic(auto, using(crate::proofs::PlacingLaws::empty_shares))]
fn shares_with(spot: Spot, others: &[Spot]) -> bool
    ensures { result ≡ list_any (share_a_byte spot) others.now }
{
    if spot.size == 0 {
        return false;
    }
    for other in others {
        if share_a_byte(spot, *other) {
            return true;
        }
    }
    false
}

fn some_share(spots: &[Spot]) -> bool
    ensures { result ≡ some_share spots.now }
{
    let mut left = spots;
    while let [spot, rest @ ..] = left {
        if shares_with(*spot, rest) {
            return true;
        }
        left = rest;
    }
    false
}

fn some_share_beside(tag: Option<Spot>, spots: &[Spot]) -> bool
    ensures { result ≡ some_share (with_tag tag spots.now) }
{
    match tag {
        None => some_share(spots),
        Some(tag) => shares_with(tag, spots) || some_share(spots),
    }
}

fn some_group_shares(tag: Option<Spot>, groups: &[Items<Spot>]) -> bool
    ensures { result ≡ list_any (λ spots. some_share (with_tag tag spots)) groups.now }
{
    for group in groups {
        if some_share_beside(tag, group.as_slice()) {
            return true;
        }
    }
    false
}

/// Whether two fields of a struct or of a variant, or a field and the tag, have a byte in common.
#[tactic(auto, unfolding(crate::specs::Placing::is_overlapping))]
pub fn is_overlapping(outline: &Outline) -> bool
    ensures { result ≡ is_overlapping outline.now }
{
    some_group_shares(outline.tag, outline.groups.as_slice())
}
