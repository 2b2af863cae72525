ghost use Rattle.std.specs.Prelude.{◌≡◌, map};
ghost use Rattle.typed_program.specs.Hashes.{all_mixed, hash_of, level_hash, mixed, number_of_bool};

use mir_ir::Ty;
use vk_core::Name;

/// A prime by which numbers are spread.
const PRIME: u128 = 1099511628211;

/// 2^64
const NUMBERS: u128 = 18446744073709551616;

fn mixed(a: u64, b: u64) -> u64
    ensures { result ≡ mixed a b }
{
    ((a as u128 * PRIME + b as u128) % NUMBERS) as u64
}

fn number_of_bool(flag: bool) -> u64
    ensures { result ≡ number_of_bool flag }
{
    if flag { 1 } else { 0 }
}

fn mixed_bytes(seed: u64, bytes: &[u8]) -> u64
    ensures { result ≡ all_mixed seed bytes.now }
{
    let mut hash = seed;
    for byte in bytes {
        hash = mixed(hash, *byte as u64);
    }
    hash
}

fn mixed_name(seed: u64, name: &Name) -> u64
    ensures { result ≡ all_mixed seed name.now }
{
    mixed_bytes(seed, name.as_bytes())
}

/// A number that is told of a type, by which it is filed.
#[cycle(hashes)]
pub fn hash_of(ty: &Ty) -> u64
    ensures { result ≡ hash_of ty.now }
{
    level_hash(ty)
}

#[cycle(hashes)]
fn level_hash(ty: &Ty) -> u64
    ensures { result ≡ level_hash ty.now }
{
    match ty {
        Ty::Bool => 1,
        Ty::Char => 2,
        Ty::Int(int) => mixed(3, int.width() as u64),
        Ty::Never => 4,
        Ty::Str => 5,
        Ty::Tuple(items) => mixed_items(6, items.as_slice()),
        Ty::Array { item, count } => {
            mixed(mixed(7, hash_of(item.get())), (*count % NUMBERS) as u64)
        }
        Ty::Slice(item) => mixed(8, hash_of(item.get())),
        Ty::Ref { mutable, target } => {
            mixed(mixed(9, number_of_bool(*mutable)), hash_of(target.get()))
        }
        Ty::Raw { mutable, target } => {
            mixed(mixed(10, number_of_bool(*mutable)), hash_of(target.get()))
        }
        Ty::BoxOf(target) => mixed(11, hash_of(target.get())),
        Ty::Dyn(path) => mixed_name(12, path),
        Ty::Named(path) => mixed_name(13, path),
    }
}

#[cycle(hashes)]
fn mixed_items(seed: u64, items: &[Ty]) -> u64
    ensures { result ≡ all_mixed seed (map hash_of items.now) }
{
    let mut hash = seed;
    for item in items {
        hash = mixed(hash, hash_of(item));
    }
    hash
}
