//! The typing rules of MIR: which types operators and casts take and give. `specs/` has the whole of typing, for code and declarations.
#![tactic(auto)]

mod casts;
mod operators;
mod refusal;
mod types;
mod values;

pub use casts::is_cast;
pub use operators::{binary_type, neg_type, not_type, points_to_slice};
pub use refusal::{Refusal, TypeKind};
pub use types::{
    PointerKind, PointerTy, Scalar, is_sized, item_of, pointer_of, same_int, same_type, scalar_of,
};
pub use values::{ValueTy, is_unit};
