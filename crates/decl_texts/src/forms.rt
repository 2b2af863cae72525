ghost use Rattle.std.specs.Prelude.{◌≡◌};
ghost use Rattle.decl_texts.specs.Forms.{form_of, scalar_in, int_in};

use mir_ir::{IntTy, Ty};

/// A type whose values are numbers: an integer type, `bool` or `char`.
#[derive(Clone, Copy, Debug, PartialEq, Eq)]
pub enum Scalar {
    Bool,
    Char,
    Int(IntTy),
}

/// The outermost form of a type. `Tuple` has the count of items, and `Named` is a path that is no Box type.
#[derive(Clone, Copy, Debug, PartialEq, Eq)]
pub enum Form {
    Scalar(Scalar),
    Tuple(usize),
    Named,
    Other,
}

/// The outermost form of a type, without what is inside.
pub fn form_of(ty: &Ty) -> Form
    ensures { result ≡ form_of ty.now }
{
    match ty {
        Ty::Bool => Form::Scalar(Scalar::Bool),
        Ty::Char => Form::Scalar(Scalar::Char),
        Ty::Int(int) => Form::Scalar(Scalar::Int(*int)),
        Ty::Tuple(items) => Form::Tuple(items.len()),
        Ty::Named(_path) => Form::Named,
        _ => Form::Other,
    }
}

/// The scalar of this form, if it is one.
pub fn scalar_in(form: Form) -> Option<Scalar>
    ensures { result ≡ scalar_in form }
{
    match form {
        Form::Scalar(scalar) => Some(scalar),
        _ => None,
    }
}

/// The integer type of this form, if it is one.
pub fn int_in(form: Form) -> Option<IntTy>
    ensures { result ≡ int_in form }
{
    match form {
        Form::Scalar(Scalar::Int(int)) => Some(int),
        _ => None,
    }
}
