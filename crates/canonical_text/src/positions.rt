/// Where a path begins, by what else may begin there.
#[derive(Clone, Copy, Debug, PartialEq, Eq)]
pub enum Position {
    /// A rvalue, or the function of a call.
    AsValue,
    /// The constant behind `const`.
    AsConstant,
    /// A type, also as a part of another.
    AsType,
    /// The name of a function, or a trait behind `as` or `dyn`: nothing else begins there.
    Alone,
}
