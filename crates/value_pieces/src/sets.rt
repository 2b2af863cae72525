/// A local.
pub const LOCALS: [u32; 2] = [30, 31];

/// What begins a place.
pub const PLACE_FIRSTS: [u32; 3] = [30, 31, 1];

/// `{`
pub const OPEN_BRACE: [u32; 1] = [5];

/// `}`
pub const CLOSE_BRACE: [u32; 1] = [6];

/// `:`
pub const COLON: [u32; 1] = [11];

/// `.`
pub const DOT: [u32; 1] = [13];

/// `-`
pub const MINUS: [u32; 1] = [19];

/// `of`
pub const OF: [u32; 1] = [119];

/// `copy`
pub const COPY: [u32; 1] = [120];

/// `move`
pub const MOVE: [u32; 1] = [121];

/// `true` and `false`.
pub const TRUTHS: [u32; 2] = [122, 123];

/// A number of its type.
pub const PLUS_NUMBERS: [u32; 2] = [36, 37];

/// A number that is one of its type behind a minus.
pub const MINUS_NUMBERS: [u32; 2] = [36, 38];

/// A text.
pub const TEXTS: [u32; 1] = [40];

/// A character.
pub const CHARACTERS: [u32; 1] = [41];

/// What begins a constant that is no path.
pub const CONSTANT_FIRSTS: [u32; 8] = [36, 37, 19, 41, 40, 1, 122, 123];

/// Words that begin a path at the place of a constant.
pub const CONSTANT_WORDS: [u32; 78] = [
    33, 100, 101, 102, 103, 104, 105, 106, 107, 108, 109, 110, 111, 112, 113, 114, 115, 116, 117,
    118, 119, 120, 121, 124, 125, 126, 127, 128, 129, 130, 131, 132, 133, 134, 135, 136, 137, 138,
    139, 140, 141, 142, 143, 144, 145, 146, 147, 148, 149, 150, 151, 152, 153, 154, 155, 156, 157,
    158, 159, 160, 161, 162, 163, 164, 165, 166, 167, 168, 169, 170, 171, 172, 173, 174, 175, 176,
    177, 178,
];

/// `copy`, `move` and `const`.
pub const MARKS: [u32; 3] = [120, 121, 116];

/// What begins an operand.
pub const OPERAND_FIRSTS: [u32; 6] = [30, 31, 1, 120, 121, 116];

/// `IntToInt` and `PtrToPtr`.
pub const PLAIN_KINDS: [u32; 2] = [152, 153];

/// `PointerCoercion`
pub const POINTER_COERCION: [u32; 1] = [154];

/// `Unsize` and `MutToConstPointer`.
pub const COERCIONS: [u32; 2] = [155, 156];

/// The operators of two operands.
pub const BINARIES: [u32; 20] = [
    124, 125, 126, 127, 128, 129, 130, 131, 132, 133, 134, 135, 136, 137, 138, 139, 140, 141, 142,
    143,
];

/// `Not`, `Neg` and `PtrMetadata`.
pub const UNARIES: [u32; 3] = [144, 145, 146];

/// `discriminant` and `Len`.
pub const MEASURES: [u32; 2] = [147, 148];

/// `SizeOf` and `AlignOf`.
pub const SIZES: [u32; 2] = [149, 150];

/// All these.
pub const OPERATORS: [u32; 27] = [
    124, 125, 126, 127, 128, 129, 130, 131, 132, 133, 134, 135, 136, 137, 138, 139, 140, 141, 142,
    143, 144, 145, 146, 147, 148, 149, 150,
];

/// `raw`
pub const RAW: [u32; 1] = [151];

/// What stands behind `(` in a tuple.
pub const TUPLE_SECONDS: [u32; 5] = [2, 9, 120, 121, 116];

/// Words that begin a value that is no path.
pub const VALUE_WORDS: [u32; 30] = [
    116, 120, 121, 124, 125, 126, 127, 128, 129, 130, 131, 132, 133, 134, 135, 136, 137, 138, 139,
    140, 141, 142, 143, 144, 145, 146, 147, 148, 149, 150,
];

/// Words that begin a path at the place of a value.
pub const FREE_WORDS: [u32; 50] = [
    33, 100, 101, 102, 103, 104, 105, 106, 107, 108, 109, 110, 111, 112, 113, 114, 115, 117, 118,
    119, 122, 123, 151, 152, 153, 154, 155, 156, 157, 158, 159, 160, 161, 162, 163, 164, 165, 166,
    167, 168, 169, 170, 171, 172, 173, 174, 175, 176, 177, 178,
];
