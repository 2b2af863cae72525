//! Sets of classes of tokens, as the grammar numbers them.

/// A label.
pub const LABEL: [u32; 1] = [32];

/// `=`
pub const EQUALS: [u32; 1] = [14];

/// `!`
pub const NOT: [u32; 1] = [17];

/// `->`
pub const ARROW: [u32; 1] = [20];

/// `unwind`
pub const UNWIND: [u32; 1] = [170];

/// `continue` and `unreachable`, as what `unwind` does.
pub const EDGE_WORDS: [u32; 2] = [171, 164];

/// `terminate`
pub const TERMINATE: [u32; 1] = [172];

/// `return`
pub const RETURN: [u32; 1] = [163];

/// `success`
pub const SUCCESS: [u32; 1] = [169];

/// `StorageLive`
pub const STORAGE_LIVE: [u32; 1] = [157];

/// `StorageDead`
pub const STORAGE_DEAD: [u32; 1] = [158];

/// `nop` and `ConstEvalCounter`
pub const NOTHING_WORDS: [u32; 2] = [159, 160];

/// `PlaceMention`
pub const PLACE_MENTION: [u32; 1] = [161];

/// `discriminant`
pub const DISCRIMINANT: [u32; 1] = [147];

/// `goto`
pub const GOTO: [u32; 1] = [162];

/// `unreachable`
pub const UNREACHABLE: [u32; 1] = [164];

/// `switchInt`
pub const SWITCH: [u32; 1] = [165];

/// `otherwise`
pub const OTHERWISE: [u32; 1] = [166];

/// `drop`
pub const DROP: [u32; 1] = [167];

/// `assert`
pub const ASSERT: [u32; 1] = [168];

/// `resume`
pub const RESUME: [u32; 1] = [173];

/// What begins a value that is no path.
pub const FORMED_VALUE_FIRSTS: [u32; 35] = [
    30, 31, 1, 15, 3, 116, 120, 121, 124, 125, 126, 127, 128, 129, 130, 131, 132, 133, 134, 135,
    136, 137, 138, 139, 140, 141, 142, 143, 144, 145, 146, 147, 148, 149, 150,
];

/// Words that begin a statement.
pub const STATEMENT_WORDS: [u32; 6] = [157, 158, 159, 160, 161, 147];

/// Words that end a cleanup block besides.
pub const RESUME_WORDS: [u32; 2] = [173, 172];
