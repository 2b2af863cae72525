use mir_ir::Ty;
use sqlite_items::Items;

/// A type or a path: the type that it is, its canonical text as it stands in a longer path, and whether some path in it
/// is longer than 256 bytes. `argument` is the type argument of a path that is a built-in callee with one, and `start` is
/// where a path starts in the text.
#[derive(Debug, Drop)]
pub struct Named {
    pub ty: Ty,
    pub text: Items<u8>,
    pub is_long: bool,
    pub argument: Option<Ty>,
    pub start: usize,
}

/// What stands in the angle brackets of a path.
#[derive(Debug, Drop)]
pub enum Argument {
    TypeArgument(Named),
    OtherArgument(Items<u8>),
}

/// What a path begins with: a word, or another text, and whether a path in it is too long; with where it starts.
#[derive(Debug, Drop)]
pub enum Head {
    HeadWord(Items<u8>, usize),
    HeadText(Items<u8>, bool, usize),
}

/// How a path goes on: a word behind `::`, arguments, or an impl segment behind `::`.
#[derive(Debug, Drop)]
pub enum Step {
    StepWord(Items<u8>),
    StepArguments(Items<Argument>),
    StepImpl(Items<u8>),
}
