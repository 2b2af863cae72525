/// A place in a text. The first line and the first column are 1, and a column counts bytes.
#[derive(Clone, Copy, Debug, PartialEq, Eq)]
pub struct TextPlace {
    pub line: u32,
    pub column: u32,
}
