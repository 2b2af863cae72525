use vk_core::{BlockId, CheckClass};

/// A fault of a run of a function: the block, the statement (the terminator counts as the last) and the class.
#[derive(Clone, Copy, Debug, PartialEq, Eq)]
pub struct Breach {
    pub block: BlockId,
    pub index: u32,
    pub class: CheckClass,
}
