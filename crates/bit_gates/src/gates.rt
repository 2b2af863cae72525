use crate::gate::Gate;

/// A bit of the number of an input, the lowest bit being 0.
#[derive(Clone, Copy, Debug, PartialEq, Eq)]
pub struct InputBit {
    pub number: usize,
    pub bit: u32,
}

/// Gates for some words. The variables are the input bits in order, and then the gates in order. Each root has one
/// literal a bit, the lowest first.
#[derive(Drop)]
pub struct Gates {
    pub inputs: Vec<InputBit>,
    pub gates: Vec<Gate>,
    pub roots: Vec<Vec<u64>>,
}
