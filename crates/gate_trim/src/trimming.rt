ghost use Rattle.std.specs.Prelude.{◌≡◌, IfOk, All, map};
ghost use Rattle.bit_gates.specs.Made.{AreIn};
ghost use Rattle.gate_trim.specs.Trimmed.{circuit, IsCircuit, IsTrimmed};

use crate::marks::wanted_gates;
use crate::moves::{Remade, move_gates, moved_words};
use bit_gates::Gate;
use std::alloc::Global;
use vk_core::NoMemory;

/// Gates, and words of literals of their variables and of the inputs.
#[derive(Drop)]
pub struct Trimmed {
    pub gates: Vec<Gate>,
    pub roots: Vec<Vec<u64>>,
}

/// The gates that some root needs. The words of the roots keep their order, their widths and their values.
pub fn trim(
    alloc: Global,
    inputs: usize,
    mut gates: Vec<Gate>,
    roots: &[Vec<u64>],
) -> Result<Trimmed, NoMemory>
    requires gates { IsCircuit (circuit inputs gates.items) }
    requires roots { All (λ word. AreIn (circuit inputs gates.items) word.items) roots.now }
    ensures { IfOk result (λ r. IsTrimmed (circuit inputs gates.items) (map (λ word. word.items) roots.now) (circuit inputs r.gates.items) (map (λ word. word.items) r.roots.items)) }
{
    let marks = wanted_gates(alloc, inputs, gates.as_slice(), roots)?;
    let Remade { kept, places } = move_gates(
        alloc,
        inputs,
        gates.as_mut_slice(),
        marks.as_slice(),
    )?;
    let words = moved_words(alloc, places.as_slice(), inputs, roots)?;
    gates.truncate(kept);
    Ok(Trimmed {
        gates,
        roots: words,
    })
}
