use crate::gate::Gate;
use std::alloc::Global;
use vk_core::NoMemory;

/// How many places of the table are tried for a gate, and how many of them in each of three ranges.
pub const TRIES: usize = 3 * TRIES_IN_RANGE;

const TRIES_IN_RANGE: usize = 4;

/// How many places more the table has than it needs when it grows.
const STEP: usize = 1 << 14;

/// Numbers of gates by what the gates read, so that an equal gate is found without a walk. An entry is a
/// candidate alone: whoever takes it compares the gates. 0 marks a free place.
///
/// A gate stands within about a thousand places of the greatest literal that it reads. So what is looked up for gates
/// that are made one after another lies together, and no gate has to move when the table grows. Where many gates read
/// a few literals, as in a product, those that find no place there stand in a wider range behind the least literal, and
/// those that find none there in a wider one still.
#[derive(Drop)]
pub struct Table {
    places: Vec<u32>,
}

/// The first place that is tried for a gate in each range.
#[derive(Clone, Copy)]
pub struct Spot {
    near: usize,
    far: usize,
    wide: usize,
}

impl Spot {
    pub fn of(gate: &Gate) -> Spot {
        let word = mixed(gate);
        let (greatest, least) = extremes(gate);
        Spot {
            near: greatest.wrapping_add(word >> 54) as usize,
            far: least.wrapping_add(word >> 48) as usize,
            wide: (word >> 42) as usize,
        }
    }

    fn place(self, step: usize) -> usize {
        let first = if step < TRIES_IN_RANGE {
            self.near
        } else if step < 2 * TRIES_IN_RANGE {
            self.far
        } else {
            self.wide
        };
        first.wrapping_add(step % TRIES_IN_RANGE)
    }
}

impl Table {
    pub fn new(alloc: Global) -> Table {
        Table {
            places: Vec::new(alloc),
        }
    }

    /// The number of a gate that may be equal, by the number of the try.
    pub fn candidate(&self, spot: Spot, step: usize) -> Option<usize> {
        let at = *self.places.get(spot.place(step))?;
        if at == 0 { None } else { Some(at as usize) }
    }

    /// Remembers the number of a gate, in the place of another one if need be.
    pub fn note(&mut self, spot: Spot, at: usize) -> Result<(), NoMemory> {
        let Ok(number) = u32::try_from(at) else {
            return Ok(());
        };
        self.write(self.place_for(spot), number)?;
        Ok(())
    }

    /// The first free place among those that are tried, or the last of them.
    fn place_for(&self, spot: Spot) -> usize {
        for step in 0..TRIES {
            if self.candidate(spot, step).is_none() {
                return spot.place(step);
            }
        }
        spot.place(TRIES - 1)
    }

    fn write(&mut self, place: usize, number: u32) -> Result<(), NoMemory> {
        if place >= self.places.len() {
            self.places.resize(place.saturating_add(STEP), 0)?;
        }
        if place < self.places.len() {
            self.places[place] = number;
        }
        Ok(())
    }
}

/// The greatest and the least of the literals that the gate reads.
fn extremes(gate: &Gate) -> (u64, u64) {
    match *gate {
        Gate::True => (0, 0),
        Gate::And { a, b } => (a.max(b), a.min(b)),
        Gate::Xor { a, b } => (a.max(b), a.min(b)),
        Gate::Choose { test, a, b } => (test.max(a).max(b), test.min(a).min(b)),
    }
}

/// A number that differs for most gates.
fn mixed(gate: &Gate) -> u64 {
    match *gate {
        Gate::True => 0,
        Gate::And { a, b } => spread(spread(a) ^ b),
        Gate::Xor { a, b } => spread(spread(a ^ 1) ^ b ^ 0x5555_5555),
        Gate::Choose { test, a, b } => spread(spread(spread(test) ^ a) ^ b),
    }
}

fn spread(word: u64) -> u64 {
    let product = word.wrapping_mul(0x9E37_79B9_7F4A_7C15);
    product ^ (product >> 29)
}
