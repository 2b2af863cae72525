//! Which variable is decided next, and how: the one that had most to do with recent conflicts, as it was last. The search
//! takes this as a suggestion, which it tests.

ghost use Rattle.std.specs.Prelude.{◌≡◌, ◌+◌, ◌*◌, ◌<◌, vec_len, length, All, OnOk, IfOk, IfSome, MatchOption};
ghost use Rattle.sat_core.specs.Choice.{IsChoice};
ghost use Rattle.sat_core.specs.Steps.{literals_of_steps};

use crate::roles::Role;
use crate::trail::{Trail, Truth};
use std::alloc::Global;
use vk_core::NoMemory;

/// An activity above this makes all activities smaller.
const MOST_ACTIVE: f64 = 1e100;

/// What the activities are multiplied by then.
const SHRINK: f64 = 1e-100;

/// How much more a conflict counts than the one before.
const GROWTH: f64 = 1.05;

/// The variables by activity, in a binary heap, and the value that each had last.
#[derive(Drop)]
pub struct Order {
    // By variable.
    activities: Vec<f64>,
    phases: Vec<bool>,
    // The variables in the heap; no variable is more active than the one at half its place.
    heap: Vec<usize>,
    // By variable: one more than its place in the heap, or 0.
    places: Vec<usize>,
    // What a conflict adds.
    weight: f64,
    ghost phased: { length phases.items ≡ length activities.items },
    ghost placed: { length places.items ≡ length activities.items },
    ghost known: { All (λ variable. variable < length activities.items) heap.items },
}

impl Order {
    /// So many variables, none of them active, all false.
    pub fn new(alloc: Global, variables: usize) -> Result<Order, NoMemory> {
        let mut heap = Vec::new(alloc);
        let mut places = Vec::new(alloc);
        let mut activities = Vec::new(alloc);
        let mut phases = Vec::new(alloc);
        for variable in 0..variables {
            activities.push(0.0)?;
            phases.push(false)?;
            places.push(0)?;
            heap.push(variable)?;
        }
        Ok(Order {
            activities,
            phases,
            heap,
            places,
            weight: 1.0,
        })
    }

    /// Whether the variable at the one place is more active than that at the other.
    fn is_before(&self, one: usize, other: usize) -> bool
        requires one { one < length self.now.heap.items }
        requires other { other < length self.now.heap.items }
    {
        self.activities[self.heap[one]] > self.activities[self.heap[other]]
    }

    /// Puts a variable at a place.
    fn put(&mut self, at: usize, variable: usize)
        requires at { at < length self.old.heap.items }
        requires variable { variable < length self.old.activities.items }
        ensures heap { length self.new.heap.items ≡ length self.old.heap.items }
        ensures variables { length self.new.activities.items ≡ length self.old.activities.items }
    {
        self.heap[at] = variable;
        self.places[variable] = at + 1;
    }

    /// Exchanges the variables at two places.
    fn exchange(&mut self, one: usize, other: usize)
        requires one { one < length self.old.heap.items }
        requires other { other < length self.old.heap.items }
        ensures heap { length self.new.heap.items ≡ length self.old.heap.items }
        ensures variables { length self.new.activities.items ≡ length self.old.activities.items }
    {
        let first = self.heap[one];
        let second = self.heap[other];
        self.put(one, second);
        self.put(other, first);
    }

    /// Moves the variable at a place up, past those that are less active.
    fn move_up(&mut self, mut at: usize)
        requires { at < length self.old.heap.items }
        ensures heap { length self.new.heap.items ≡ length self.old.heap.items }
        ensures variables { length self.new.activities.items ≡ length self.old.activities.items }
    {
        while at > 0 {
            let above = (at - 1) / 2;
            if !self.is_before(at, above) {
                return;
            }
            self.exchange(at, above);
            at = above;
        }
    }

    /// The place of the more active of the variables below, where there are any.
    fn below(&self, at: usize) -> Option<usize>
        requires { at < length self.now.heap.items }
        ensures { IfSome result (λ below. (at < below) × (below < length self.now.heap.items)) }
    {
        let first = 2 * at + 1;
        let second = first + 1;
        if first >= self.heap.len() {
            None
        } else if second < self.heap.len() && self.is_before(second, first) {
            Some(second)
        } else {
            Some(first)
        }
    }

    /// Moves the variable at a place down, past those that are more active.
    fn move_down(&mut self, mut at: usize)
        requires { at < length self.old.heap.items }
        ensures heap { length self.new.heap.items ≡ length self.old.heap.items }
        ensures variables { length self.new.activities.items ≡ length self.old.activities.items }
    {
        while let Some(below) = self.below(at) {
            if !self.is_before(below, at) {
                return;
            }
            self.exchange(at, below);
            at = below;
        }
    }

    /// Takes the most active variable out.
    fn pop(&mut self) -> Option<usize>
        ensures { MatchOption result (length self.new.heap.items ≡ length self.old.heap.items)
            (λ variable. (variable < length self.new.activities.items) × (length self.new.heap.items + 1 ≡ length self.old.heap.items)) }
    {
        if self.heap.is_empty() {
            return None;
        }
        let first = self.heap[0];
        let last = self.heap.len() - 1;
        self.exchange(0, last);
        self.heap.pop();
        self.places[first] = 0;
        if !self.heap.is_empty() {
            self.move_down(0);
        }
        Some(first)
    }

    /// Puts a variable back, with the value that it had.
    pub fn put_back(&mut self, variable: usize, value: bool) -> Result<(), NoMemory> {
        if variable < self.phases.len() {
            self.phases[variable] = value;
            if self.places[variable] == 0 {
                self.heap.push(variable)?;
                let last = self.heap.len() - 1;
                self.places[variable] = last + 1;
                self.move_up(last);
            }
        }
        Ok(())
    }

    /// An open literal of the most active variable that has one, with the value that it had last.
    pub fn suggest(&mut self, trail: &Trail) -> Option<u64>
        ensures { IfSome result (IsChoice trail.now.variables (literals_of_steps trail.now.steps)) }
    {
        while let Some(variable) = self.pop() {
            if variable < trail.variables() {
                let literal = 2 * variable as u64 + u64::from(!self.phases[variable]);
                if let Truth::Open = trail.truth(literal) {
                    return Some(literal);
                }
            }
        }
        None
    }

    /// Makes all activities smaller by one factor.
    fn shrink(&mut self)
        ensures heap { length self.new.heap.items ≡ length self.old.heap.items }
        ensures variables { length self.new.activities.items ≡ length self.old.activities.items }
    {
        for variable in 0..self.activities.len() {
            self.activities[variable] *= SHRINK;
        }
        self.weight *= SHRINK;
    }

    /// Makes a variable more active.
    pub fn raise(&mut self, variable: usize) {
        if variable < self.activities.len() {
            self.activities[variable] += self.weight;
            if self.activities[variable] > MOST_ACTIVE {
                self.shrink();
            }
            let place = self.places[variable];
            if place != 0 && place <= self.heap.len() {
                self.move_up(place - 1);
            }
        }
    }

    /// Lets the next conflict count for more.
    pub fn age(&mut self) {
        self.weight *= GROWTH;
    }
}

/// Makes the variables of the steps with a role more active.
pub fn raise_steps(order: &mut Order, trail: &Trail, roles: &[Role])
    requires { length roles.now ≡ length trail.now.steps }
{
    for at in 0..trail.len() {
        if !matches!(roles[at], Role::Unused) {
            order.raise((trail.step(at).literal / 2) as usize);
        }
    }
    order.age();
}

/// Puts the variables of the steps from a place on back.
pub fn put_steps_back(order: &mut Order, trail: &Trail, cut: usize) -> Result<(), NoMemory> {
    for at in cut..trail.len() {
        let literal = trail.step(at).literal;
        order.put_back((literal / 2) as usize, literal % 2 == 0)?;
    }
    Ok(())
}
