//! The literals that are true, in the order in which they became so.

ghost use Rattle.std.specs.Prelude.{◌≡◌, ℕ, ◌+◌, ◌*◌, ◌^◌, ◌<◌, ◌≤◌, ◌∷◌, ◌++◌, [], length, take, IsTrue, ◌↔◌, OnOk, IfOk, OnErr, Contains};
ghost use Rattle.region_pool.specs.Clauses.{IsLiteral};
ghost use Rattle.region_pool.specs.Literals.{negation};
ghost use Rattle.region_pool.specs.Refutation.{IsOpen, IsFalse};
ghost use Rattle.sat_core.specs.Steps.{literals_of_steps, step_at};

use std::alloc::Global;
use std::marker::Model;
use vk_core::NoMemory;

/// Why a literal is true.
#[derive(Clone, Copy, Debug, PartialEq, Eq)]
pub enum Cause {
    /// It was chosen.
    Decision,
    /// The clause with this number forces it.
    Clause(usize),
}

/// What a literal is under the steps of a trail.
#[derive(Clone, Copy, Debug, PartialEq, Eq)]
pub enum Truth {
    True,
    False,
    Open,
}

/// A literal that became true.
#[derive(Clone, Copy, Debug, PartialEq, Eq)]
pub struct Step {
    pub literal: u64,
    pub cause: Cause,
}

/// The steps so far, and the place of each literal among them.
#[derive(Drop)]
pub struct Trail {
    variables: usize,
    places: Vec<usize>,
    steps: Vec<Step>,
}

impl Model for Trail {
    ghost use Rattle.sat_core.specs.Trail.{Steps, IsPlaced};

    ghost Value = { Steps };

    ghost view = { λ t. record { variables = t.variables; steps = t.steps.items } };

    ghost invariant = { λ t. IsPlaced t.variables t.places.items t.steps.items };
}

/// The literal that is true where this one is false.
#[tactic(auto, using(crate::proofs::Negations::negation_even, crate::proofs::Negations::negation_odd))]
pub fn negation_of(literal: u64) -> u64
    ensures { result ≡ negation literal }
{
    if literal % 2 == 0 {
        literal + 1
    } else {
        literal - 1
    }
}

impl Trail {
    ghost use Rattle.sat_core.specs.Truths.{TruthIs};

    /// A trail without steps.
    pub fn new(alloc: Global, variables: usize) -> Result<Trail, NoMemory>
        ensures { IfOk result (λ trail. (trail.variables ≡ variables) × (trail.steps ≡ [])) }
    {
        let Some(literals) = variables.checked_mul(2) else {
            return Err(NoMemory);
        };
        let Ok(places) = vec![in alloc; 0; literals] else {
            return Err(NoMemory);
        };
        Ok(Trail {
            variables,
            places,
            steps: Vec::new(alloc),
        })
    }

    /// How many variables there are.
    pub fn variables(&self) -> usize
        ensures variables { result ≡ self.now.variables }
        ensures small { 2 * result < 2 ^ 64 }
    {
        self.variables
    }

    /// How many steps there are.
    pub fn len(&self) -> usize
        ensures { result ≡ length self.now.steps }
    {
        self.steps.len()
    }

    /// The step with this number.
    pub fn step(&self, at: usize) -> Step
        requires { at < length self.now.steps }
        ensures { result ≡ step_at self.now.steps at }
    {
        self.steps[at]
    }

    /// One more than the number of the step that made the literal true, and 0 where none did.
    pub fn place(&self, literal: u64) -> usize
        requires { IsLiteral self.now.variables literal }
        ensures within { result ≤ length self.now.steps }
        ensures here { (at : ℕ) → result ≡ at + 1 → (step_at self.now.steps at).literal ≡ literal }
        ensures there { (at : ℕ) → at < length self.now.steps → (step_at self.now.steps at).literal ≡ literal → result ≡ at + 1 }
    {
        self.places[literal as usize]
    }

    /// What the literal is.
    pub fn truth(&self, literal: u64) -> Truth
        requires { IsLiteral self.now.variables literal }
        ensures { TruthIs (literals_of_steps self.now.steps) literal result }
    {
        if self.places[literal as usize] != 0 {
            Truth::True
        } else if self.places[negation_of(literal) as usize] != 0 {
            Truth::False
        } else {
            Truth::Open
        }
    }

    /// Whether a step made the literal false.
    pub fn is_false(&self, literal: u64) -> bool
        requires { IsLiteral self.now.variables literal }
        ensures { IsTrue result ↔ IsFalse (literals_of_steps self.now.steps) literal }
    {
        self.is_true(negation_of(literal))
    }

    /// Whether a step made the literal true.
    pub fn is_true(&self, literal: u64) -> bool
        requires { IsLiteral self.now.variables literal }
        ensures { IsTrue result ↔ Contains (literals_of_steps self.now.steps) literal }
    {
        match self.truth(literal) {
            Truth::True => true,
            Truth::False | Truth::Open => false,
        }
    }

    /// Adds a step for a literal that is open.
    pub fn push(&mut self, literal: u64, cause: Cause) -> Result<(), NoMemory>
        requires literal { IsLiteral self.old.variables literal }
        requires open { IsOpen (literals_of_steps self.old.steps) literal }
        ensures ok { OnOk result
            (self.new ≡ record self.old { steps = self.old.steps ++ (record { literal = literal; cause = cause }) ∷ [] }) }
        ensures err { OnErr result (self.new ≡ self.old) }
    {
        self.steps.push(Step { literal, cause })?;
        self.places[literal as usize] = self.steps.len();
        Ok(())
    }

    /// Takes the steps from this number on away.
    pub fn cut(&mut self, at: usize)
        requires { at ≤ length self.old.steps }
        ensures { self.new ≡ record self.old { steps = take at self.old.steps } }
    {
        while self.steps.len() > at {
            if let Some(step) = self.steps.pop() {
                self.places[step.literal as usize] = 0;
            }
        }
    }
}
