ghost use Rattle.std.specs.Prelude.{◌≡◌, ◌<◌, ℕ, [], length, slice_get, Some, IfOk, OnErr};
ghost use Rattle.sym_terms.specs.Terms.{Fits, AreFitting, IsValue, IsInserted, Keeps, KeepsInputs, width_of, term_width};

use crate::simpler::Simpler;
use crate::term::{Term, TermId};
use indexmap::IndexSet;
use std::alloc::Global;
use std::marker::Model;
use vk_core::NoMemory;

/// Terms in the order of their first insertion, none twice. Contracts see the list.
#[derive(Drop)]
pub struct Terms {
    terms: IndexSet<Term>,
    widths: Vec<u32>,
}

impl Model for Terms {
    ghost use Rattle.std.specs.Prelude.{List};
    ghost use Rattle.sym_terms.specs.declared.term.Term.{Term};

    ghost Value = { List Term };

    ghost use Rattle.sym_terms.specs.Inside.{terms_of, IsKept};

    ghost view = { terms_of };

    ghost invariant = { IsKept };
}

impl Terms {
    /// No terms.
    pub fn new(alloc: Global) -> Terms
        ensures { result ≡ [] }
    {
        Terms {
            terms: IndexSet::new(alloc),
            widths: Vec::new(alloc),
        }
    }

    /// How many terms there are: their ids are the numbers below. Each of them fits those before it.
    pub fn len(&self) -> usize
        ensures length { result ≡ length self.now }
        ensures fitting { AreFitting self.now }
    {
        self.terms.len()
    }

    /// The term with this id. Each term fits those before it, and its value is a word of its width under every
    /// assignment.
    pub fn term(&self, id: TermId) -> Term
        requires { id.0 < length self.now }
        ensures term { slice_get self.now id.0 ≡ Some result }
        ensures fitting { AreFitting self.now }
        ensures values { (inputs : ℕ → ℕ) → IsValue self.now inputs id.0 }
    {
        let Some(term) = self.terms.get_index(id.0) else {
            unreachable!()
        };
        *term
    }

    /// The width of the values of the term with this id.
    pub fn width(&self, id: TermId) -> u32
        requires { id.0 < length self.now }
        ensures { result ≡ width_of self.now id.0 }
    {
        self.widths[id.0]
    }

    /// An id of the value of a term. Ids that were given before keep their terms, also after an error.
    pub fn insert(&mut self, term: Term) -> Result<TermId, NoMemory>
        requires { Fits self.old term }
        ensures ok { IfOk result (λ id. IsInserted self.old self.new term id.0) }
        ensures err { OnErr result (Keeps self.old self.new) }
        ensures err_inputs { OnErr result (KeepsInputs self.old self.new) }
    {
        match self.simplest(term) {
            Simpler::Known(id) => Ok(id),
            Simpler::Other(other) => self.share(other),
            Simpler::WithConstant { op, a, constant } => {
                let b = self.share(Term::Constant(constant))?;
                let id = self.share(Term::Apply { op, a, b })?;
                Ok(id)
            }
        }
    }

    /// The width that the values of a term have.
    fn width_of_term(&self, term: Term) -> u32
        requires { Fits self.now term }
        ensures { result ≡ term_width (width_of self.now) term }
    {
        match term {
            Term::Constant(word) => word.width,
            Term::Input { number: _, width } => width,
            Term::Apply { op, a, b: _ } => { if op.is_test() { 1 } else { self.width(a) } }
            Term::Cast {
                a: _,
                signed: _,
                width,
            } => width,
            Term::Choose { test: _, a, b: _ } => self.width(a),
            Term::Slice {
                a: _,
                from: _,
                width,
            } => width,
        }
    }

    /// The id of a term as it is, which is added where it is not there.
    fn share(&mut self, term: Term) -> Result<TermId, NoMemory>
        requires { Fits self.old term }
        ensures ok { IfOk result (λ id. IsInserted self.old self.new term id.0) }
        ensures err { OnErr result (self.new ≡ self.old) }
    {
        let width = self.width_of_term(term);
        self.widths.reserve(1)?;
        let (at, is_new) = self.terms.insert_full(term)?;
        if is_new {
            self.widths.push(width)?;
        }
        Ok(TermId(at))
    }
}
