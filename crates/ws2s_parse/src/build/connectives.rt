//! What is made of connectives and quantifiers.

ghost use Rattle.std.specs.Prelude.{◌≡◌, [], ◌∷◌, IfOk, OnOk};
ghost use Rattle.std.specs.Option.{option_copied};
ghost use Rattle.ws2s_parse.specs.MakingParts.{name_of};
ghost use Rattle.ws2s_parse.specs.Making.{after_connective, both, either, equivalent, quantified, with_binding, with_bound};
ghost use Rattle.ws2s_parse.specs.Building.{parts_of};

use super::binding::Binding;
use super::names::name_of;
use super::parts::Parts;
use super::takes::{take_binding, take_formula};
use crate::grammar::ConnectiveAct;
use pale_text::Token;
use plain_data::{Boxed, Items};
use std::alloc::{AllocError, Global};
use ws2s_syntax::{Connective, Quantifier, SourceFormula};

/// A chain of two formulas.
fn chain(
    alloc: Global,
    connective: Connective,
    one: SourceFormula,
    other: SourceFormula,
) -> Result<SourceFormula, AllocError>
    ensures { IfOk result (λ formula. formula ≡ SourceFormula.Chain connective one (other ∷ [])) }
{
    let mut others = Items::new(alloc);
    others.push(other)?;
    Ok(SourceFormula::Chain(connective, Boxed::new(alloc, one)?, others))
}

/// Both formulas: the second goes to the end of a chain.
fn both(
    alloc: Global,
    one: SourceFormula,
    other: SourceFormula,
) -> Result<SourceFormula, AllocError>
    ensures { IfOk result (λ formula. formula ≡ both one other) }
{
    match one {
        SourceFormula::Chain(Connective::And, first, mut others) => {
            others.push(other)?;
            Ok(SourceFormula::Chain(Connective::And, first, others))
        }
        one => chain(alloc, Connective::And, one, other),
    }
}

/// Either formula: the second goes to the end of a chain.
fn either(
    alloc: Global,
    one: SourceFormula,
    other: SourceFormula,
) -> Result<SourceFormula, AllocError>
    ensures { IfOk result (λ formula. formula ≡ either one other) }
{
    match one {
        SourceFormula::Chain(Connective::Or, first, mut others) => {
            others.push(other)?;
            Ok(SourceFormula::Chain(Connective::Or, first, others))
        }
        one => chain(alloc, Connective::Or, one, other),
    }
}

/// The formulas are equivalent: the second goes to the end of a chain.
fn equivalent(
    alloc: Global,
    one: SourceFormula,
    other: SourceFormula,
) -> Result<SourceFormula, AllocError>
    ensures { IfOk result (λ formula. formula ≡ equivalent one other) }
{
    match one {
        SourceFormula::Chain(Connective::Iff, first, mut others) => {
            others.push(other)?;
            Ok(SourceFormula::Chain(Connective::Iff, first, others))
        }
        one => chain(alloc, Connective::Iff, one, other),
    }
}

fn implication(
    alloc: Global,
    one: SourceFormula,
    other: SourceFormula,
) -> Result<SourceFormula, AllocError>
    ensures { IfOk result (λ formula. formula ≡ SourceFormula.Implies one other) }
{
    let one = Boxed::new(alloc, one)?;
    Ok(SourceFormula::Implies(one, Boxed::new(alloc, other)?))
}

/// What the quantifier's names are bound in.
fn quantify(
    alloc: Global,
    binding: Binding,
    body: SourceFormula,
) -> Result<SourceFormula, AllocError>
    ensures { IfOk result (λ formula. formula ≡ quantified binding body) }
{
    let Binding { quantifier, names } = binding;
    let body = Boxed::new(alloc, body)?;
    Ok(SourceFormula::Quantified(quantifier, names, body))
}

impl Parts {
    pub fn perform_connective(
        &mut self,
        act: ConnectiveAct,
        last: Option<&Token>,
    ) -> Result<(), AllocError>
        ensures { OnOk result (parts_of self.new ≡ after_connective act (option_copied last.entry) (parts_of self.old)) }
    {
        match act {
            ConnectiveAct::JoinIff => {
                let other = take_formula(&mut self.formulas);
                let one = take_formula(&mut self.formulas);
                self.formulas.push(equivalent(self.alloc, one, other)?)
            }
            ConnectiveAct::MakeImplies => {
                let other = take_formula(&mut self.formulas);
                let one = take_formula(&mut self.formulas);
                self.formulas.push(implication(self.alloc, one, other)?)
            }
            ConnectiveAct::JoinOr => {
                let other = take_formula(&mut self.formulas);
                let one = take_formula(&mut self.formulas);
                self.formulas.push(either(self.alloc, one, other)?)
            }
            ConnectiveAct::JoinAnd => {
                let other = take_formula(&mut self.formulas);
                let one = take_formula(&mut self.formulas);
                self.formulas.push(both(self.alloc, one, other)?)
            }
            ConnectiveAct::MakeNot => {
                let inner = Boxed::new(self.alloc, take_formula(&mut self.formulas))?;
                self.formulas.push(SourceFormula::Not(inner))
            }
            ConnectiveAct::BeginEx1 => self.begin(Quantifier::Ex1),
            ConnectiveAct::BeginAll1 => self.begin(Quantifier::All1),
            ConnectiveAct::BeginEx2 => self.begin(Quantifier::Ex2),
            ConnectiveAct::BeginAll2 => self.begin(Quantifier::All2),
            ConnectiveAct::AddBound => self.add_bound(last),
            ConnectiveAct::MakeQuantified => {
                let binding = take_binding(self.alloc, &mut self.bindings);
                let body = take_formula(&mut self.formulas);
                self.formulas.push(quantify(self.alloc, binding, body)?)
            }
        }
    }

    /// A quantifier that binds no name so far.
    fn begin(&mut self, quantifier: Quantifier) -> Result<(), AllocError>
        ensures { OnOk result (parts_of self.new ≡ with_binding quantifier (parts_of self.old)) }
    {
        let names = Items::new(self.alloc);
        self.bindings.push(Binding { quantifier, names })
    }

    /// One name more of the quantifier that began last.
    fn add_bound(&mut self, last: Option<&Token>) -> Result<(), AllocError>
        ensures { OnOk result (parts_of self.new ≡ with_bound (name_of (option_copied last.entry)) (parts_of self.old)) }
    {
        let mut binding = take_binding(self.alloc, &mut self.bindings);
        binding.names.push(name_of(self.alloc, last)?)?;
        self.bindings.push(binding)
    }
}
