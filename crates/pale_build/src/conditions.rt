//! What is made of the conditions of code.

ghost use Rattle.std.specs.Prelude.{◌≡◌, OnOk};
ghost use Rattle.pale_syntax.specs.MakingConditions.{after_condition, term_alone};
ghost use Rattle.pale_build.specs.Building.{parts_of};
ghost use Rattle.pale_text.specs.Near.{near_of};

use crate::chains::{both_conditions, either_condition};
use crate::forms::not_condition;
use crate::parts::Parts;
use crate::takes::{take_condition, take_name, take_place, take_term};
use pale_syntax::{Condition, ConditionAct, Term};
use pale_text::{Near, nowhere, place_of};
use std::alloc::AllocError;

/// The term whose truth the condition is.
fn term_alone(one: Condition) -> Term
    ensures { result ≡ term_alone one }
{
    match one {
        Condition::Truth(term) => term,
        other => {
            drop(other);
            Term::Null(nowhere())
        }
    }
}

impl Parts {
    pub fn perform_condition(&mut self, act: ConditionAct, near: Near) -> Result<(), AllocError>
        ensures { OnOk result (parts_of self.new ≡ after_condition act (near_of near.entry) (parts_of self.old)) }
    {
        match act {
            ConditionAct::TrueCondition => {
                self.conditions.push(Condition::True(place_of(near.last)))
            }
            ConditionAct::FalseCondition => {
                self.conditions.push(Condition::False(place_of(near.last)))
            }
            ConditionAct::TermAlone => {
                let term = take_term(&mut self.terms);
                self.conditions.push(Condition::Truth(term))
            }
            ConditionAct::TakeTermBack => {
                let condition = take_condition(&mut self.conditions);
                self.terms.push(term_alone(condition))
            }
            ConditionAct::SameAs => {
                let right = take_term(&mut self.terms);
                let left = take_term(&mut self.terms);
                let place = take_place(&mut self.places);
                self.conditions.push(Condition::Same(left, place, right))
            }
            ConditionAct::NotSameAs => {
                let right = take_term(&mut self.terms);
                let left = take_term(&mut self.terms);
                let place = take_place(&mut self.places);
                self.conditions.push(Condition::Differ(left, place, right))
            }
            ConditionAct::OfVariant => {
                let term = take_term(&mut self.terms);
                let place = take_place(&mut self.places);
                let variant = take_name(self.alloc, &mut self.names);
                self.conditions.push(Condition::Is(term, place, variant))
            }
            ConditionAct::NotCondition => {
                let place = take_place(&mut self.places);
                let inner = take_condition(&mut self.conditions);
                let made = not_condition(self.alloc, place, inner)?;
                self.conditions.push(made)
            }
            ConditionAct::JoinAndAlso => {
                let other = take_condition(&mut self.conditions);
                let one = take_condition(&mut self.conditions);
                let made = both_conditions(self.alloc, one, other)?;
                self.conditions.push(made)
            }
            ConditionAct::JoinOrElse => {
                let other = take_condition(&mut self.conditions);
                let one = take_condition(&mut self.conditions);
                let made = either_condition(self.alloc, one, other)?;
                self.conditions.push(made)
            }
        }
    }
}
