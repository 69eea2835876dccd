//! What is made of connectives, quantifiers, and brackets.

ghost use Rattle.std.specs.Prelude.{◌≡◌, OnOk};
ghost use Rattle.pale_syntax.specs.MakingAssertions.{after_connective, begun};
ghost use Rattle.pale_build.specs.Building.{parts_of};
ghost use Rattle.pale_text.specs.Near.{near_of};

use crate::chains::{both, either, equivalent};
use crate::forms::{binding, implies, not_assertion, quantified};
use crate::names::nameless;
use crate::parts::Parts;
use crate::takes::{take_assertion, take_name, take_place, take_quantifier};
use pale_syntax::{Bracketed, ConnectiveAct, Quantifier, QuantifierKind};
use pale_text::{Near, Pos, place_of};
use plain_data::Items;
use std::alloc::{AllocError, Global};

/// A quantifier with nothing behind its keyword so far.
fn begun(alloc: Global, kind: QuantifierKind, place: Pos) -> Quantifier
    ensures { result ≡ begun kind place }
{
    Quantifier {
        kind,
        place,
        of_sets: false,
        names: Items::new(alloc),
        ty: nameless(alloc),
    }
}

impl Parts {
    pub fn perform_connective(&mut self, act: ConnectiveAct, near: Near) -> Result<(), AllocError>
        ensures { OnOk result (parts_of self.new ≡ after_connective act (near_of near.entry) (parts_of self.old)) }
    {
        match act {
            ConnectiveAct::JoinIff => {
                let other = take_assertion(&mut self.assertions);
                let one = take_assertion(&mut self.assertions);
                let made = equivalent(self.alloc, one, other)?;
                self.assertions.push(made)
            }
            ConnectiveAct::MakeImp => {
                let other = take_assertion(&mut self.assertions);
                let one = take_assertion(&mut self.assertions);
                let place = take_place(&mut self.places);
                let made = implies(self.alloc, one, place, other)?;
                self.assertions.push(made)
            }
            ConnectiveAct::JoinOr => {
                let other = take_assertion(&mut self.assertions);
                let one = take_assertion(&mut self.assertions);
                let made = either(self.alloc, one, other)?;
                self.assertions.push(made)
            }
            ConnectiveAct::JoinAnd => {
                let other = take_assertion(&mut self.assertions);
                let one = take_assertion(&mut self.assertions);
                let made = both(self.alloc, one, other)?;
                self.assertions.push(made)
            }
            ConnectiveAct::MakeNot => {
                let inner = take_assertion(&mut self.assertions);
                let place = take_place(&mut self.places);
                let made = not_assertion(self.alloc, place, inner)?;
                self.assertions.push(made)
            }
            ConnectiveAct::BeginEx => {
                let quantifier = begun(self.alloc, QuantifierKind::Ex, place_of(near.last));
                self.quantifiers.push(quantifier)
            }
            ConnectiveAct::BeginAll => {
                let quantifier = begun(self.alloc, QuantifierKind::All, place_of(near.last));
                self.quantifiers.push(quantifier)
            }
            ConnectiveAct::BindsSets => {
                let mut quantifier = take_quantifier(self.alloc, &mut self.quantifiers);
                quantifier.of_sets = true;
                self.quantifiers.push(quantifier)
            }
            ConnectiveAct::AddBound => {
                let quantifier = take_quantifier(self.alloc, &mut self.quantifiers);
                let name = take_name(self.alloc, &mut self.names);
                let made = binding(quantifier, name)?;
                self.quantifiers.push(made)
            }
            ConnectiveAct::MakeQuantified => {
                let quantifier = take_quantifier(self.alloc, &mut self.quantifiers);
                let ty = take_name(self.alloc, &mut self.names);
                let inner = take_assertion(&mut self.assertions);
                let made = quantified(self.alloc, quantifier, ty, inner)?;
                self.assertions.push(made)
            }
            ConnectiveAct::Bracket => {
                let assertion = take_assertion(&mut self.assertions);
                let place = take_place(&mut self.places);
                self.brackets.push(Bracketed { place, assertion })
            }
        }
    }
}
