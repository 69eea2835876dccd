//! What is made of assertions that have no others in them.

ghost use Rattle.std.specs.Prelude.{◌≡◌, OnOk};
ghost use Rattle.pale_syntax.specs.MakingAssertions.{after_atom, path_alone};
ghost use Rattle.pale_build.specs.Building.{parts_of};
ghost use Rattle.pale_text.specs.Near.{near_of};

use crate::forms::extended;
use crate::parts::Parts;
use crate::takes::{
    pathless, take_assertion, take_name, take_path, take_place, take_route, take_term,
};
use pale_syntax::{Assertion, AtomAct, Path, Term};
use pale_text::Near;
use plain_data::Items;
use std::alloc::{AllocError, Global};
use std::mem;

/// The path whose truth the assertion is.
fn path_alone(alloc: Global, one: Assertion) -> Path
    ensures { result ≡ path_alone one }
{
    match one {
        Assertion::Truth(path) => path,
        other => {
            drop(other);
            pathless(alloc)
        }
    }
}

impl Parts {
    pub fn perform_atom(&mut self, act: AtomAct, near: Near) -> Result<(), AllocError>
        ensures { OnOk result (parts_of self.new ≡ after_atom act (near_of near.entry) (parts_of self.old)) }
    {
        match act {
            AtomAct::TrueAssertion => self.assertions.push(Assertion::True),
            AtomAct::FalseAssertion => self.assertions.push(Assertion::False),
            AtomAct::PathAlone => {
                let path = take_path(self.alloc, &mut self.paths);
                self.assertions.push(Assertion::Truth(path))
            }
            AtomAct::ExtendPathAlone => {
                let alone = take_assertion(&mut self.assertions);
                let path = path_alone(self.alloc, alone);
                let field = take_name(self.alloc, &mut self.names);
                let longer = extended(path, field)?;
                self.assertions.push(Assertion::Truth(longer))
            }
            AtomAct::TakePathBack => {
                let alone = take_assertion(&mut self.assertions);
                let path = path_alone(self.alloc, alone);
                self.terms.push(Term::Path(path))
            }
            AtomAct::AddUsedPath => {
                let path = take_path(self.alloc, &mut self.paths);
                self.used.push(path)
            }
            AtomAct::MakeUse => {
                let alone = take_assertion(&mut self.assertions);
                let Path { base, fields: _ } = path_alone(self.alloc, alone);
                let used = mem::replace(&mut self.used, Items::new(self.alloc));
                self.assertions.push(Assertion::Use(base, used))
            }
            AtomAct::MakeSame => {
                let right = take_term(&mut self.terms);
                let left = take_term(&mut self.terms);
                let place = take_place(&mut self.places);
                self.assertions.push(Assertion::Same(left, place, right))
            }
            AtomAct::MakeDiffer => {
                let right = take_term(&mut self.terms);
                let left = take_term(&mut self.terms);
                let place = take_place(&mut self.places);
                self.assertions.push(Assertion::Differ(left, place, right))
            }
            AtomAct::MakeMember => {
                let term = take_term(&mut self.terms);
                let place = take_place(&mut self.places);
                let set = take_name(self.alloc, &mut self.names);
                self.assertions.push(Assertion::Member(term, place, set))
            }
            AtomAct::MakeSubset => {
                let term = take_term(&mut self.terms);
                let place = take_place(&mut self.places);
                let set = take_name(self.alloc, &mut self.names);
                self.assertions.push(Assertion::Subset(term, place, set))
            }
            AtomAct::MakeWalk => {
                let right = take_term(&mut self.terms);
                let left = take_term(&mut self.terms);
                let place = take_place(&mut self.places);
                let route = take_route(&mut self.routes);
                self.assertions
                    .push(Assertion::Walk(left, place, route, right))
            }
            AtomAct::MakeIs => {
                let term = take_term(&mut self.terms);
                let place = take_place(&mut self.places);
                let variant = take_name(self.alloc, &mut self.names);
                self.assertions.push(Assertion::Is(term, place, variant))
            }
        }
    }
}
