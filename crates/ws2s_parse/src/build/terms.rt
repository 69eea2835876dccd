//! What is made of names and terms.

ghost use Rattle.std.specs.Prelude.{◌≡◌, OnOk};
ghost use Rattle.std.specs.Option.{option_copied};
ghost use Rattle.ws2s_parse.specs.Making.{after_term};
ghost use Rattle.ws2s_parse.specs.Building.{parts_of};

use super::names::name_of;
use super::parts::Parts;
use super::takes::{take_name, take_term};
use crate::grammar::TermAct;
use pale_text::{Token, place_of};
use plain_data::Items;
use std::alloc::AllocError;
use ws2s_syntax::{SourceBase, SourceTerm, Successor};

impl Parts {
    pub fn perform_term(&mut self, act: TermAct, last: Option<&Token>) -> Result<(), AllocError>
        ensures { OnOk result (parts_of self.new ≡ after_term act (option_copied last.entry) (parts_of self.old)) }
    {
        match act {
            TermAct::PushName => self.names.push(name_of(self.alloc, last)?),
            TermAct::StartRoot => {
                let base = SourceBase::Root(place_of(last));
                let steps = Items::new(self.alloc);
                self.terms.push(SourceTerm { base, steps })
            }
            TermAct::StartName => {
                let base = SourceBase::Name(take_name(self.alloc, &mut self.names));
                let steps = Items::new(self.alloc);
                self.terms.push(SourceTerm { base, steps })
            }
            TermAct::AddZero => {
                let mut term = take_term(self.alloc, &mut self.terms);
                term.steps.push(Successor::Zero)?;
                self.terms.push(term)
            }
            TermAct::AddOne => {
                let mut term = take_term(self.alloc, &mut self.terms);
                term.steps.push(Successor::One)?;
                self.terms.push(term)
            }
            TermAct::AddArgument => {
                let term = take_term(self.alloc, &mut self.terms);
                self.arguments.push(term)
            }
        }
    }
}
