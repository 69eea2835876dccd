//! What is made of formulas that have no others in them.

ghost use Rattle.std.specs.Prelude.{◌≡◌, OnOk};
ghost use Rattle.std.specs.Option.{option_copied};
ghost use Rattle.ws2s_parse.specs.Making.{after_atom};
ghost use Rattle.ws2s_parse.specs.Building.{parts_of};

use super::names::name_of;
use super::parts::Parts;
use super::takes::{take_name, take_term};
use crate::grammar::AtomAct;
use pale_text::Token;
use plain_data::Items;
use std::alloc::AllocError;
use std::mem;
use ws2s_syntax::SourceFormula;

impl Parts {
    pub fn perform_atom(&mut self, act: AtomAct, last: Option<&Token>) -> Result<(), AllocError>
        ensures { OnOk result (parts_of self.new ≡ after_atom act (option_copied last.entry) (parts_of self.old)) }
    {
        match act {
            AtomAct::TrueFormula => self.formulas.push(SourceFormula::Truth(true)),
            AtomAct::FalseFormula => self.formulas.push(SourceFormula::Truth(false)),
            AtomAct::MakeEmpty => {
                let set = name_of(self.alloc, last)?;
                self.formulas.push(SourceFormula::Empty(set))
            }
            AtomAct::MakeUse => {
                let name = take_name(self.alloc, &mut self.names);
                let arguments = mem::replace(&mut self.arguments, Items::new(self.alloc));
                self.formulas.push(SourceFormula::Use(name, arguments))
            }
            AtomAct::MakeSame => {
                let right = take_term(self.alloc, &mut self.terms);
                let left = take_term(self.alloc, &mut self.terms);
                self.formulas.push(SourceFormula::Same(left, right))
            }
            AtomAct::MakeDiffer => {
                let right = take_term(self.alloc, &mut self.terms);
                let left = take_term(self.alloc, &mut self.terms);
                self.formulas.push(SourceFormula::Differ(left, right))
            }
            AtomAct::MakeIn => {
                let term = take_term(self.alloc, &mut self.terms);
                let set = name_of(self.alloc, last)?;
                self.formulas.push(SourceFormula::In(term, set))
            }
            AtomAct::MakeNotIn => {
                let term = take_term(self.alloc, &mut self.terms);
                let set = name_of(self.alloc, last)?;
                self.formulas.push(SourceFormula::NotIn(term, set))
            }
            AtomAct::MakeSub => {
                let term = take_term(self.alloc, &mut self.terms);
                let set = name_of(self.alloc, last)?;
                self.formulas.push(SourceFormula::Sub(term, set))
            }
        }
    }
}
