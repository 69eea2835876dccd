//! What is made of items.

ghost use Rattle.std.specs.Prelude.{◌≡◌, OnOk};
ghost use Rattle.std.specs.Option.{option_copied};
ghost use Rattle.ws2s_parse.specs.Making.{after_item};
ghost use Rattle.ws2s_parse.specs.Building.{parts_of};

use super::names::name_of;
use super::parts::Parts;
use super::takes::{take_formula, take_name};
use crate::grammar::ItemAct;
use pale_text::Token;
use plain_data::Items;
use std::alloc::AllocError;
use std::mem;
use ws2s_syntax::{Class, SourceItem, SourceParameter};

impl Parts {
    pub fn perform_item(&mut self, act: ItemAct, last: Option<&Token>) -> Result<(), AllocError>
        ensures { OnOk result (parts_of self.new ≡ after_item act (option_copied last.entry) (parts_of self.old)) }
    {
        match act {
            ItemAct::AddVariable => self.variables.push(name_of(self.alloc, last)?),
            ItemAct::DeclarePositions => {
                let names = mem::replace(&mut self.variables, Items::new(self.alloc));
                self.items
                    .push(SourceItem::Variables(Class::Position, names))
            }
            ItemAct::DeclareSets => {
                let names = mem::replace(&mut self.variables, Items::new(self.alloc));
                self.items.push(SourceItem::Variables(Class::Set, names))
            }
            ItemAct::PositionParameter => {
                let class = Class::Position;
                let name = name_of(self.alloc, last)?;
                self.parameters.push(SourceParameter { class, name })
            }
            ItemAct::SetParameter => {
                let class = Class::Set;
                let name = name_of(self.alloc, last)?;
                self.parameters.push(SourceParameter { class, name })
            }
            ItemAct::AddPredicate => {
                let name = take_name(self.alloc, &mut self.names);
                let parameters = mem::replace(&mut self.parameters, Items::new(self.alloc));
                let body = take_formula(&mut self.formulas);
                self.items
                    .push(SourceItem::Predicate(name, parameters, body))
            }
            ItemAct::AddFormula => {
                let formula = take_formula(&mut self.formulas);
                self.items.push(SourceItem::Formula(formula))
            }
        }
    }
}
