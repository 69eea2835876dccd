//! What is made of the declarations of types and predicates.

ghost use Rattle.std.specs.Prelude.{◌≡◌, OnOk};
ghost use Rattle.pale_syntax.specs.MakingDeclarations.{after_type, after_predicate};
ghost use Rattle.pale_build.specs.Building.{parts_of};
ghost use Rattle.pale_text.specs.Near.{near_of};

use crate::parts::Parts;
use crate::takes::{take_bracketed, take_name, take_place, take_route};
use pale_syntax::{
    Declaration, FieldDeclaration, FieldForm, PredicateAct, PredicateDeclaration,
    PredicateParameter, TypeAct, TypeDeclaration, VariantDeclaration,
};
use pale_text::Near;
use plain_data::Items;
use std::alloc::AllocError;
use std::mem;

impl Parts {
    pub fn perform_type(&mut self, act: TypeAct, near: Near) -> Result<(), AllocError>
        ensures { OnOk result (parts_of self.new ≡ after_type act (near_of near.entry) (parts_of self.old)) }
    {
        match act {
            TypeAct::BoolField => {
                let name = take_name(self.alloc, &mut self.names);
                let form = FieldForm::Bool;
                self.fields.push(FieldDeclaration { name, form })
            }
            TypeAct::DataField => {
                let form = FieldForm::Data(take_name(self.alloc, &mut self.names));
                let name = take_name(self.alloc, &mut self.names);
                self.fields.push(FieldDeclaration { name, form })
            }
            TypeAct::PointerField => {
                let target = take_name(self.alloc, &mut self.names);
                let place = take_place(&mut self.places);
                let form = FieldForm::Pointer(target, place, take_route(&mut self.routes));
                let name = take_name(self.alloc, &mut self.names);
                self.fields.push(FieldDeclaration { name, form })
            }
            TypeAct::EndCommon => {
                self.common = mem::replace(&mut self.fields, Items::new(self.alloc));
                Ok(())
            }
            TypeAct::AddVariant => {
                let name = take_name(self.alloc, &mut self.names);
                let fields = mem::replace(&mut self.fields, Items::new(self.alloc));
                self.variants.push(VariantDeclaration { name, fields })
            }
            TypeAct::AddType => {
                let declared = TypeDeclaration {
                    name: take_name(self.alloc, &mut self.names),
                    fields: mem::replace(&mut self.common, Items::new(self.alloc)),
                    variants: mem::replace(&mut self.variants, Items::new(self.alloc)),
                };
                self.declarations.push(Declaration::Type(declared))
            }
        }
    }

    pub fn perform_predicate(&mut self, act: PredicateAct, near: Near) -> Result<(), AllocError>
        ensures { OnOk result (parts_of self.new ≡ after_predicate act (near_of near.entry) (parts_of self.old)) }
    {
        match act {
            PredicateAct::CellParameter => {
                let ty = take_name(self.alloc, &mut self.names);
                let name = take_name(self.alloc, &mut self.names);
                self.predicate_parameters
                    .push(PredicateParameter::Cell(name, ty))
            }
            PredicateAct::SetParameter => {
                let ty = take_name(self.alloc, &mut self.names);
                let name = take_name(self.alloc, &mut self.names);
                self.predicate_parameters
                    .push(PredicateParameter::Set(name, ty))
            }
            PredicateAct::BoolParameter => {
                let name = take_name(self.alloc, &mut self.names);
                self.predicate_parameters
                    .push(PredicateParameter::Bool(name))
            }
            PredicateAct::AddPredicate => {
                let declared = PredicateDeclaration {
                    name: take_name(self.alloc, &mut self.names),
                    parameters: mem::replace(
                        &mut self.predicate_parameters,
                        Items::new(self.alloc),
                    ),
                    body: take_bracketed(&mut self.brackets),
                };
                self.declarations.push(Declaration::Predicate(declared))
            }
        }
    }
}
