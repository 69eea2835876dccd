//! What is made of procedures.

ghost use Rattle.std.specs.Prelude.{◌≡◌, OnOk};
ghost use Rattle.pale_syntax.specs.MakingDeclarations.{after_procedure, procedure_of, without_procedure};
ghost use Rattle.pale_build.specs.Building.{parts_of};
ghost use Rattle.pale_text.specs.Near.{near_of};

use crate::parts::Parts;
use crate::takes::{take_block, take_bracketed, take_name, take_place};
use pale_syntax::{Declaration, LogicParameter, Parameter, Procedure, ProcedureAct};
use pale_text::Near;
use plain_data::Items;
use std::alloc::AllocError;
use std::mem;

impl Parts {
    pub fn perform_procedure(&mut self, act: ProcedureAct, near: Near) -> Result<(), AllocError>
        ensures { OnOk result (parts_of self.new ≡ after_procedure act (near_of near.entry) (parts_of self.old)) }
    {
        match act {
            ProcedureAct::DataParameter => {
                let ty = take_name(self.alloc, &mut self.names);
                let name = take_name(self.alloc, &mut self.names);
                self.variables.push(Parameter::Data(name, ty))
            }
            ProcedureAct::PointerParameter => {
                let ty = take_name(self.alloc, &mut self.names);
                let name = take_name(self.alloc, &mut self.names);
                self.variables.push(Parameter::Pointer(name, ty))
            }
            ProcedureAct::BoolVariable => {
                let name = take_name(self.alloc, &mut self.names);
                self.variables.push(Parameter::Bool(name))
            }
            ProcedureAct::TakeParameters => {
                self.parameters = mem::replace(&mut self.variables, Items::new(self.alloc));
                Ok(())
            }
            ProcedureAct::TakeResults => {
                self.results = mem::replace(&mut self.variables, Items::new(self.alloc));
                Ok(())
            }
            ProcedureAct::LogicSet => {
                let ty = take_name(self.alloc, &mut self.names);
                let name = take_name(self.alloc, &mut self.names);
                self.logics.push(LogicParameter::Set(name, ty))
            }
            ProcedureAct::LogicBool => {
                let name = take_name(self.alloc, &mut self.names);
                self.logics.push(LogicParameter::Bool(name))
            }
            ProcedureAct::SetPre => {
                let pre = take_bracketed(&mut self.brackets);
                drop(mem::replace(&mut self.pre, Some(pre)));
                Ok(())
            }
            ProcedureAct::SetPost => {
                let post = take_bracketed(&mut self.brackets);
                drop(mem::replace(&mut self.post, Some(post)));
                Ok(())
            }
            ProcedureAct::AddProcedure => {
                let procedure = self.take_procedure();
                self.declarations.push(Declaration::Procedure(procedure))
            }
        }
    }

    /// The procedure whose parts these are; they are taken.
    fn take_procedure(&mut self) -> Procedure
        ensures procedure { result ≡ procedure_of (parts_of self.old) }
        ensures left { parts_of self.new ≡ without_procedure (parts_of self.old) }
    {
        let end = take_place(&mut self.places);
        Procedure {
            place: take_place(&mut self.places),
            name: take_name(self.alloc, &mut self.names),
            parameters: mem::replace(&mut self.parameters, Items::new(self.alloc)),
            results: mem::replace(&mut self.results, Items::new(self.alloc)),
            logics: mem::replace(&mut self.logics, Items::new(self.alloc)),
            pre: mem::replace(&mut self.pre, None),
            post: mem::replace(&mut self.post, None),
            locals: mem::replace(&mut self.variables, Items::new(self.alloc)),
            body: take_block(self.alloc, &mut self.blocks),
            end,
        }
    }
}
