//! What is made of calls.

ghost use Rattle.std.specs.Prelude.{◌≡◌, OnOk};
ghost use Rattle.pale_syntax.specs.MakingStatements.{after_call, call_of, without_call};
ghost use Rattle.pale_build.specs.Building.{parts_of};
ghost use Rattle.pale_text.specs.Near.{near_of};

use crate::parts::Parts;
use crate::statements::add_statement;
use crate::takes::{take_bracketed, take_name, take_place};
use pale_syntax::{Argument, Call, CallAct, Statement};
use pale_text::{Near, place_of};
use plain_data::Items;
use std::alloc::AllocError;
use std::mem;

impl Parts {
    pub fn perform_call(&mut self, act: CallAct, near: Near) -> Result<(), AllocError>
        ensures { OnOk result (parts_of self.new ≡ after_call act (near_of near.entry) (parts_of self.old)) }
    {
        match act {
            CallAct::TakeResult => {
                let name = take_name(self.alloc, &mut self.names);
                self.call_results.push(name)
            }
            CallAct::NameArgument => {
                let name = take_name(self.alloc, &mut self.names);
                self.arguments.push(Argument::Name(name))
            }
            CallAct::NullArgument => self.arguments.push(Argument::Null(place_of(near.last))),
            CallAct::TrueArgument => self
                .arguments
                .push(Argument::Truth(place_of(near.last), true)),
            CallAct::FalseArgument => self
                .arguments
                .push(Argument::Truth(place_of(near.last), false)),
            CallAct::TakeArguments => {
                self.given = mem::replace(&mut self.arguments, Items::new(self.alloc));
                Ok(())
            }
            CallAct::SetKeep => {
                let keep = take_bracketed(&mut self.brackets);
                drop(mem::replace(&mut self.keep, Some(keep)));
                Ok(())
            }
            CallAct::MakeCall => {
                let call = self.take_call();
                add_statement(self.alloc, &mut self.blocks, Statement::Call(call))
            }
        }
    }

    /// The call whose parts these are; they are taken.
    fn take_call(&mut self) -> Call
        ensures call { result ≡ call_of (parts_of self.old) }
        ensures left { parts_of self.new ≡ without_call (parts_of self.old) }
    {
        Call {
            place: take_place(&mut self.places),
            results: mem::replace(&mut self.call_results, Items::new(self.alloc)),
            callee: take_name(self.alloc, &mut self.names),
            arguments: mem::replace(&mut self.given, Items::new(self.alloc)),
            logics: mem::replace(&mut self.arguments, Items::new(self.alloc)),
            keep: mem::replace(&mut self.keep, None),
        }
    }
}
