//! What each act makes.

ghost use Rattle.std.specs.Prelude.{◌≡◌, OnOk};
ghost use Rattle.pale_syntax.specs.Making.{after};
ghost use Rattle.pale_build.specs.Building.{parts_of};
ghost use Rattle.pale_text.specs.Near.{near_of};

use crate::parts::Parts;
use pale_syntax::Act;
use pale_text::Near;
use std::alloc::AllocError;

impl Parts {
    pub fn perform(&mut self, act: Act, near: Near) -> Result<(), AllocError>
        ensures { OnOk result (parts_of self.new ≡ after act (near_of near.entry) (parts_of self.old)) }
    {
        match act {
            Act::Word(act) => self.perform_word(act, near),
            Act::Route(act) => self.perform_route(act, near),
            Act::Condition(act) => self.perform_condition(act, near),
            Act::Atom(act) => self.perform_atom(act, near),
            Act::Connective(act) => self.perform_connective(act, near),
            Act::Statement(act) => self.perform_statement(act, near),
            Act::Call(act) => self.perform_call(act, near),
            Act::Type(act) => self.perform_type(act, near),
            Act::Predicate(act) => self.perform_predicate(act, near),
            Act::Procedure(act) => self.perform_procedure(act, near),
        }
    }
}
