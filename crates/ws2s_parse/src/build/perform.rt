//! What each act makes.

ghost use Rattle.std.specs.Prelude.{◌≡◌, OnOk};
ghost use Rattle.ws2s_parse.specs.Making.{after};
ghost use Rattle.ws2s_parse.specs.Building.{parts_of};
ghost use Rattle.pale_text.specs.Near.{near_of};

use super::parts::Parts;
use crate::grammar::SourceAct;
use pale_text::Near;
use std::alloc::AllocError;

impl Parts {
    pub fn perform(&mut self, act: SourceAct, near: Near) -> Result<(), AllocError>
        ensures { OnOk result (parts_of self.new ≡ after act (near_of near.entry) (parts_of self.old)) }
    {
        match act {
            SourceAct::Item(act) => self.perform_item(act, near.last),
            SourceAct::Term(act) => self.perform_term(act, near.last),
            SourceAct::Atom(act) => self.perform_atom(act, near.last),
            SourceAct::Connective(act) => self.perform_connective(act, near.last),
        }
    }
}
