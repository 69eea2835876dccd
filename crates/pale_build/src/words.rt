//! What is made of names: places, paths and terms.

ghost use Rattle.std.specs.Prelude.{◌≡◌, OnOk};
ghost use Rattle.pale_syntax.specs.MakingWords.{after_word};
ghost use Rattle.pale_build.specs.Building.{parts_of};
ghost use Rattle.pale_text.specs.Near.{near_of};

use crate::forms::extended;
use crate::names::name_of;
use crate::parts::Parts;
use crate::takes::{take_name, take_path};
use pale_syntax::{Path, Term, WordAct};
use pale_text::{Near, place_of};
use plain_data::Items;
use std::alloc::AllocError;

impl Parts {
    pub fn perform_word(&mut self, act: WordAct, near: Near) -> Result<(), AllocError>
        ensures { OnOk result (parts_of self.new ≡ after_word act (near_of near.entry) (parts_of self.old)) }
    {
        match act {
            WordAct::PushName => {
                let name = name_of(self.alloc, near.last)?;
                self.names.push(name)
            }
            WordAct::MarkPlace => self.places.push(place_of(near.last)),
            WordAct::MarkNext => self.places.push(place_of(near.next)),
            WordAct::StartPath => {
                let base = take_name(self.alloc, &mut self.names);
                let fields = Items::new(self.alloc);
                self.paths.push(Path { base, fields })
            }
            WordAct::ExtendPath => {
                let path = take_path(self.alloc, &mut self.paths);
                let field = take_name(self.alloc, &mut self.names);
                let longer = extended(path, field)?;
                self.paths.push(longer)
            }
            WordAct::PushNull => self.terms.push(Term::Null(place_of(near.last))),
            WordAct::PathTerm => {
                let path = take_path(self.alloc, &mut self.paths);
                self.terms.push(Term::Path(path))
            }
        }
    }
}
