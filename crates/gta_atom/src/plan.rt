//! How the automaton of an atom is made.

ghost use Rattle.std.specs.Prelude.{◌≡◌, ◌==◌, false};
ghost use Rattle.gta_atom.specs.Atom.{IsAtom};
ghost use Rattle.gta_atom.specs.Plans.{IsPlanOf, kept_in};
ghost use Rattle.gta_atom.specs.Children.{test_of};
ghost use Rattle.gta_atom.specs.States.{kept_of};

use crate::child_test::ChildTest;
use crate::kept::Kept;
use crate::known::Form;
use ws2s_core::{Formula, Track};

/// The form of an atom and its tracks. An atom of one track twice holds always or never: it is constant.
#[derive(Clone, Copy, Debug)]
pub(crate) struct Plan {
    pub(crate) form: Form,
    pub(crate) first: u32,
    /// The first track again, where the form has one.
    pub(crate) second: u32,
    pub(crate) constant: bool,
}

/// The plan of an atom.
pub(crate) fn plan_of(f: &Formula) -> Plan
    requires { IsAtom f.now }
    ensures { IsPlanOf result f.now }
{
    match f {
        Formula::Sub(x, y) => of_two(Form::Sub, *x, *y),
        Formula::Single(x) => of_one(Form::Single, *x),
        Formula::Succ0(x, y) => of_two(Form::Succ0, *x, *y),
        Formula::Succ1(x, y) => of_two(Form::Succ1, *x, *y),
        Formula::Root(x) => of_one(Form::Root, *x),
        Formula::And(_, _) | Formula::Not(_) | Formula::Ex2(_, _) => unreachable!(),
    }
}

fn of_one(form: Form, track: Track) -> Plan
    ensures { result ≡ record { form = form; first = track.0; second = track.0; constant = false } }
{
    Plan {
        form,
        first: track.0,
        second: track.0,
        constant: false,
    }
}

fn of_two(form: Form, first: Track, second: Track) -> Plan
    ensures { result ≡ record { form = form; first = first.0; second = second.0; constant = second.0 == first.0 } }
{
    Plan {
        form,
        first: first.0,
        second: second.0,
        constant: second.0 == first.0,
    }
}

impl Plan {
    /// The states that a space keeps.
    pub(crate) fn kept(self, test: &ChildTest, space: u32) -> Kept
        ensures { result ≡ kept_in self (test_of test.now) space }
    {
        if self.constant {
            return Kept {
                found: false,
                wrong: false,
                half: false,
            };
        }
        let below = test.is_child(false, space) || test.is_child(true, space);
        let by_letter = test.is_child(self.form == Form::Succ1, space);
        kept_by(self.form, below, by_letter, space == 0)
    }
}

/// The states that a space keeps, by whether it is a child, one by the letter of the form, and the root's.
fn kept_by(form: Form, below: bool, by_letter: bool, top: bool) -> Kept
    ensures { result ≡ kept_of form below by_letter top }
{
    match form {
        Form::Sub => Kept {
            found: false,
            wrong: below || top,
            half: false,
        },
        Form::Single => Kept {
            found: below || top,
            wrong: below,
            half: false,
        },
        Form::Root => Kept {
            found: top,
            wrong: below,
            half: false,
        },
        Form::Succ0 | Form::Succ1 => Kept {
            found: below || top,
            wrong: below,
            half: below && by_letter,
        },
    }
}
