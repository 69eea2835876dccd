//! Which states a space keeps, and their numbers.

ghost use Rattle.std.specs.Prelude.{◌≡◌, ◌<◌};
ghost use Rattle.gta_atom.specs.States.{count_of, wrong_number, number_of, known_of};

use crate::known::Known;

/// The states that a space keeps beside `Nothing`, which every space does. Their numbers are in the order `Nothing`,
/// `Found`, `Wrong`, `Half`.
#[derive(Clone, Copy, Debug, PartialEq, Eq)]
pub(crate) struct Kept {
    pub(crate) found: bool,
    pub(crate) wrong: bool,
    /// Only where both others are kept.
    pub(crate) half: bool,
}

impl Kept {
    /// How many states are kept.
    pub(crate) fn count(self) -> u32
        ensures value { result ≡ count_of self }
        ensures few { result < 5 }
    {
        let found = if self.found { 1 } else { 0 };
        let wrong = if self.wrong { 1 } else { 0 };
        let half = if self.half { 1 } else { 0 };
        1 + found + wrong + half
    }

    /// The number of a state, or of the one that is as good in this space.
    pub(crate) fn number(self, known: Known) -> u32
        ensures value { result ≡ number_of self known }
        ensures few { result < 4 }
    {
        match known {
            Known::Nothing => 0,
            Known::Found => { if self.found { 1 } else { self.wrong_number() } }
            Known::Wrong => self.wrong_number(),
            Known::Half => { if self.half { 3 } else { self.wrong_number() } }
        }
    }

    fn wrong_number(self) -> u32
        ensures value { result ≡ wrong_number self }
        ensures few { result < 3 }
    {
        if !self.wrong {
            0
        } else if self.found {
            2
        } else {
            1
        }
    }

    /// The state with a number.
    pub(crate) fn known(self, number: u32) -> Known
        ensures { result ≡ known_of self number }
    {
        match number {
            0 => Known::Nothing,
            1 => {
                if self.found {
                    Known::Found
                } else {
                    Known::Wrong
                }
            }
            2 => Known::Wrong,
            _ => Known::Half,
        }
    }
}
