//! How many atoms and how many `new` stand in code, up to one more than are allowed.

ghost use Rattle.std.specs.Prelude.{◌≡◌, ◌+◌, ◌≤◌, min};
ghost use Rattle.store_exec.specs.Fits.{news_of_act};
ghost use Rattle.hoare_split.specs.Triples.{count_fault};

use pale_text::{Pos, Refusal, RefusalKind};
use std::cmp::min;
use store_logic::{Act, Rhs};

/// The most atoms of a triple's code.
const MOST_ATOMS: u32 = 128;

/// The most `new` in a triple's code.
const MOST_NEWS: u32 = 64;

/// Numbers of atoms and of `new`. A number of more than are allowed is kept as one more than are allowed, since the code of many
/// branches one after the other has more than any type counts.
#[derive(Clone, Copy, Debug, PartialEq, Eq)]
pub struct Count {
    pub atoms: u32,
    pub news: u32,
}

impl Count {
    pub(crate) const ZERO: Count = Count { atoms: 0, news: 0 };

    /// So many atoms without `new`.
    pub(crate) fn of_atoms(atoms: u32) -> Count
        ensures { result ≡ record { atoms = min 129 atoms; news = 0 } }
    {
        Count {
            atoms: min(MOST_ATOMS + 1, atoms),
            news: 0,
        }
    }

    pub(crate) fn of_act(act: &Act) -> Count
        ensures { result ≡ record { atoms = 1; news = news_of_act act.now } }
    {
        match act {
            Act::Assign(_, Rhs::New(_)) => Count { atoms: 1, news: 1 },
            Act::Assign(_, _) | Act::Free(_) | Act::Assert(_) => Count { atoms: 1, news: 0 },
        }
    }

    /// Both together.
    pub(crate) fn and(self, other: Count) -> Count
        ensures { result ≡ record { atoms = min 129 (self.atoms + other.atoms); news = min 65 (self.news + other.news) } }
    {
        Count {
            atoms: min(MOST_ATOMS + 1, self.atoms.saturating_add(other.atoms)),
            news: min(MOST_NEWS + 1, self.news.saturating_add(other.news)),
        }
    }

    /// What is refused at the keyword where the code's triple starts.
    pub(crate) fn fault(self, place: Pos) -> Option<Refusal>
        ensures { result ≡ count_fault place self.atoms self.news }
    {
        if self.atoms > MOST_ATOMS {
            Some(Refusal::at(place, RefusalKind::LongPart))
        } else if self.news > MOST_NEWS {
            Some(Refusal::at(place, RefusalKind::ManyNew))
        } else {
            None
        }
    }
}
