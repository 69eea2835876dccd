//! What the automaton of an atom knows of a tree.

ghost use Rattle.std.specs.Prelude.{◌≡◌};
ghost use Rattle.gta_atom.specs.States.{known_step, known_at_root, is_held, beside};

/// What the positions of a tree say of an atom.
#[derive(Clone, Copy, Debug, PartialEq, Eq)]
pub(crate) enum Known {
    /// Nothing that counts.
    Nothing,
    /// The atom holds, if nothing more comes that counts.
    Found,
    /// The atom doesn't hold, whatever comes.
    Wrong,
    /// The root is the child that a successor asks for: the parent has to come next.
    Half,
}

/// The forms of atoms.
#[derive(Clone, Copy, Debug, PartialEq, Eq)]
pub(crate) enum Form {
    Sub,
    Single,
    Root,
    Succ0,
    Succ1,
}

impl Form {
    /// What is known of a tree, by what is known of its two halves and by which of the sets have its root.
    pub(crate) fn step(self, left: Known, right: Known, first: bool, second: bool) -> Known
        ensures { result ≡ known_step self left right first second }
    {
        match self {
            Form::Succ1 => self.at_root(both(right, left), first, second),
            Form::Sub | Form::Single | Form::Root | Form::Succ0 => {
                self.at_root(both(left, right), first, second)
            }
        }
    }

    /// The same where one half, for a successor the one on the other side, has nothing.
    fn at_root(self, half: Known, first: bool, second: bool) -> Known
        ensures { result ≡ known_at_root self half first second }
    {
        match half {
            Known::Nothing => self.at_first(first, second),
            Known::Found => self.after_find(first, second),
            Known::Half => self.after_half(first, second),
            Known::Wrong => Known::Wrong,
        }
    }

    fn at_first(self, first: bool, second: bool) -> Known
        ensures { result ≡ known_at_root self Known.Nothing first second }
    {
        match self {
            Form::Sub => {
                if first && !second {
                    Known::Wrong
                } else {
                    Known::Nothing
                }
            }
            Form::Single | Form::Root => { if first { Known::Found } else { Known::Nothing } }
            Form::Succ0 | Form::Succ1 => {
                if first {
                    Known::Wrong
                } else if second {
                    Known::Half
                } else {
                    Known::Nothing
                }
            }
        }
    }

    fn after_find(self, first: bool, second: bool) -> Known
        ensures { result ≡ known_at_root self Known.Found first second }
    {
        match self {
            Form::Sub | Form::Root => Known::Wrong,
            Form::Single => { if first { Known::Wrong } else { Known::Found } }
            Form::Succ0 | Form::Succ1 => {
                if first || second {
                    Known::Wrong
                } else {
                    Known::Found
                }
            }
        }
    }

    fn after_half(self, first: bool, second: bool) -> Known
        ensures { result ≡ known_at_root self Known.Half first second }
    {
        match self {
            Form::Sub | Form::Single | Form::Root => Known::Wrong,
            Form::Succ0 | Form::Succ1 => {
                if first && !second {
                    Known::Found
                } else {
                    Known::Wrong
                }
            }
        }
    }

    /// Whether the atom holds.
    pub(crate) fn holds(self, known: Known) -> bool
        ensures { result ≡ is_held self known }
    {
        match known {
            Known::Nothing => self == Form::Sub,
            Known::Found => self != Form::Sub,
            Known::Wrong | Known::Half => false,
        }
    }
}

/// What two halves say together: nothing that counts on the second one changes nothing.
fn both(near: Known, far: Known) -> Known
    ensures { result ≡ beside near far }
{
    match far {
        Known::Nothing => near,
        Known::Found => match near {
            Known::Nothing => Known::Found,
            Known::Found | Known::Wrong | Known::Half => Known::Wrong,
        },
        Known::Wrong | Known::Half => Known::Wrong,
    }
}
