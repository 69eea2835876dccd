//! Which atoms were conjoined inside what was rewritten. It is for the choice of what is conjoined alone, so it promises
//! nothing.

use std::alloc::{AllocError, Global};
use std::collections::HashSet;
use ws2s_core::FormulaId;

/// An atom that was conjoined inside a formula.
#[derive(Clone, Copy, Debug, PartialEq, Eq, Hash)]
struct Use {
    atom: FormulaId,
    inside: FormulaId,
}

/// Which atoms were conjoined inside which formulas.
#[derive(Drop)]
pub(crate) struct Uses {
    uses: HashSet<Use>,
}

impl Uses {
    /// No uses. Takes no memory.
    pub(crate) fn new(alloc: Global) -> Uses {
        Uses {
            uses: HashSet::new(alloc),
        }
    }

    /// Whether the atom was conjoined inside the formula.
    pub(crate) fn has(&self, atom: FormulaId, inside: FormulaId) -> bool {
        self.uses.contains(&Use { atom, inside })
    }

    fn add(&mut self, atom: FormulaId, inside: FormulaId) -> Result<(), AllocError> {
        match self.uses.insert(Use { atom, inside }) {
            Ok(_) => Ok(()),
            Err(_) => Err(AllocError),
        }
    }

    /// The atoms are conjoined inside the formula.
    fn add_all(&mut self, atoms: &[FormulaId], inside: FormulaId) -> Result<(), AllocError> {
        for atom in atoms {
            self.add(*atom, inside)?;
        }
        Ok(())
    }

    /// The atoms are conjoined inside what is made of a part, where that is wanted; otherwise those of them are that were
    /// conjoined inside the part.
    pub(crate) fn bring(
        &mut self,
        atoms: &[FormulaId],
        is_wanted: bool,
        part: FormulaId,
        made: FormulaId,
    ) -> Result<(), AllocError> {
        if is_wanted {
            self.add_all(atoms, made)
        } else {
            self.pass_on(atoms, part, made)
        }
    }

    /// Those of the atoms that were conjoined inside a part are inside what is made of it.
    pub(crate) fn pass_on(
        &mut self,
        atoms: &[FormulaId],
        part: FormulaId,
        made: FormulaId,
    ) -> Result<(), AllocError> {
        for atom in atoms {
            if self.has(*atom, part) {
                self.add(*atom, made)?;
            }
        }
        Ok(())
    }
}
