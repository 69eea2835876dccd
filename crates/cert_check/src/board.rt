//! What the checker keeps of the steps that it has looked at.

ghost use Rattle.std.specs.Prelude.{◌≡◌, ◌<◌, [], length, slice_get, Some};
ghost use Rattle.cert_check.specs.declared.board.Base.{Base};
ghost use Rattle.cert_check.specs.declared.board.Part.{Part};
ghost use Rattle.cert_check.specs.Boards.{AreInside};

use cert_tables::Table;
use plain_data::Items;
use ws2s_core::FormulaId;

/// The automaton of a part that isn't a negation, and whether no state of space 0 that it reaches accepts, or rejects.
#[derive(Debug, Drop)]
pub(crate) struct Base {
    pub(crate) table: Table,
    pub(crate) never_accepts: bool,
    pub(crate) never_rejects: bool,
}

/// The automaton of a part: that of a base, or its complement.
#[derive(Clone, Copy, Debug)]
pub(crate) struct Part {
    pub(crate) base: usize,
    pub(crate) is_negated: bool,
}

/// The automata of the parts, by their numbers.
#[derive(Debug, Drop)]
pub(crate) struct Board {
    pub(crate) bases: Items<Base>,
    pub(crate) parts: Items<Part>,
}

/// The automaton of a part: its table, and whether it's the complement.
pub(crate) fn automaton_of<'a>(
    bases: &'a [Base],
    parts: &[Part],
    id: FormulaId,
) -> (&'a Table, bool)
    requires inside { AreInside bases.now parts.now }
    requires known { id.0 < length parts.now }
    ensures { (part : Part) (base : Base) → slice_get parts.now id.0 ≡ Some part → slice_get bases.now part.base ≡ Some base →
        (result.0.now ≡ base.table) × (result.1 ≡ part.is_negated) }
{
    let part = parts[id.0 as usize];
    (&bases[part.base].table, part.is_negated)
}
