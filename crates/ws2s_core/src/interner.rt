//! Numbers for formulas: equal ones exactly for equal formulas.

ghost use Rattle.std.specs.Prelude.{◌≡◌, ◌<◌, [], Some, IfOk, IfSome, OnErr, length, option_map, slice_get};
ghost use Rattle.ws2s_core.specs.Nodes.{formula_of_node, HasPartsBelow, IsOnceEach, AddsAtMost, Extends};
ghost use Rattle.ws2s_core.specs.Parts.{ArePartsOf};

use crate::formula::Formula;
use crate::node::{FormulaId, Node};
use crate::node_table::{NodeTable, place_formula, place_node};
use crate::parts::{FormulaIdList, parts_at};
use plain_data::at;
use std::alloc::{AllocError, Global};
use std::marker::Model;

/// The formulas that have a number. Contracts see the list of them, each at the place that its number names; it has
/// no formula twice.
#[derive(Drop)]
pub struct Interner {
    table: NodeTable,
}

impl Model for Interner {
    ghost use Rattle.std.specs.Prelude.{List};
    ghost use Rattle.ws2s_core.specs.declared.formula.Formula.{Formula};

    ghost Value = { List Formula };

    ghost use Rattle.ws2s_core.specs.contracts.formula.Formula as the_formula;
    ghost use Rattle.std.specs.Coded.{coded_list};

    ghost coded = { coded_list the_formula.the_row.coded };

    ghost use Rattle.ws2s_core.specs.Nodes.{formulas_of, IsIndexed};

    ghost view = { λ interner. formulas_of interner.table.nodes.items };

    ghost invariant = { λ interner. IsIndexed interner.table.nodes.items interner.table.places };
}

impl Interner {
    /// An interner without formulas. Takes no memory.
    pub fn new(alloc: Global) -> Interner
        ensures { result ≡ [] }
    {
        Interner {
            table: NodeTable::new(alloc),
        }
    }

    /// The form of the formula with a number, over the numbers of its parts, which are lower. `None` exactly for an
    /// unknown number. Takes constant time, and no memory.
    pub fn form(&self, id: FormulaId) -> Option<Node>
        ensures value { option_map (formula_of_node self.now) result ≡ slice_get self.now id.0 }
        ensures parts { IfSome result (λ node. HasPartsBelow id.0 node) }
        ensures once { IsOnceEach self.now }
    {
        at(self.table.nodes.as_slice(), id.0 as usize).copied()
    }

    /// The numbers of all parts of a formula, its own among them, each once, the lowest first: so after those of its own
    /// parts.
    ///
    /// Looks at the parts alone, each once, however many formulas there are and in however many places a part stands.
    /// For each part it takes time by the logarithm of how many numbers wait at once to be looked at.
    ///
    /// # Errors
    ///
    /// Want of memory.
    pub fn parts(&self, alloc: Global, id: FormulaId) -> Result<FormulaIdList, AllocError>
        requires { id.0 < length self.now }
        ensures { IfOk result (λ ids. ArePartsOf self.now id.0 ids) }
    {
        parts_at(alloc, self.table.nodes.as_slice(), id.0)
    }
}

/// The number of a formula that is given by its form over numbers: the one that it has, or a new one. Takes expected
/// constant time.
///
/// # Errors
///
/// Want of memory, also where the formulas are more than a `u32` numbers. The interner is then as it was.
pub fn intern_form(interner: &mut Interner, form: Node) -> Result<FormulaId, AllocError>
    requires { HasPartsBelow (length interner.old) form }
    ensures value { IfOk result (λ id. slice_get interner.new id.0 ≡ Some (formula_of_node interner.old form)) }
    ensures kept { Extends interner.old interner.new }
    ensures added { AddsAtMost interner.old (formula_of_node interner.old form) interner.new }
    ensures once { IsOnceEach interner.new }
    ensures err { OnErr result (interner.new ≡ interner.old) }
{
    let place = place_node(&mut interner.table, form)?;
    Ok(FormulaId(place))
}

/// The number of a formula: the one that it has, or a new one. Its parts get numbers too.
///
/// Takes expected constant time for each node of the formula, and goes over it by loops, however deep it is.
///
/// # Errors
///
/// Want of memory, also where the formulas are more than a `u32` numbers. The interner is then as it was.
pub fn intern(
    alloc: Global,
    interner: &mut Interner,
    formula: &Formula,
) -> Result<FormulaId, AllocError>
    ensures value { IfOk result (λ id. slice_get interner.new id.0 ≡ Some formula.now) }
    ensures kept { Extends interner.old interner.new }
    ensures once { IsOnceEach interner.new }
    ensures err { OnErr result (interner.new ≡ interner.old) }
{
    let place = place_formula(alloc, &mut interner.table, formula)?;
    Ok(FormulaId(place))
}
