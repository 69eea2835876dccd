//! The checked tree of a text.

ghost use Rattle.std.specs.Prelude.{◌≡◌};
ghost use Rattle.ws2s_syntax.specs.Checked.{Text, IsChecked};

use crate::declaration::{FreeList, PredicateList};
use crate::formula::TextFormulaList;
use std::marker::Model;

/// A WS2S text: its free variables, its predicates and its formulas, in order. Every name is in scope and of the
/// class that its place needs. Contracts see the three lists; `Satisfies` says what the text means.
#[derive(Debug, Drop)]
pub struct Ws2sText {
    free: FreeList,
    predicates: PredicateList,
    formulas: TextFormulaList,
}

impl Model for Ws2sText {
    ghost use Rattle.std.specs.Coded.{codes};
    ghost use Rattle.ws2s_syntax.specs.contracts.formula.TextFormula as text_formula;
    ghost use Rattle.ws2s_syntax.specs.Checked.{Text, IsChecked, text_of};

    ghost Value = { Text };

    ghost coded = { Prim.hlevel (codes, text_formula.the_row.coded) };

    ghost view = { λ text. text_of text.free text.predicates text.formulas };

    ghost invariant = { λ text. IsChecked (text_of text.free text.predicates text.formulas) };
}

impl Ws2sText {
    /// The text of these parts. Takes no memory.
    pub fn new(free: FreeList, predicates: PredicateList, formulas: TextFormulaList) -> Ws2sText
        requires { IsChecked (record { free = free; predicates = predicates; formulas = formulas }) }
        ensures { result ≡ record { free = free; predicates = predicates; formulas = formulas } }
    {
        Ws2sText {
            free,
            predicates,
            formulas,
        }
    }

    /// The free variables, in order of declaration. Takes no memory.
    pub fn free(&self) -> &FreeList
        ensures value { result.now ≡ self.now.free }
        ensures checked { IsChecked self.now }
    {
        &self.free
    }

    /// The predicates, in order of the text. Takes no memory.
    pub fn predicates(&self) -> &PredicateList
        ensures value { result.now ≡ self.now.predicates }
        ensures checked { IsChecked self.now }
    {
        &self.predicates
    }

    /// The formulas that the text states, in order. Takes no memory.
    pub fn formulas(&self) -> &TextFormulaList
        ensures value { result.now ≡ self.now.formulas }
        ensures checked { IsChecked self.now }
    {
        &self.formulas
    }
}
