//! What was made last, taken for something larger. Where there is none, something plain stands for it.

ghost use Rattle.std.specs.Prelude.{◌≡◌};
ghost use Rattle.plain_data.specs.Stacks.{top, rest};
ghost use Rattle.ws2s_parse.specs.MakingParts.{nameless};
ghost use Rattle.ws2s_parse.specs.Making.{termless, formulaless, bindingless};

use super::binding::Binding;
use super::names::nameless;
use pale_text::nowhere;
use plain_data::{Items, Stack};
use std::alloc::Global;
use ws2s_syntax::{Quantifier, SourceBase, SourceFormula, SourceName, SourceTerm};

pub fn take_name(alloc: Global, names: &mut Stack<SourceName>) -> SourceName
    ensures taken { result ≡ top nameless names.old }
    ensures left { names.new ≡ rest names.old }
{
    names.take_or(nameless(alloc))
}

pub fn take_term(alloc: Global, terms: &mut Stack<SourceTerm>) -> SourceTerm
    ensures taken { result ≡ top termless terms.old }
    ensures left { terms.new ≡ rest terms.old }
{
    terms.take_or(SourceTerm {
        base: SourceBase::Root(nowhere()),
        steps: Items::new(alloc),
    })
}

pub fn take_formula(formulas: &mut Stack<SourceFormula>) -> SourceFormula
    ensures taken { result ≡ top formulaless formulas.old }
    ensures left { formulas.new ≡ rest formulas.old }
{
    formulas.take_or(SourceFormula::Truth(true))
}

pub fn take_binding(alloc: Global, bindings: &mut Stack<Binding>) -> Binding
    ensures taken { result ≡ top bindingless bindings.old }
    ensures left { bindings.new ≡ rest bindings.old }
{
    bindings.take_or(Binding {
        quantifier: Quantifier::Ex1,
        names: Items::new(alloc),
    })
}
