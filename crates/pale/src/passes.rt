//! The program's passes: what the four rewriters do, each with a bound on the formulas that it takes, and their list.

ghost use Rattle.std.specs.Prelude.{◌≤◌, ◌↔◌, IsTrue, IfOk, Ok, length};
ghost use Rattle.ws2s_core.specs.declared.formula.Formula.{Formula};
ghost use Rattle.ws2s_core.specs.Postfix.{postfix_of};
ghost use Rattle.ws2s_pass.specs.Rewriting.{IsRewriting};

use plain_data::Items;
use std::alloc::{AllocError, Global};
use ws2s_core::{Formula, symbols_of};
use ws2s_narrow::narrow_scope;
use ws2s_pass::{Pass, PassList, PassName, Rewriter, drop_unused, flatten_not, fold_constants};

/// A formula with more nodes is left as it is.
const BOUND: usize = 1_000_000;

/// The name of a pass.
fn name(alloc: Global, text: &str) -> Result<PassName, AllocError> {
    Ok(PassName(Items::from_slice(alloc, text.as_bytes())?))
}

/// Whether a formula is within the bound: it has a symbol for each node. The time is linear in the number of nodes.
fn is_within_bound(alloc: Global, formula: &Formula) -> Result<bool, AllocError>
    ensures { IfOk result (λ within. IsTrue within ↔ (length (postfix_of formula.now) ≤ 1000000)) }
{
    let symbols = symbols_of(alloc, formula)?;
    Ok(symbols.len() <= BOUND)
}

/// `flatten_not` within the bound.
pub(crate) fn flattened(alloc: Global, formula: &Formula) -> Result<Formula, AllocError>
    ensures { IfOk result (λ made. IsRewriting formula.now made) }
{
    if is_within_bound(alloc, formula)? {
        flatten_not(alloc, formula)
    } else {
        formula.copy(alloc)
    }
}

/// `fold_constants` within the bound.
pub(crate) fn folded(alloc: Global, formula: &Formula) -> Result<Formula, AllocError>
    ensures { IfOk result (λ made. IsRewriting formula.now made) }
{
    if is_within_bound(alloc, formula)? {
        fold_constants(alloc, formula)
    } else {
        formula.copy(alloc)
    }
}

/// `narrow_scope` within the bound.
pub(crate) fn narrowed(alloc: Global, formula: &Formula) -> Result<Formula, AllocError>
    ensures { IfOk result (λ made. IsRewriting formula.now made) }
{
    if is_within_bound(alloc, formula)? {
        narrow_scope(alloc, formula)
    } else {
        formula.copy(alloc)
    }
}

/// `drop_unused` within the bound.
pub(crate) fn dropped(alloc: Global, formula: &Formula) -> Result<Formula, AllocError>
    ensures { IfOk result (λ made. IsRewriting formula.now made) }
{
    if is_within_bound(alloc, formula)? {
        drop_unused(alloc, formula)
    } else {
        formula.copy(alloc)
    }
}

/// Puts a pass with this name at the end of the list.
fn add(alloc: Global, passes: &mut PassList, text: &str, run: Rewriter) -> Result<(), AllocError>
    requires callable { Rewriter.IsAlwaysCallable run }
    requires rewrites { (alloc : _) (f : _) (g : Formula) → Rewriter.post run alloc f (Ok g) → IsRewriting f.now g }
{
    passes.add(Pass::new(name(alloc, text)?, run))
}

/// The list of the program's passes, in the order in which they run.
pub(crate) fn listed(
    alloc: Global,
    flattening: Rewriter,
    folding: Rewriter,
    narrowing: Rewriter,
    dropping: Rewriter,
) -> Result<PassList, AllocError>
    requires flattening_callable { Rewriter.IsAlwaysCallable flattening }
    requires flattening_rewrites { (alloc : _) (f : _) (g : Formula) → Rewriter.post flattening alloc f (Ok g) → IsRewriting f.now g }
    requires folding_callable { Rewriter.IsAlwaysCallable folding }
    requires folding_rewrites { (alloc : _) (f : _) (g : Formula) → Rewriter.post folding alloc f (Ok g) → IsRewriting f.now g }
    requires narrowing_callable { Rewriter.IsAlwaysCallable narrowing }
    requires narrowing_rewrites { (alloc : _) (f : _) (g : Formula) → Rewriter.post narrowing alloc f (Ok g) → IsRewriting f.now g }
    requires dropping_callable { Rewriter.IsAlwaysCallable dropping }
    requires dropping_rewrites { (alloc : _) (f : _) (g : Formula) → Rewriter.post dropping alloc f (Ok g) → IsRewriting f.now g }
{
    let mut passes = PassList::new(alloc);
    add(alloc, &mut passes, "flatten_not", flattening)?;
    add(alloc, &mut passes, "fold_constants", folding)?;
    add(alloc, &mut passes, "narrow_scope", narrowing)?;
    add(alloc, &mut passes, "drop_unused", dropping)?;
    Ok(passes)
}
