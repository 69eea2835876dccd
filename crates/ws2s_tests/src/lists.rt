//! Passes of a list run one after the other, in their order.

ghost use Rattle.std.specs.Prelude.{IfOk};
ghost use Rattle.ws2s_pass.specs.Rewriting.{IsRewriting};

use crate::formulas::{formula, is};
use plain_data::Items;
use std::alloc::{AllocError, Global};
use std::test::Fail;
use ws2s_core::Formula;
use ws2s_pass::{
    Pass, PassList, PassName, Rewriter, apply, drop_unused, flatten_not, fold_constants,
};

fn name(alloc: Global, text: &str) -> Result<PassName, AllocError> {
    Ok(PassName(Items::from_slice(alloc, text.as_bytes())?))
}

/// Double negations are left out.
fn flattening(alloc: Global) -> Result<Pass, AllocError> {
    let run: Rewriter = Box::new(
        alloc,
        |alloc: Global, formula: &Formula| -> Result<Formula, AllocError>
            ensures { IfOk result (λ made. IsRewriting formula.now made) }
        { flatten_not(alloc, formula) },
    )?;
    Ok(Pass::new(name(alloc, "flatten_not")?, run))
}

/// Unused quantifiers are left out.
fn dropping(alloc: Global) -> Result<Pass, AllocError> {
    let run: Rewriter = Box::new(
        alloc,
        |alloc: Global, formula: &Formula| -> Result<Formula, AllocError>
            ensures { IfOk result (λ made. IsRewriting formula.now made) }
        { drop_unused(alloc, formula) },
    )?;
    Ok(Pass::new(name(alloc, "drop_unused")?, run))
}

/// Constants are folded.
fn folding(alloc: Global) -> Result<Pass, AllocError> {
    let run: Rewriter = Box::new(
        alloc,
        |alloc: Global, formula: &Formula| -> Result<Formula, AllocError>
            ensures { IfOk result (λ made. IsRewriting formula.now made) }
        { fold_constants(alloc, formula) },
    )?;
    Ok(Pass::new(name(alloc, "fold_constants")?, run))
}

/// A pass.
#[derive(Clone, Copy)]
enum Named {
    Flattening,
    Dropping,
    Folding,
}

fn pass(alloc: Global, named: Named) -> Result<Pass, AllocError> {
    match named {
        Named::Flattening => flattening(alloc),
        Named::Dropping => dropping(alloc),
        Named::Folding => folding(alloc),
    }
}

/// Puts the passes behind those of the list.
fn add_each(alloc: Global, list: &[Named], passes: &mut PassList) -> Result<(), AllocError> {
    for named in list {
        passes.add(pass(alloc, *named)?)?;
    }
    Ok(())
}

/// What the list makes of a text's formula.
fn made(alloc: Global, passes: &PassList, text: &str) -> Result<Formula, AllocError> {
    let whole = formula(alloc, text)?;
    apply(alloc, passes, &whole)
}

/// Whether the list makes the second text's formula of the first text's.
fn list_makes(
    alloc: Global,
    passes: &PassList,
    text: &str,
    wanted: &str,
) -> Result<bool, AllocError> {
    let made = made(alloc, passes, text)?;
    is(alloc, &made, wanted)
}

/// Whether these passes, one after the other, make the second text's formula of the first text's.
fn makes(alloc: Global, list: &[Named], text: &str, wanted: &str) -> Result<bool, AllocError> {
    let mut passes = PassList::new(alloc);
    add_each(alloc, list, &mut passes)?;
    list_makes(alloc, &passes, text, wanted)
}

/// Passes, and what they make of a formula.
static LISTS: &[(&[Named], &str, &str)] = &[
    (&[Named::Flattening, Named::Dropping], "=0 not not x1", "=0"),
    // Folding makes an unused quantifier, which a pass after it leaves out and a pass before it doesn't.
    (&[Named::Dropping, Named::Folding], "=0 1<1 and x1", "=0 x1"),
    (&[], "=0 not not x1", "=0 not not x1"),
];

#[test]
fn passes_run_one_after_the_other(rt: HostRuntime) -> Result<(), Fail> {
    for (list, text, wanted) in LISTS {
        assert!(rt; makes(rt.alloc(), list, text, wanted)?, "{text}");
    }
    Ok(())
}
