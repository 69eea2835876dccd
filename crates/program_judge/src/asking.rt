//! The triple that asks for the stores which meet another one.

ghost use Rattle.std.specs.Prelude.{◌≡◌, ◌∷◌, [], IfOk};
ghost use Rattle.program_judge.specs.Starts.{asking, bare_cut, falsehood};

use plain_data::Items;
use std::alloc::{AllocError, Global};
use store_exec::{Claim, ClaimList, Code, Cut, CutList, Item, Start, Tail, Triple};
use store_logic::{Act, Assertion, Region, VarList};

/// The assertion of falsehood at a line, and then the first cut.
fn falsehood(alloc: Global, line: u32) -> Result<Code, AllocError>
    ensures { IfOk result (λ code. code ≡ falsehood line) }
{
    let mut items = Items::new(alloc);
    items.push(Item::Do(line, Act::Assert(Assertion::False)))?;
    Ok(Code {
        items,
        tail: Tail::Cut(0),
    })
}

/// A cut at a line at which truth alone is claimed.
fn bare_cut(alloc: Global, line: u32) -> Result<Cut, AllocError>
    ensures { IfOk result (λ cut. cut ≡ bare_cut line) }
{
    let mut asserts = Items::new(alloc);
    asserts.push(Claim {
        region: Region::All,
        assertion: Assertion::True,
    })?;
    Ok(Cut {
        line,
        handed: None,
        inside: Items::new(alloc),
        asserts,
    })
}

/// The one cut of such a triple.
fn bare_cuts(alloc: Global, line: u32) -> Result<CutList, AllocError>
    ensures { IfOk result (λ cuts. cuts ≡ bare_cut line ∷ []) }
{
    let mut cuts = Items::new(alloc);
    cuts.push(bare_cut(alloc, line)?)?;
    Ok(cuts)
}

fn copy_claim(alloc: Global, claim: &Claim) -> Result<Claim, AllocError>
    ensures { IfOk result (λ copy. copy ≡ claim.now) }
{
    Ok(Claim {
        region: claim.region.copy(alloc)?,
        assertion: claim.assertion.copy(alloc)?,
    })
}

fn copy_claims(alloc: Global, claims: &[Claim]) -> Result<ClaimList, AllocError>
    ensures { IfOk result (λ copies. copies ≡ claims.now) }
{
    let mut copies = Items::new(alloc);
    for claim in claims {
        copies.push(copy_claim(alloc, claim)?)?;
    }
    Ok(copies)
}

fn copy_part(alloc: Global, part: &Option<VarList>) -> Result<Option<VarList>, AllocError>
    ensures { IfOk result (λ copy. copy ≡ part.now) }
{
    match part {
        Some(vars) => Ok(Some(Items::from_slice(alloc, vars.as_slice())?)),
        None => Ok(None),
    }
}

fn copy_start(alloc: Global, start: &Start) -> Result<Start, AllocError>
    ensures { IfOk result (λ copy. copy ≡ start.now) }
{
    Ok(Start {
        nulls: Items::from_slice(alloc, start.nulls.as_slice())?,
        returned: copy_part(alloc, &start.returned)?,
        inside: Items::from_slice(alloc, start.inside.as_slice())?,
        asserts: copy_claims(alloc, start.asserts.as_slice())?,
    })
}

/// The triple that asserts falsehood where this one starts.
///
/// # Errors
///
/// Want of memory.
pub(crate) fn asking(alloc: Global, t: &Triple) -> Result<Triple, AllocError>
    ensures { IfOk result (λ other. other ≡ asking t.now) }
{
    Ok(Triple {
        proc: t.proc,
        line: t.line,
        start: copy_start(alloc, &t.start)?,
        code: falsehood(alloc, t.line)?,
        cuts: bare_cuts(alloc, t.line)?,
    })
}
