//! The forms of a formula's distinct parts.

ghost use Rattle.std.specs.Prelude.{IfOk};
ghost use Rattle.cert_check.specs.Numbering.{AreForms, AreNodesOf};

use plain_data::Items;
use std::alloc::{AllocError, Global};
use ws2s_core::{Formula, FormulaId, Interner, Node, intern};

/// The forms of formulas with the numbers 0, 1 and so on.
fn forms(alloc: Global, interner: &Interner, ids: &[FormulaId]) -> Result<Items<Node>, AllocError>
    ensures { IfOk result (AreForms interner.now ids.now) }
{
    let mut nodes = Items::new(alloc);
    for (place, id) in ids.iter().enumerate() {
        if id.0 as usize != place {
            return Err(AllocError);
        }
        let Some(node) = interner.form(*id) else {
            return Err(AllocError);
        };
        nodes.push(node)?;
    }
    Ok(nodes)
}

/// The forms of a formula's distinct parts, each over the numbers of earlier ones; its own comes last. The numbers are those of
/// an interner that has its parts alone.
pub(crate) fn nodes_of(alloc: Global, f: &Formula) -> Result<Items<Node>, AllocError>
    ensures { IfOk result (AreNodesOf f.now) }
{
    let mut interner = Interner::new(alloc);
    let id = intern(alloc, &mut interner, f)?;
    let ids = interner.parts(alloc, id)?;
    let nodes = forms(alloc, &interner, ids.as_slice())?;
    if nodes.len() != id.0 as usize + 1 {
        return Err(AllocError);
    }
    Ok(nodes)
}
