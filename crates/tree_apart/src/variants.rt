//! All variants of a layout in order.

ghost use Rattle.std.specs.Prelude.{◌≡◌, ◌++◌, IfOk, OnOk};
ghost use Rattle.store_core.specs.Tables.{IsTypeTable};
ghost use Rattle.tree_formula.specs.WellEncoded.{variants_of};
ghost use Rattle.tree_apart.specs.Apart as formulas;

use std::alloc::{AllocError, Global};
use store_core::{TypeId, VariantId};
use tree_encode::{Layout, VariantList};

/// Adds the variants of a type.
fn push_variants(variants: &mut VariantList, l: &Layout<'_>, ty: TypeId) -> Result<(), AllocError>
    ensures { OnOk result (variants.new ≡ variants.old ++ variants_of l.now.types ty) }
{
    for index in 0..l.types().variants(ty) {
        variants.push(VariantId { ty, index })?;
    }
    Ok(())
}

/// All variants, type by type.
pub(crate) fn all_variants(alloc: Global, l: &Layout<'_>) -> Result<VariantList, AllocError>
    ensures value { IfOk result (λ variants. variants ≡ formulas.all_variants l.now.types) }
    ensures inside { IsTypeTable l.now.types }
{
    let mut variants = VariantList::new(alloc);
    for index in 0..l.types().types() {
        push_variants(&mut variants, l, TypeId(index))?;
    }
    Ok(variants)
}
