//! Layouts: the tracks, slots and children of stores over two tables.

ghost use Rattle.std.specs.Prelude.{◌≡◌, ◌+◌, ◌<◌, ◌≤◌, ◌^◌, suc, length, IfOk, OnOk};
ghost use Rattle.std.specs.List.{AllByRecursion};
ghost use Rattle.store_core.specs.Tables.{KnowsVariant, KnowsVarKind};
ghost use Rattle.tree_encode.specs.Counting.{variants_in, bools_in};
ghost use Rattle.tree_encode.specs.Spaces.{guide_of};
ghost use Rattle.tree_encode.specs.Tracks as tracks;
ghost use Rattle.tree_encode.specs.Layouts.{first_at, IsTabled, IsLaidOut};

use crate::counting::{Counted, counted_before, is_counted, sum};
use crate::index::{First, first_of, index_types, index_vars};
use crate::spaces::space_list;
use plain_data::Items;
use std::alloc::{AllocError, Global};
use std::marker::Model;
use store_core::{FieldId, TypeTable, VarId, VarKind, VarTable, VariantId};
use ws2s_core::{Guide, Track};

/// Variants, in an order.
pub type VariantList = Items<VariantId>;

/// Which track each variant, bool field and variable has, and where the cells of a store lie in its tree. Contracts see the
/// two tables and the variants of the spare slots.
#[derive(Drop)]
pub struct Layout<'a> {
    types: &'a TypeTable,
    vars: &'a VarTable,
    spares: Vec<VariantId>,
    /// For each type what stands before it, and last what stands behind all.
    firsts: Vec<First>,
    /// For each variable how many data variables stand before it.
    slots: Vec<u32>,
}

impl<'a> Model for Layout<'a> {
    ghost use Rattle.std.specs.Coded.{codes};
    ghost use Rattle.store_core.specs.contracts.kind.Route as route;
    ghost use Rattle.tree_encode.specs.Layouts.{LaidOut, IsLaidOut, IsIndex};

    ghost Value = { LaidOut };

    ghost coded = { Prim.hlevel (codes, route.the_row.coded) };

    ghost view = { λ l. record { types = l.types.now; vars = l.vars.now; spares = l.spares.items } };

    ghost invariant = { λ l.
        IsLaidOut (record { types = l.types.now; vars = l.vars.now; spares = l.spares.items })
        × IsIndex l.types.now l.vars.now l.firsts.items l.slots.items };
}

/// Looks whether a `u32` counts the tracks.
fn count_tracks(types: &TypeTable, vars: &VarTable, firsts: &[First]) -> Result<(), AllocError>
    requires { IsTabled (first_at types.now) (suc (length types.now)) firsts.now }
    ensures { OnOk result (tracks.track_count types.now vars.now < 2 ^ 32) }
{
    let all = first_of(types, firsts, types.types());
    let own = sum(all.bools, vars.vars())?;
    let _tracks = sum(all.variants, own)?;
    Ok(())
}

impl<'a> Layout<'a> {
    /// The layout of these types and variables, with a spare slot for each of these variants. The kinds of the variables name
    /// types, and the spares are variants, of the table of types.
    ///
    /// # Errors
    ///
    /// Want of memory, also where the tracks or the spaces of rows are more than a `u32` counts.
    pub fn new(
        alloc: Global,
        types: &'a TypeTable,
        vars: &'a VarTable,
        spares: &VariantList,
    ) -> Result<Layout<'a>, AllocError>
        requires vars { AllByRecursion (λ entry. KnowsVarKind types.now entry.kind) vars.now }
        requires spares { AllByRecursion (KnowsVariant types.now) spares.now }
        ensures { IfOk result (λ l. l ≡ record { types = types.now; vars = vars.now; spares = spares.now }) }
    {
        let firsts = index_types(alloc, types)?;
        let slots = index_vars(alloc, vars)?;
        let spares = Vec::from_slice(alloc, spares.as_slice())?;
        count_tracks(types, vars, &firsts)?;
        Ok(Layout {
            types,
            vars,
            spares,
            firsts,
            slots,
        })
    }

    /// The table of types. Takes no memory.
    pub fn types(&self) -> &TypeTable
        ensures value { result.now ≡ self.now.types }
        ensures inside { IsLaidOut self.now }
    {
        self.types
    }

    /// The table of variables. Takes no memory.
    pub fn vars(&self) -> &VarTable
        ensures value { result.now ≡ self.now.vars }
        ensures inside { IsLaidOut self.now }
    {
        self.vars
    }

    /// How many tracks there are. Takes no memory.
    pub fn tracks(&self) -> u32
        ensures { result ≡ tracks.track_count self.now.types self.now.vars }
    {
        self.var_number(self.vars.vars())
    }

    /// The number of the track of a variable, or one more than that of the last.
    fn var_number(&self, v: u32) -> u32
        requires { v ≤ length self.now.vars }
        ensures { result ≡ variants_in self.now.types + (bools_in self.now.types + v) }
    {
        let all = first_of(self.types, &self.firsts, self.types.types());
        all.variants + (all.bools + v)
    }

    /// The track of a variant's live cells; `None` exactly for an unknown variant. Takes no memory.
    pub fn variant_track(&self, v: VariantId) -> Option<Track>
        ensures { result ≡ tracks.variant_track self.now.types v }
    {
        if v.index >= self.types.variants(v.ty) {
            return None;
        }
        let first = first_of(self.types, &self.firsts, v.ty.0);
        Some(Track(first.variants + v.index))
    }

    /// The track of the cells whose bool field is true; `None` exactly where there is no such bool field. Takes no memory.
    pub fn bool_track(&self, f: FieldId) -> Option<Track>
        ensures { result ≡ tracks.bool_track self.now.types f }
    {
        if !is_counted(self.types, Counted::Bools, f) {
            return None;
        }
        let all = first_of(self.types, &self.firsts, self.types.types());
        let first = first_of(self.types, &self.firsts, f.ty.0);
        let rank = counted_before(self.types, Counted::Bools, f.ty, f.index);
        Some(Track(all.variants + (first.bools + rank)))
    }

    /// The track of a variable; `None` exactly for an unknown one. Takes no memory.
    pub fn var_track(&self, v: VarId) -> Option<Track>
        ensures { result ≡ tracks.var_track self.now.types self.now.vars v }
    {
        if v.0 >= self.vars.vars() {
            return None;
        }
        Some(Track(self.var_number(v.0)))
    }

    /// The guide of the trees: a row of spaces for the slots, one for the children of each type's cells, and the rest.
    ///
    /// # Errors
    ///
    /// Want of memory, also where the spaces are more than a `u32` counts.
    pub fn guide(&self, alloc: Global) -> Result<Guide, AllocError>
        ensures { IfOk result (λ guide. guide ≡ guide_of self.now.types self.now.vars self.now.spares) }
    {
        let spaces = space_list(alloc, self.types, self.vars, &self.spares, &self.firsts)?;
        Guide::new(alloc, Items::from_vec(spaces))
    }

    /// The slot of a data variable; `None` exactly for any other. Takes no memory.
    pub fn slot(&self, v: VarId) -> Option<u32>
        ensures { result ≡ tracks.slot_of_var self.now.vars v }
    {
        match self.vars.kind(v) {
            Some(VarKind::Data(_)) => Some(self.slots[v.0 as usize]),
            _ => None,
        }
    }

    /// The number of a data field among the data fields of its type; `None` exactly for any other field. Takes no memory.
    pub fn child(&self, f: FieldId) -> Option<u32>
        ensures { result ≡ tracks.child_number self.now.types f }
    {
        if !is_counted(self.types, Counted::Children, f) {
            return None;
        }
        Some(counted_before(self.types, Counted::Children, f.ty, f.index))
    }
}
