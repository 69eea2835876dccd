//! Backbones and well-formed stores, by pieces.

ghost use Rattle.std.specs.Prelude.{◌≡◌, ◌↔◌, List};
ghost use Rattle.store_core.specs.declared.ids.VarId.{VarId};
ghost use Rattle.store_core.specs.declared.ids.CellId.{CellId};
ghost use Rattle.store_core.specs.Tables.{TypeEntry, VarEntry};
ghost use Rattle.store_core.specs.Stores.{StoreMap, Fits};
ghost use Rattle.routing_walks.specs.declared.fault.Place.TheVariants as place;
ghost use Rattle.routing_walks.specs.Walks.{DataAlone};
ghost use Rattle.routing_walks.specs.WellFormed.{IsBackbone, IsDanglingReference, IsDangling, IsWellFormed};
ghost use Rattle.routing_walks.specs.Regions.{IsOn, IsRest, IsApart};
ghost use Rattle.routing_walks.specs.Pieces.{piece_on};

/// A piece of a store has the cells of its set and no others.
pub fn pieces_have_their_cells()
    ensures { (cells : List CellId) (s : StoreMap) → IsOn cells s (piece_on s cells) }
{}

/// A piece of a backbone is a backbone, where no data field leads into its set or out of it.
pub fn pieces_of_backbones_are_backbones()
    ensures { (types : List TypeEntry) (vars : List VarEntry) (s : StoreMap) (cells : List CellId) →
        IsApart types s DataAlone cells → IsBackbone types vars s → IsBackbone types vars (piece_on s cells) }
{}

/// A store whose piece on such a set is a backbone, and whose piece on the rest is one, is a backbone, where no variable names
/// a dead cell.
pub fn two_pieces_are_a_backbone()
    ensures { (types : List TypeEntry) (vars : List VarEntry) (s : StoreMap) (cells rest : List CellId) →
        IsRest s cells rest → IsApart types s DataAlone cells → ((v : VarId) → IsDanglingReference s (place.Var v) → ⊥) →
        IsBackbone types vars (piece_on s cells) → IsBackbone types vars (piece_on s rest) → IsBackbone types vars s }
{}

/// A piece of a well-formed store is well-formed, where no data field leads into its set or out of it.
pub fn pieces_of_well_formed_stores_are_well_formed()
    ensures { (types : List TypeEntry) (vars : List VarEntry) (s : StoreMap) (cells : List CellId) →
        IsApart types s DataAlone cells → IsWellFormed types vars s → IsWellFormed types vars (piece_on s cells) }
{}

/// A store that fits its tables, whose piece on such a set is well-formed, and whose piece on the rest is, is well-formed, where
/// no variable names a dead cell and no logic set holds one.
pub fn two_pieces_are_well_formed()
    ensures { (types : List TypeEntry) (vars : List VarEntry) (s : StoreMap) (cells rest : List CellId) → Fits types vars s →
        IsRest s cells rest → IsApart types s DataAlone cells → ((v : VarId) → IsDangling s (place.Var v) → ⊥) →
        IsWellFormed types vars (piece_on s cells) → IsWellFormed types vars (piece_on s rest) → IsWellFormed types vars s }
{}
