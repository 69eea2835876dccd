//! What holds of automata that a shelf holds.

ghost use Rattle.std.specs.Prelude.{◌≤◌, ℕ, List, ◌∷◌};
ghost use Rattle.bdd_nodes.specs.Shelf.{Contents, IsShelf};
ghost use Rattle.bdd_nodes.specs.Changes.{CountsHeld, DropsTable, Keeps, SameTables, MovesRoots};
ghost use Rattle.gta_theory.specs.Guides.{Spaces};
ghost use Rattle.gta_core.specs.Changes.{KeepsTable, RegistersTable};
ghost use Rattle.gta_core.specs.Auto.{AutoView, IsAuto};
ghost use Rattle.ws2s_core.specs.declared.formula.Formula.{Formula};
ghost use Rattle.gta_keep.specs.Holding.{Holds, HaveSum, HaveSizes, IsCopy, IsMinimalFor};

/// Automata that a shelf holds are still held over joins, while a table is registered or dropped, and over a collection.
pub fn held_automata_outlive_changes()
    ensures registered { (g : Spaces) (old new : Contents) (c : AutoView) (xs : List AutoView) → Holds g old xs → IsShelf new → Keeps old new →
        RegistersTable old new c.table → IsAuto g new c → Holds g new (c ∷ xs) }
    ensures released { (g : Spaces) (old new : Contents) (a : AutoView) (xs : List AutoView) → Holds g old (a ∷ xs) → IsShelf new →
        DropsTable old new a.table → Holds g new xs }
    ensures made { (g : Spaces) (old new : Contents) (xs : List AutoView) → Holds g old xs → IsShelf new → Keeps old new → SameTables old new → Holds g new xs }
    ensures collected { (g : Spaces) (old new : Contents) (xs : List AutoView) → Holds g old xs → IsShelf new → MovesRoots old new → Holds g new xs }
{}

/// The nodes that a collection keeps are no more than the sum of the Sizes of the automata that the shelf holds.
pub fn held_automata_have_room()
    ensures { (g : Spaces) (shelf : Contents) (autos : List AutoView) (sum count : ℕ) → Holds g shelf autos → HaveSum g shelf autos sum →
        CountsHeld shelf count → count ≤ sum }
{}

/// Every automaton of a shelf has a Size.
pub fn automata_have_sizes()
    ensures { (g : Spaces) (shelf : Contents) → IsShelf shelf → HaveSizes g shelf }
{}

/// Where its table stays, a minimal automaton of a formula stays one; and a copy of one is one.
pub fn copies_are_minimal()
    ensures kept { (g : Spaces) (old new : Contents) (a : AutoView) (f : Formula) → KeepsTable old new a.table →
        IsMinimalFor g old a f → IsMinimalFor g new a f }
    ensures copies { (g : Spaces) (old new : Contents) (a c : AutoView) (f : Formula) → IsCopy old new a c →
        IsMinimalFor g old a f → IsMinimalFor g new c f }
{}
