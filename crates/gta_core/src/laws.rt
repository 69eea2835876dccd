//! What outlives changes of a shelf.

ghost use Rattle.std.specs.Prelude.{◌≡◌, ◌≢◌, ℕ, List, IsSome};
ghost use Rattle.bdd_nodes.specs.declared.node_ref.NodeRef.{NodeRef};
ghost use Rattle.bdd_nodes.specs.Shelf.{Contents, IsShelf, roots_of};
ghost use Rattle.bdd_nodes.specs.Changes.{Keeps, SameTables, AddsTable, DropsTable, MovesRoots};
ghost use Rattle.gta_theory.specs.Guides.{Spaces};
ghost use Rattle.gta_core.specs.Auto.{AutoView, automaton_of, IsAuto};
ghost use Rattle.gta_core.specs.Changes.{KeepsTable, RegistersTable};

/// A registered table stays, with the functions of its roots: over joins, where another table is added or dropped, and
/// over a collection; and over one change after the other.
pub fn tables_outlive_changes()
    ensures joins { (old new : Contents) (number : ℕ) → IsShelf old → Keeps old new → SameTables old new →
        KeepsTable old new number }
    ensures added { (old new : Contents) (number other : ℕ) (roots : List NodeRef) → IsShelf old →
        AddsTable old new other roots → IsSome (roots_of old number) → KeepsTable old new number }
    ensures grown { (old new : Contents) (number other : ℕ) → IsShelf old → Keeps old new → RegistersTable old new other →
        IsSome (roots_of old number) → KeepsTable old new number }
    ensures dropped { (old new : Contents) (number other : ℕ) → DropsTable old new other → number ≢ other →
        KeepsTable old new number }
    ensures collected { (old new : Contents) (number : ℕ) → MovesRoots old new → KeepsTable old new number }
    ensures both { (old middle new : Contents) (number : ℕ) → KeepsTable old middle number →
        KeepsTable middle new number → KeepsTable old new number }
{}

/// Where its table stays with the functions of its roots, an automaton stays one, and the same one.
pub fn automata_outlive_changes()
    ensures auto { (g : Spaces) (old new : Contents) (a : AutoView) → KeepsTable old new a.table → IsAuto g old a →
        IsAuto g new a }
    ensures same { (old new : Contents) (a : AutoView) → KeepsTable old new a.table →
        automaton_of new a ≡ automaton_of old a }
{}
