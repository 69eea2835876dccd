//! Laws of every shelf.

ghost use Rattle.std.specs.Prelude.{◌≡◌, ◌≢◌, ℕ, ◌≤◌, ◌<◌, ◌^◌, ◌↔◌, true, false, None, Some};
ghost use Rattle.bdd_nodes.specs.declared.node_ref.NodeRef.{NodeRef};
ghost use Rattle.labels.specs.Labels.{Label, IsUnder, with_below, with_track};
ghost use Rattle.bdd_nodes.specs.Shelf.{Contents, IsShelf, IsValid, SameFunction, AsksFrom, state_of, top_of, roots_of, tables_added};
ghost use Rattle.bdd_nodes.specs.Changes.{Reaches, ReachesFunction};

/// Two valid references of a shelf are equal exactly where their functions are.
pub fn equal_references()
    ensures { (shelf : Contents) (a b : NodeRef) → IsShelf shelf → IsValid shelf a → IsValid shelf b
        → ((a ≡ b) ↔ SameFunction shelf a b) }
{}

/// Two valid references of a shelf that differ give different states for some label.
pub fn other_references_differ_somewhere()
    ensures { (shelf : Contents) (a b : NodeRef) → IsShelf shelf → IsValid shelf a → IsValid shelf b → a ≢ b
        → (label : Label) × (state_of shelf a label ≢ state_of shelf b label) }
{}

/// A reference to an inner node is not constant: for some label its state changes with the first track that it asks.
pub fn inner_references_change_with_their_first_track()
    ensures { (shelf : Contents) (r : NodeRef) (t : ℕ) → IsShelf shelf → IsValid shelf r → top_of shelf r ≡ Some t
        → (label : Label) × (state_of shelf r (with_track label t false) ≢ state_of shelf r (with_track label t true)) }
{}

/// Labels that agree from some track on get the same state from a reference that asks no track below it.
pub fn unasked_tracks()
    ensures { (shelf : Contents) (r : NodeRef) (t : ℕ) (l m : Label) → IsShelf shelf → IsValid shelf r
        → AsksFrom shelf t r → ((u : ℕ) → t ≤ u → l u ≡ m u) → state_of shelf r l ≡ state_of shelf r m }
{}

/// Each function of a shelf gives state numbers.
pub fn small_states()
    ensures { (shelf : Contents) (r : NodeRef) (label : Label) → IsShelf shelf → IsValid shelf r
        → state_of shelf r label < 2 ^ 31 }
{}

/// The references that are reached from one are exactly those of the functions under its function.
pub fn reached_functions()
    ensures under { (shelf : Contents) (from r : NodeRef) → IsShelf shelf → IsValid shelf from
        → Reaches shelf.nodes from r → IsUnder (state_of shelf from) (state_of shelf r) }
    ensures reached { (shelf : Contents) (from : NodeRef) (k : ℕ) (fixed : Label) → IsShelf shelf → IsValid shelf from
        → ReachesFunction shelf from (λ label. state_of shelf from (with_below k fixed label)) }
{}

/// No table has a number that wasn't given.
pub fn unused_numbers()
    ensures { (shelf : Contents) (number : ℕ) → IsShelf shelf → tables_added shelf ≤ number
        → roots_of shelf number ≡ None }
{}
