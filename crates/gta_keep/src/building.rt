//! Automata that are built beside those that wait and those that are kept. Each builder is tried once more, in the room
//! that is left where nothing is kept, before its `Limit` is answered.

ghost use Rattle.std.specs.Prelude.{◌≡◌, ◌<◌, ◌+◌, ℕ, List, [], ◌∷◌, Err, IfOk, OnErr};
ghost use Rattle.bdd_nodes.specs.Shelf.{limit_of};
ghost use Rattle.gta_theory.specs.Guides.{IsGuide};
ghost use Rattle.gta_core.specs.Auto.{AutoView, automaton_of, states_of};
ghost use Rattle.gta_atom.specs.Atom.{IsAtom};
ghost use Rattle.gta_product.specs.Product.{IsProductOf};
ghost use Rattle.gta_project.specs.Project.{IsSubsetOf};
ghost use Rattle.ws2s_core.specs.declared.formula.Formula.{Formula};
ghost use Rattle.ws2s_core.specs.declared.formula.Formula.TheVariants.{And, Ex2};
ghost use Rattle.ws2s_core.specs.Recognising.{Recognises};
ghost use Rattle.ws2s_theory.specs.Peaks.{HasMinimalSize, HasProductSize, HasSubsetSize};
ghost use Rattle.gta_keep.specs.Holding.{Holds, HoldsBeside, IsMinimalFor, HaveSum, Passes, beside};
ghost use Rattle.gta_keep.specs.Limits.{PairsLimit, SetsLimit, MinimalLimit};

use crate::kept::Kept;
use crate::merging::merged;
use bdd_nodes::Shelf;
use bdd_walk::Stop;
use gta_atom::atom;
use gta_core::{Auto, release};
use gta_minimise::minimise;
use gta_product::product;
use gta_project::project;
use std::alloc::Global;
use ws2s_core::{Formula, Guide, Track};

/// The minimal automaton that accepts where both do. The two are let go of, whatever the answer.
///
/// # Errors
///
/// `Limit` only where the Sizes of the others that wait, of the two, of their product and of the result are together more
/// than the shelf's limit; want of memory.
pub fn conjoin(
    alloc: Global,
    g: &Guide,
    a: Auto,
    b: Auto,
    kept: &mut Kept,
    shelf: &mut Shelf,
) -> Result<Auto, Stop>
    requires { HoldsBeside g.now shelf.old (a ∷ b ∷ []) kept.old }
    ensures ok { IfOk result (λ c. Passes g.now shelf.old shelf.new (a ∷ b ∷ []) (c ∷ []) kept.old kept.new) }
    ensures minimal { IfOk result (λ c. (f h : Formula) → IsMinimalFor g.now shelf.old a f → IsMinimalFor g.now shelf.old b h →
        IsMinimalFor g.now shelf.new c (And f h)) }
    ensures err { OnErr result (Passes g.now shelf.old shelf.new (a ∷ b ∷ []) [] kept.old kept.new) }
    ensures limit { result ≡ Err Stop.Limit → (others : List AutoView) (f h : Formula) (s n m p r : ℕ) →
        Holds g.now shelf.old (beside (a ∷ b ∷ []) others kept.old) →
        IsMinimalFor g.now shelf.old a f → IsMinimalFor g.now shelf.old b h → HaveSum g.now shelf.old others s →
        HasMinimalSize g.now f n → HasMinimalSize g.now h m → HasProductSize g.now f h p → HasMinimalSize g.now (And f h) r →
        limit_of shelf.old < s + (n + m + p + r) }
{
    let pairs = pair_up(alloc, g, a, b, kept, shelf)?;
    minimal_of(alloc, g, pairs, kept, shelf)
}

/// The minimal automaton that accepts where some set for the track is accepted. The one that it is made of is let go of,
/// whatever the answer.
///
/// # Errors
///
/// `Limit` only where the Sizes of the others that wait, of the automaton, of its subset automaton and of the result are
/// together more than the shelf's limit; want of memory.
pub fn quantify(
    alloc: Global,
    g: &Guide,
    a: Auto,
    t: Track,
    kept: &mut Kept,
    shelf: &mut Shelf,
) -> Result<Auto, Stop>
    requires { HoldsBeside g.now shelf.old (a ∷ []) kept.old }
    ensures ok { IfOk result (λ c. Passes g.now shelf.old shelf.new (a ∷ []) (c ∷ []) kept.old kept.new) }
    ensures minimal { IfOk result (λ c. (f : Formula) → IsMinimalFor g.now shelf.old a f → IsMinimalFor g.now shelf.new c (Ex2 t f)) }
    ensures err { OnErr result (Passes g.now shelf.old shelf.new (a ∷ []) [] kept.old kept.new) }
    ensures limit { result ≡ Err Stop.Limit → (others : List AutoView) (f : Formula) (s n p r : ℕ) →
        Holds g.now shelf.old (beside (a ∷ []) others kept.old) →
        IsMinimalFor g.now shelf.old a f → HaveSum g.now shelf.old others s →
        HasMinimalSize g.now f n → HasSubsetSize g.now t f p → HasMinimalSize g.now (Ex2 t f) r →
        limit_of shelf.old < s + (n + p + r) }
{
    let sets = drop_track(alloc, g, a, t, kept, shelf)?;
    minimal_of(alloc, g, sets, kept, shelf)
}

/// The minimal automaton of an atom.
fn try_atom(
    alloc: Global,
    g: &Guide,
    f: &Formula,
    kept: &mut Kept,
    shelf: &mut Shelf,
) -> Result<Auto, Stop>
    requires atom { IsAtom f.now }
    requires held { HoldsBeside g.now shelf.old [] kept.old }
    ensures ok { IfOk result (λ c. Passes g.now shelf.old shelf.new [] (c ∷ []) kept.old kept.new) }
    ensures minimal { IfOk result (λ c. IsMinimalFor g.now shelf.new c f.now) }
    ensures err { OnErr result (Passes g.now shelf.old shelf.new [] [] kept.old kept.new) }
    ensures limit { result ≡ Err Stop.Limit → (others : List AutoView) (s n : ℕ) →
        Holds g.now shelf.old (beside [] others kept.old) → HaveSum g.now shelf.old others s → HasMinimalSize g.now f.now n →
        limit_of shelf.old < s + n }
{
    match atom(alloc, g, f, shelf) {
        Err(Stop::Limit) => {
            kept.make_room(shelf);
            atom(alloc, g, f, shelf)
        }
        answer => answer,
    }
}

/// The minimal automaton of an atom.
///
/// # Errors
///
/// `Limit` only where the Sizes of the others that wait and of the result are together more than the shelf's limit; want of
/// memory.
pub fn build_atom(
    alloc: Global,
    g: &Guide,
    f: &Formula,
    kept: &mut Kept,
    shelf: &mut Shelf,
) -> Result<Auto, Stop>
    requires atom { IsAtom f.now }
    requires held { HoldsBeside g.now shelf.old [] kept.old }
    ensures ok { IfOk result (λ c. Passes g.now shelf.old shelf.new [] (c ∷ []) kept.old kept.new) }
    ensures minimal { IfOk result (λ c. IsMinimalFor g.now shelf.new c f.now) }
    ensures err { OnErr result (Passes g.now shelf.old shelf.new [] [] kept.old kept.new) }
    ensures limit { result ≡ Err Stop.Limit → (others : List AutoView) (s n : ℕ) →
        Holds g.now shelf.old (beside [] others kept.old) → HaveSum g.now shelf.old others s → HasMinimalSize g.now f.now n →
        limit_of shelf.old < s + n }
{
    let made = try_atom(alloc, g, f, kept, shelf)?;
    Ok(merged(alloc, g, made, kept, shelf))
}

/// The automaton of pairs of states. The two are let go of.
fn pair_up(
    alloc: Global,
    g: &Guide,
    a: Auto,
    b: Auto,
    kept: &mut Kept,
    shelf: &mut Shelf,
) -> Result<Auto, Stop>
    requires { HoldsBeside g.now shelf.old (a ∷ b ∷ []) kept.old }
    ensures ok { IfOk result (λ c. Passes g.now shelf.old shelf.new (a ∷ b ∷ []) (c ∷ []) kept.old kept.new) }
    ensures product { IfOk result (λ c. IsProductOf g.now (automaton_of shelf.old a) (automaton_of shelf.old b)
        (automaton_of shelf.new c) (states_of c)) }
    ensures err { OnErr result (Passes g.now shelf.old shelf.new (a ∷ b ∷ []) [] kept.old kept.new) }
    ensures limit { result ≡ Err Stop.Limit → PairsLimit g.now shelf.old a b kept.old }
    ensures guide { IsGuide g.now }
{
    let pairs = build_product(alloc, g, &a, &b, kept, shelf);
    release(a, shelf);
    release(b, shelf);
    pairs
}

/// The automaton of sets of states that drops the track. The one that it is made of is let go of.
fn drop_track(
    alloc: Global,
    g: &Guide,
    a: Auto,
    t: Track,
    kept: &mut Kept,
    shelf: &mut Shelf,
) -> Result<Auto, Stop>
    requires { HoldsBeside g.now shelf.old (a ∷ []) kept.old }
    ensures ok { IfOk result (λ c. Passes g.now shelf.old shelf.new (a ∷ []) (c ∷ []) kept.old kept.new) }
    ensures subset { IfOk result (λ c. IsSubsetOf g.now (automaton_of shelf.old a) t.0 (automaton_of shelf.new c) (states_of c)) }
    ensures err { OnErr result (Passes g.now shelf.old shelf.new (a ∷ []) [] kept.old kept.new) }
    ensures limit { result ≡ Err Stop.Limit → SetsLimit g.now shelf.old a t kept.old }
    ensures guide { IsGuide g.now }
{
    let sets = build_projection(alloc, g, &a, t, kept, shelf);
    release(a, shelf);
    sets
}

/// The minimal automaton that accepts the same. The one that it is made of is let go of.
fn quotient_of(
    alloc: Global,
    g: &Guide,
    a: Auto,
    kept: &mut Kept,
    shelf: &mut Shelf,
) -> Result<Auto, Stop>
    requires { HoldsBeside g.now shelf.old (a ∷ []) kept.old }
    ensures ok { IfOk result (λ c. Passes g.now shelf.old shelf.new (a ∷ []) (c ∷ []) kept.old kept.new) }
    ensures minimal { IfOk result (λ c. (f : Formula) → Recognises g.now (automaton_of shelf.old a) f → IsMinimalFor g.now shelf.new c f) }
    ensures err { OnErr result (Passes g.now shelf.old shelf.new (a ∷ []) [] kept.old kept.new) }
    ensures limit { result ≡ Err Stop.Limit → MinimalLimit g.now shelf.old a kept.old }
{
    let minimal = build_minimal(alloc, g, &a, kept, shelf);
    release(a, shelf);
    minimal
}

/// The minimal automaton that accepts the same, its tables merged. The one that it is made of is let go of.
fn minimal_of(
    alloc: Global,
    g: &Guide,
    a: Auto,
    kept: &mut Kept,
    shelf: &mut Shelf,
) -> Result<Auto, Stop>
    requires { HoldsBeside g.now shelf.old (a ∷ []) kept.old }
    ensures ok { IfOk result (λ c. Passes g.now shelf.old shelf.new (a ∷ []) (c ∷ []) kept.old kept.new) }
    ensures minimal { IfOk result (λ c. (f : Formula) → Recognises g.now (automaton_of shelf.old a) f → IsMinimalFor g.now shelf.new c f) }
    ensures err { OnErr result (Passes g.now shelf.old shelf.new (a ∷ []) [] kept.old kept.new) }
    ensures limit { result ≡ Err Stop.Limit → MinimalLimit g.now shelf.old a kept.old }
{
    let minimal = quotient_of(alloc, g, a, kept, shelf)?;
    Ok(merged(alloc, g, minimal, kept, shelf))
}

/// The automaton of pairs of states, beside the two.
fn build_product(
    alloc: Global,
    g: &Guide,
    a: &Auto,
    b: &Auto,
    kept: &mut Kept,
    shelf: &mut Shelf,
) -> Result<Auto, Stop>
    requires { HoldsBeside g.now shelf.old (a.now ∷ b.now ∷ []) kept.old }
    ensures ok { IfOk result (λ c. Passes g.now shelf.old shelf.new (a.now ∷ b.now ∷ []) (c ∷ a.now ∷ b.now ∷ []) kept.old kept.new) }
    ensures product { IfOk result (λ c. IsProductOf g.now (automaton_of shelf.old a.now) (automaton_of shelf.old b.now)
        (automaton_of shelf.new c) (states_of c)) }
    ensures err { OnErr result (Passes g.now shelf.old shelf.new [] [] kept.old kept.new) }
    ensures limit { result ≡ Err Stop.Limit → PairsLimit g.now shelf.old a.now b.now kept.old }
    ensures guide { IsGuide g.now }
{
    // Only for its clause `guide`.
    let _ = g.spaces();
    match product(alloc, g, a, b, shelf) {
        Err(Stop::Limit) => {
            kept.make_room(shelf);
            product(alloc, g, a, b, shelf)
        }
        answer => answer,
    }
}

/// The automaton of sets of states that drops the track, beside the one that it is made of.
fn build_projection(
    alloc: Global,
    g: &Guide,
    a: &Auto,
    t: Track,
    kept: &mut Kept,
    shelf: &mut Shelf,
) -> Result<Auto, Stop>
    requires { HoldsBeside g.now shelf.old (a.now ∷ []) kept.old }
    ensures ok { IfOk result (λ c. Passes g.now shelf.old shelf.new (a.now ∷ []) (c ∷ a.now ∷ []) kept.old kept.new) }
    ensures subset { IfOk result (λ c. IsSubsetOf g.now (automaton_of shelf.old a.now) t.0 (automaton_of shelf.new c) (states_of c)) }
    ensures err { OnErr result (Passes g.now shelf.old shelf.new [] [] kept.old kept.new) }
    ensures limit { result ≡ Err Stop.Limit → SetsLimit g.now shelf.old a.now t kept.old }
    ensures guide { IsGuide g.now }
{
    // Only for its clause `guide`.
    let _ = g.spaces();
    match project(alloc, g, a, t, shelf) {
        Err(Stop::Limit) => {
            kept.make_room(shelf);
            project(alloc, g, a, t, shelf)
        }
        answer => answer,
    }
}

/// The minimal automaton that accepts the same, beside the one that it is made of.
fn build_minimal(
    alloc: Global,
    g: &Guide,
    a: &Auto,
    kept: &mut Kept,
    shelf: &mut Shelf,
) -> Result<Auto, Stop>
    requires { HoldsBeside g.now shelf.old (a.now ∷ []) kept.old }
    ensures ok { IfOk result (λ c. Passes g.now shelf.old shelf.new (a.now ∷ []) (c ∷ a.now ∷ []) kept.old kept.new) }
    ensures minimal { IfOk result (λ c. (f : Formula) → Recognises g.now (automaton_of shelf.old a.now) f → IsMinimalFor g.now shelf.new c f) }
    ensures err { OnErr result (Passes g.now shelf.old shelf.new [] [] kept.old kept.new) }
    ensures limit { result ≡ Err Stop.Limit → MinimalLimit g.now shelf.old a.now kept.old }
{
    match minimise(alloc, g, a, shelf) {
        Err(Stop::Limit) => {
            kept.make_room(shelf);
            minimise(alloc, g, a, shelf)
        }
        answer => answer,
    }
}
