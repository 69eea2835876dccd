//! Laws of sections.

ghost use Rattle.std.specs.Prelude.{◌≡◌, ℕ, List, Some, slice_get};
ghost use Rattle.gta_theory.specs.Assignments.{Assignment, IsFinite};
ghost use Rattle.gta_theory.specs.Guides.{Spaces, IsGuide};
ghost use Rattle.ws2s_core.specs.declared.formula.Formula.{Formula};
ghost use Rattle.ws2s_core.specs.declared.node.Node.{Node};
ghost use Rattle.ws2s_core.specs.Nodes.{formulas_of};
ghost use Rattle.ws2s_core.specs.Recognising.{Recognises};
ghost use Rattle.ws2s_core.specs.Satisfaction.{WSat};
ghost use Rattle.cert_theory.specs.Sections.{Stage, AreStages, IsSection};

/// Each automaton of a section accepts exactly the assignments that satisfy the formula of its number.
pub fn automata_of_a_section_recognise()
    ensures { (g : Spaces) (nodes : List Node) (stages : ℕ → Stage) → IsGuide g → AreStages g nodes stages →
        (k : ℕ) (f : Formula) → slice_get (formulas_of nodes) k ≡ Some f →
        Recognises g (stages k).automaton f }
{}

/// A formula with a section has no satisfying assignment of finite sets.
pub fn a_section_leaves_no_satisfying_assignment()
    ensures { (g : Spaces) (f : Formula) (nodes : List Node) (stages : ℕ → Stage) → IsGuide g →
        IsSection g f nodes stages → (a : Assignment) → IsFinite a → ¬ WSat f a }
{}
