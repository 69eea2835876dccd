//! Sections that are worked out.

ghost use Rattle.ws2s_theory.specs.Worked.{plain};
ghost use Rattle.cert_theory.specs.Sections.{IsSection};
ghost use Rattle.cert_theory.specs.Worked.{contradiction, contradiction_nodes, contradiction_stages};
ghost use Rattle.cert_theory.specs.Worked.{quantified, quantified_nodes, quantified_stages};

/// "The set is one position, and it isn't" has a section of one state, to which each state of the part goes with itself.
pub fn a_contradiction_has_a_section()
    ensures { IsSection plain contradiction contradiction_nodes contradiction_stages }
{}

/// "For some set of track 1, the set of track 0 isn't within itself" has a section with one set, that of the initial state.
pub fn a_quantified_formula_has_a_section()
    ensures { IsSection plain quantified quantified_nodes quantified_stages }
{}
