//! `pre` and `post` of a procedure.

ghost use Rattle.std.specs.Prelude.{◌≡◌, None, not, IfOk, IfErr, OnOk};
ghost use Rattle.pale_tables.specs.Faults.{IsStop};
ghost use Rattle.pale_fitting.specs.Declaring.{DeclarationsFit};
ghost use Rattle.pale_sights.specs.Sights.{heading_sight};
ghost use Rattle.pale_sights.specs.Framing.{IsHeading};
ghost use Rattle.pale_procedures.specs.Stated.{stated_or_true, stated_fault};
ghost use Rattle.pale_procedures.specs.Claims.{claims_fault, claims_of};

use crate::stated::read_optional;
use pale_sights::{Heading, heading_sight};
use pale_syntax::{Bracketed, Procedure};
use pale_text::TextStop;
use pale_vocabulary::Declared;
use std::alloc::Global;
use store_logic::Assertion;

/// `pre` and `post`.
#[derive(Drop)]
pub struct Claims {
    pub pre: Assertion,
    pub post: Assertion,
}

/// `pre`, which may name parameters, or `post`, which may name results.
fn read_claim(
    alloc: Global,
    declared: &Declared,
    heading: &Heading,
    is_pre: bool,
    bracketed: &Option<Bracketed>,
) -> Result<Assertion, TextStop>
    requires declarations { DeclarationsFit declared.now }
    requires heading { IsHeading heading.now }
    ensures met { OnOk result (stated_fault declared.now (heading_sight is_pre (not is_pre) heading.now) bracketed.now ≡ None) }
    ensures claim { IfOk result (λ made. made ≡ stated_or_true declared.now (heading_sight is_pre (not is_pre) heading.now) bracketed.now) }
    ensures stop { IfErr result (IsStop (stated_fault declared.now (heading_sight is_pre (not is_pre) heading.now) bracketed.now)) }
{
    let mut sight = heading_sight(alloc, heading, is_pre, !is_pre)?;
    read_optional(alloc, declared, &mut sight, bracketed)
}

/// `pre` and `post`, which may be left out.
#[tactic(auto, unfolding(crate::specs::Claims::claims_fault))]
pub fn read_claims(
    alloc: Global,
    declared: &Declared,
    heading: &Heading,
    procedure: &Procedure,
) -> Result<Claims, TextStop>
    requires declarations { DeclarationsFit declared.now }
    requires heading { IsHeading heading.now }
    ensures met { OnOk result (claims_fault declared.now heading.now procedure.now ≡ None) }
    ensures claims { IfOk result (λ claims. claims ≡ claims_of declared.now heading.now procedure.now) }
    ensures stop { IfErr result (IsStop (claims_fault declared.now heading.now procedure.now)) }
{
    let pre = read_claim(alloc, declared, heading, true, &procedure.pre)?;
    let post = read_claim(alloc, declared, heading, false, &procedure.post)?;
    Ok(Claims { pre, post })
}
