//! What all procedures of a program may use.

use pale_calls::Procedures;
use pale_vocabulary::Declared;

/// What a procedure may use besides its own variables: types, predicates, and all procedures, those that come later too.
#[derive(Drop)]
pub struct Basis {
    pub declared: Declared,
    pub procedures: Procedures,
}
