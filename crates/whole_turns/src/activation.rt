//! Where a run stands.

use crate::pieces::Piece;
use pale_typed::{CallParts, TypedProc};
use plain_data::Stack;
use store_core::{Store, VarTable};

/// A procedure in the middle of its run, but for its store.
#[derive(Drop)]
pub struct Activation<'a> {
    /// The number of the procedure.
    pub number: u32,
    pub vars: &'a VarTable,
    pub proc: &'a TypedProc,
    /// The statements that are left.
    pub left: Stack<Piece<'a>>,
}

/// A call that waits for its callee.
#[derive(Drop)]
pub struct Suspended<'a> {
    pub call: &'a CallParts,
    /// Its caller, of which what follows the call is left.
    pub caller: Activation<'a>,
    /// The caller's store without the handed part.
    pub rest: Store,
}

/// Where a run stands, but for the calls that wait.
#[derive(Drop)]
pub enum At<'a> {
    /// In this procedure, with this store.
    Running(Activation<'a>, Store),
    /// Behind the exit of a procedure, with this store.
    Exited(Store),
}
