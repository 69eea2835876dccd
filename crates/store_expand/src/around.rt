//! Where an assertion stands while predicates are put in, and what its terms, names and arguments become there.

ghost use Rattle.std.specs.Prelude.{◌≡◌, IfOk, option_map};
ghost use Rattle.store_expand.specs.Standing.{at_top, in_body, deeper, put_term, put_set, put_truth, put_arg, put_args};
ghost use Rattle.store_expand.specs.Places.{standing};

use crate::fill::{fill_set, fill_term, fill_truth};
use std::alloc::{AllocError, Global};
use std::rc::Rc;
use store_logic::{Arg, ArgList, Assertion, Base, Term};

/// Where an assertion stands: the arguments that are put into it, and under how many quantifiers of the predicate's body.
#[derive(Drop)]
pub(crate) struct Around {
    /// The arguments of the use whose body it is in; none outside of all predicates.
    pub(crate) args: Option<Rc<ArgList>>,
    pub(crate) depth: u32,
}

impl Around {
    /// Outside of all predicates.
    pub(crate) fn top() -> Around
        ensures { standing result ≡ at_top }
    {
        Around {
            args: None,
            depth: 0,
        }
    }

    /// In the body of a predicate with these arguments.
    pub(crate) fn body(alloc: Global, args: ArgList) -> Result<Around, AllocError>
        ensures { IfOk result (λ around. standing around ≡ in_body args) }
    {
        let args = Rc::new(alloc, args)?;
        Ok(Around {
            args: Some(args),
            depth: 0,
        })
    }

    /// The same place again. The arguments are shared.
    pub(crate) fn again(&self) -> Result<Around, AllocError>
        ensures { IfOk result (λ around. standing around ≡ standing self.now) }
    {
        under(&self.args, self.depth)
    }

    /// Under one quantifier more. Want of memory where no number is left for it.
    pub(crate) fn deeper(&self) -> Result<Around, AllocError>
        ensures { IfOk result (λ around. standing around ≡ deeper (standing self.now)) }
    {
        match self.depth.checked_add(1) {
            Some(depth) => under(&self.args, depth),
            None => Err(AllocError),
        }
    }

    /// The term with the arguments put in.
    pub(crate) fn term(&self, alloc: Global, term: &Term) -> Result<Term, AllocError>
        ensures { IfOk result (λ put. put ≡ put_term (standing self.now) term.now) }
    {
        match &self.args {
            Some(args) => fill_term(alloc, args.as_ref().as_slice(), self.depth, term),
            None => term.copy(alloc),
        }
    }

    /// The name of a set with the arguments put in.
    pub(crate) fn set(&self, name: Base) -> Result<Base, AllocError>
        ensures { IfOk result (λ put. put ≡ put_set (standing self.now) name) }
    {
        match &self.args {
            Some(args) => fill_set(args.as_ref().as_slice(), self.depth, name),
            None => Ok(name),
        }
    }

    /// That the term is true, with the arguments put in.
    pub(crate) fn truth(&self, alloc: Global, term: &Term) -> Result<Assertion, AllocError>
        ensures { IfOk result (λ put. put ≡ put_truth (standing self.now) term.now) }
    {
        match &self.args {
            Some(args) => fill_truth(alloc, args.as_ref().as_slice(), self.depth, term),
            None => Ok(Assertion::Truth(term.copy(alloc)?)),
        }
    }

    /// An argument with the arguments put in.
    fn arg(&self, alloc: Global, arg: &Arg) -> Result<Arg, AllocError>
        ensures { IfOk result (λ put. put ≡ put_arg (standing self.now) arg.now) }
    {
        match arg {
            Arg::Cell(term) => Ok(Arg::Cell(self.term(alloc, term)?)),
            Arg::Set(name) => Ok(Arg::Set(self.set(*name)?)),
            Arg::Truth(term) => Ok(Arg::Truth(self.term(alloc, term)?)),
        }
    }

    /// The arguments of a use with the arguments put in.
    pub(crate) fn arg_list(&self, alloc: Global, args: &[Arg]) -> Result<ArgList, AllocError>
        ensures { IfOk result (λ put. put ≡ put_args (standing self.now) args.now) }
    {
        let mut put = ArgList::new(alloc);
        for arg in args {
            put.push(self.arg(alloc, arg)?)?;
        }
        Ok(put)
    }
}

/// The place under so many quantifiers of the body where these arguments go in. The arguments are shared.
fn under(args: &Option<Rc<ArgList>>, depth: u32) -> Result<Around, AllocError>
    ensures { IfOk result (λ around. standing around ≡ record { args = option_map (λ shared. shared.value) args.now; depth = depth }) }
{
    match args {
        Some(shared) => Ok(Around {
            args: Some(shared.clone()?),
            depth,
        }),
        None => Ok(Around { args: None, depth }),
    }
}
