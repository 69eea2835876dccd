//! The machine that judges an assertion.

ghost use Rattle.std.specs.Prelude.{◌≡◌, ◌↔◌, [], ◌∷◌, IfOk, IsTrue};
ghost use Rattle.store_logic.specs.Terms.{outside};
ghost use Rattle.store_logic.specs.Satisfaction.{SatAll};
ghost use Rattle.store_sat.specs.Tasks.{known, whole, joined, question_of, surround_of, spot_of, cells_from, sets_from};
ghost use Rattle.store_sat.specs.WalksKept.{ground};
ghost use Rattle.store_sat.specs.Steps.{left_by_true, AreOrdered, IsReady, Steps, StepsTo, TurnsTo, with_frame, inside};

use crate::atoms::{is_of_type, is_walk};
use crate::bound::Bound;
use crate::spine::Spine;
use crate::task::{Frame, Join, Quantifier, Task, Turn};
use crate::terms::Place;
use crate::walks::Walks;
use plain_data::{Boxed, Stack};
use std::alloc::{AllocError, Global};
use store_core::{CellList, Store, TypeTable, Value};
use store_logic::Assertion;

/// What assertions are judged on.
#[derive(Clone, Copy)]
pub(crate) struct Judge<'a> {
    pub(crate) alloc: Global,
    pub(crate) types: &'a TypeTable,
    pub(crate) store: &'a Store,
}

impl<'a> Judge<'a> {
    /// An assertion of two parts.
    fn open_both(
        &self,
        spine: &mut Spine<'a>,
        join: Join,
        left: &'a Boxed<Assertion>,
        right: &'a Boxed<Assertion>,
    ) -> Result<Task<'a>, AllocError>
        ensures spot { IfOk result (λ task. spot_of self.now.store.now spine.new
            ≡ with_frame (joined join (whole right.now)) (spot_of self.now.store.now spine.old)) }
        ensures left { IfOk result (λ task. question_of self.now.store.now task ≡ whole left.now) }
    {
        let right = Task::Whole(right.get());
        spine.frames.push(Frame::With(join, right))?;
        Ok(Task::Whole(left.get()))
    }

    /// An assertion.
    fn open(
        &self,
        spine: &mut Spine<'a>,
        walks: &mut Walks<'a>,
        assertion: &'a Assertion,
    ) -> Result<Task<'a>, AllocError>
        requires ready { IsReady self.now.store.now spine.old (whole assertion.now) }
        requires ground { walks.old ≡ ground self.now.types.now self.now.store.now }
        ensures kept { walks.new ≡ walks.old }
        ensures steps { IfOk result (StepsTo self.now.types.now self.now.store.now spine.old (whole assertion.now) spine.new) }
    {
        let place = Place {
            store: self.store,
            bound: &spine.bound,
        };
        match assertion {
            Assertion::True => Ok(Task::Known(true)),
            Assertion::False => Ok(Task::Known(false)),
            Assertion::Truth(t) => Ok(Task::Known(place.truth(t))),
            Assertion::Is(t, v) => Ok(Task::Known(place.is(t, *v))),
            Assertion::Same(t, u) => Ok(Task::Known(place.same(t, u))),
            Assertion::Member(t, set) => Ok(Task::Known(place.is_member(t, *set))),
            Assertion::Subset(set, other) => Ok(Task::Known(place.is_subset(*set, *other))),
            Assertion::Walk(t, route, u) => Ok(Task::Known(is_walk(walks, &place, t, route, u)?)),
            Assertion::Pred(_, _) => Ok(Task::Known(false)),
            Assertion::Not(inner) => {
                spine.frames.push(Frame::Not)?;
                Ok(Task::Whole(inner.get()))
            }
            Assertion::And(left, right) => {
                let left = self.open_both(spine, Join::And, left, right)?;
                Ok(left)
            }
            Assertion::Or(left, right) => {
                let left = self.open_both(spine, Join::Or, left, right)?;
                Ok(left)
            }
            Assertion::Imp(left, right) => {
                let left = self.open_both(spine, Join::Imp, left, right)?;
                Ok(left)
            }
            Assertion::Iff(left, right) => {
                let left = self.open_both(spine, Join::Iff, left, right)?;
                Ok(left)
            }
            Assertion::Ex(ty, body) => {
                let body = body.get();
                Ok(Task::Cells(
                    Quantifier {
                        some: true,
                        ty: *ty,
                        body,
                    },
                    0,
                ))
            }
            Assertion::All(ty, body) => {
                let body = body.get();
                Ok(Task::Cells(
                    Quantifier {
                        some: false,
                        ty: *ty,
                        body,
                    },
                    0,
                ))
            }
            Assertion::ExSet(ty, body) => {
                let body = body.get();
                Ok(Task::Sets(
                    Quantifier {
                        some: true,
                        ty: *ty,
                        body,
                    },
                    CellList::new(self.alloc),
                    0,
                ))
            }
            Assertion::AllSet(ty, body) => {
                let body = body.get();
                Ok(Task::Sets(
                    Quantifier {
                        some: false,
                        ty: *ty,
                        body,
                    },
                    CellList::new(self.alloc),
                    0,
                ))
            }
        }
    }

    /// A body under its quantifier, which binds this value.
    fn enter(
        &self,
        spine: &mut Spine<'a>,
        body: &'a Assertion,
        value: Value,
    ) -> Result<Task<'a>, AllocError>
        ensures spot { IfOk result (λ task. spot_of self.now.store.now spine.new ≡ inside value (spot_of self.now.store.now spine.old)) }
        ensures body { IfOk result (λ task. question_of self.now.store.now task ≡ whole body.now) }
    {
        spine.frames.push(Frame::Leave)?;
        spine.bound.push(value)?;
        Ok(Task::Whole(body))
    }

    /// The cells from a place on: the first of them, and then the others.
    fn next_cell(
        &self,
        spine: &mut Spine<'a>,
        quantifier: Quantifier<'a>,
        place: usize,
    ) -> Result<Task<'a>, AllocError>
        requires { IsReady self.now.store.now spine.old (cells_from self.now.store.now quantifier place) }
        ensures { IfOk result (StepsTo self.now.types.now self.now.store.now spine.old (cells_from self.now.store.now quantifier.entry place) spine.new) }
    {
        let count = self.store.cells();
        if place >= count {
            return Ok(Task::Known(!quantifier.some));
        }
        let Some(cell) = self.store.cell_at(place) else {
            unreachable!()
        };
        let others = Task::Cells(quantifier, place + 1);
        if !is_of_type(self.store, quantifier.ty, cell) {
            return Ok(others);
        }
        spine.frames.push(Frame::With(quantifier.join(), others))?;
        let body = self.enter(spine, quantifier.body, Value::Cell(Some(cell)))?;
        Ok(body)
    }

    /// The sets from a place on: those without the cell there, and then those with it.
    fn next_set(
        &self,
        spine: &mut Spine<'a>,
        quantifier: Quantifier<'a>,
        chosen: CellList,
        place: usize,
    ) -> Result<Task<'a>, AllocError>
        requires { IsReady self.now.store.now spine.old (sets_from self.now.store.now quantifier chosen place) }
        ensures { IfOk result (StepsTo self.now.types.now self.now.store.now spine.old (sets_from self.now.store.now quantifier.entry chosen place) spine.new) }
    {
        let count = self.store.cells();
        if place >= count {
            let body = self.enter(spine, quantifier.body, Value::Cells(chosen))?;
            return Ok(body);
        }
        let Some(cell) = self.store.cell_at(place) else {
            unreachable!()
        };
        if !is_of_type(self.store, quantifier.ty, cell) {
            return Ok(Task::Sets(quantifier, chosen, place + 1));
        }
        let mut with = chosen.copy(self.alloc)?;
        with.push(cell)?;
        let others = Task::Sets(quantifier, with, place + 1);
        spine.frames.push(Frame::With(quantifier.join(), others))?;
        Ok(Task::Sets(quantifier, chosen, place + 1))
    }

    /// What is left of a join where the answer to the task in it is yes.
    fn close_true(&self, join: Join, other: Task<'a>) -> Task<'a>
        ensures { question_of self.now.store.now result ≡ left_by_true join (question_of self.now.store.now other.entry) }
    {
        match join {
            Join::Or => Task::Known(true),
            _ => other,
        }
    }

    /// The answer to the task in a join.
    fn close_with(
        &self,
        spine: &mut Spine<'a>,
        truth: bool,
        join: Join,
        other: Task<'a>,
    ) -> Result<Task<'a>, AllocError>
        requires { AreOrdered (joined join (question_of self.now.store.now other) ∷ (spot_of self.now.store.now spine.old).frames) (known truth) }
        ensures { IfOk result (λ task. Steps self.now.types.now self.now.store.now
            (with_frame (joined join (question_of self.now.store.now other.entry)) (spot_of self.now.store.now spine.old)) (known truth)
            (spot_of self.now.store.now spine.new) (question_of self.now.store.now task)) }
    {
        if truth {
            return Ok(self.close_true(join, other));
        }
        match join {
            Join::And => Ok(Task::Known(false)),
            Join::Or => Ok(other),
            Join::Imp => Ok(Task::Known(true)),
            Join::Iff => {
                spine.frames.push(Frame::Not)?;
                Ok(other)
            }
        }
    }

    /// The answer to the task in a frame, which was taken off.
    fn close(
        &self,
        spine: &mut Spine<'a>,
        truth: bool,
        frame: Frame<'a>,
    ) -> Result<Task<'a>, AllocError>
        requires { AreOrdered (surround_of self.now.store.now frame ∷ (spot_of self.now.store.now spine.old).frames) (known truth) }
        ensures { IfOk result (λ task. Steps self.now.types.now self.now.store.now
            (with_frame (surround_of self.now.store.now frame.entry) (spot_of self.now.store.now spine.old)) (known truth)
            (spot_of self.now.store.now spine.new) (question_of self.now.store.now task)) }
    {
        match frame {
            Frame::Not => Ok(Task::Known(!truth)),
            Frame::Leave => {
                spine.bound.pop();
                Ok(Task::Known(truth))
            }
            Frame::With(join, other) => self.close_with(spine, truth, join, other),
        }
    }

    /// The answer to the task in the nearest frame, if there is one around it.
    fn back(&self, spine: &mut Spine<'a>, truth: bool) -> Result<Turn<'a>, AllocError>
        requires { IsReady self.now.store.now spine.old (known truth) }
        ensures { IfOk result (TurnsTo self.now.types.now self.now.store.now spine.old (known truth) spine.new) }
    {
        let Some(frame) = spine.frames.pop() else {
            return Ok(Turn::Done(truth));
        };
        let next = self.close(spine, truth, frame)?;
        Ok(Turn::On(next))
    }

    /// What is to be judged after a task.
    fn turn(
        &self,
        spine: &mut Spine<'a>,
        walks: &mut Walks<'a>,
        task: Task<'a>,
    ) -> Result<Turn<'a>, AllocError>
        requires ready { IsReady self.now.store.now spine.old (question_of self.now.store.now task) }
        requires ground { walks.old ≡ ground self.now.types.now self.now.store.now }
        ensures kept { walks.new ≡ walks.old }
        ensures turns { IfOk result (TurnsTo self.now.types.now self.now.store.now spine.old (question_of self.now.store.now task.entry) spine.new) }
    {
        let next = match task {
            Task::Known(truth) => return self.back(spine, truth),
            Task::Whole(assertion) => self.open(spine, walks, assertion)?,
            Task::Cells(quantifier, place) => self.next_cell(spine, quantifier, place)?,
            Task::Sets(quantifier, chosen, place) => self.next_set(
                spine, quantifier, chosen, place,
            )?,
        };
        Ok(Turn::On(next))
    }

    /// Whether the store satisfies the assertion on all its cells.
    pub(crate) fn judge(&self, assertion: &'a Assertion) -> Result<bool, AllocError>
        ensures { IfOk result (λ truth. IsTrue truth ↔ SatAll self.now.types.now [] self.now.store.now outside assertion.now) }
    {
        let mut spine = Spine {
            frames: Stack::new(self.alloc),
            bound: Bound::new(self.alloc),
        };
        let mut walks = Walks::new(self.alloc, self.types, self.store);
        let mut task = Task::Whole(assertion);
        loop {
            match self.turn(&mut spine, &mut walks, task)? {
                Turn::On(next) => task = next,
                Turn::Done(truth) => return Ok(truth),
            }
        }
    }
}
