//! What a step shows.

ghost use Rattle.std.specs.Prelude.{◌≡◌, [], ◌∷◌, IfOk, OnOk};
ghost use Rattle.store_trace.specs.declared.event.Event.TheVariants as event;
ghost use Rattle.store_trace.specs.Recording.{recorded};
ghost use Rattle.whole_trace.specs.Shown.{form_shows};
ghost use Rattle.whole_turns.specs.Standings.{form_of};
ghost use Rattle.whole_turns.specs.Turning.{ShowsAs};

use crate::activation::At;
use crate::halted::Halted;
use crate::pieces::Next;
use std::alloc::{AllocError, Global};
use store_core::{Store, TypeTable};
use store_runner::{act_events, truth_events};
use store_trace::{Event, EventList, Recorder};

/// An event alone.
fn only(alloc: Global, event: Event) -> Result<EventList, AllocError>
    ensures { IfOk result (λ shown. shown ≡ event ∷ []) }
{
    let mut shown = EventList::new(alloc);
    shown.push(event)?;
    Ok(shown)
}

/// What the statement that comes next shows where it doesn't fail.
fn shown_by(
    alloc: Global,
    types: &TypeTable,
    found: Next<'_>,
    store: &Store,
) -> Result<EventList, AllocError>
    ensures { IfOk result (λ shown. shown ≡ form_shows types.now store.now [] (form_of found.entry)) }
{
    match found {
        Next::Do(line, act) => act_events(alloc, types, line, act, store),
        Next::If(line, cond, _, _) => truth_events(alloc, line, cond, store),
        Next::While(met) => only(alloc, Event::Cut(met.place.line)),
        Next::Behind(behind) => truth_events(alloc, behind.place.line, behind.test, store),
        Next::Split(place, _) => only(alloc, Event::Cut(place.line)),
        Next::Call(place, call) => only(alloc, Event::Call(place.line, call.callee)),
    }
}

/// The same, or nothing where nothing is recorded.
pub(crate) fn shown_next(
    alloc: Global,
    types: &TypeTable,
    found: Next<'_>,
    store: &Store,
    recorder: &Recorder,
) -> Result<EventList, AllocError>
    ensures { IfOk result (λ shown. recorded recorder.now shown ≡ recorded recorder.now (form_shows types.now store.now [] (form_of found.entry))) }
{
    if recorder.is_on() {
        shown_by(alloc, types, found, store)
    } else {
        Ok(EventList::new(alloc))
    }
}

/// What the exit shows, whose line this is; nothing where nothing is recorded.
pub(crate) fn shown_exit(
    alloc: Global,
    line: u32,
    recorder: &Recorder,
) -> Result<EventList, AllocError>
    ensures { IfOk result (λ shown. recorded recorder.now shown ≡ recorded recorder.now (event.Cut line ∷ [])) }
{
    if recorder.is_on() {
        only(alloc, Event::Cut(line))
    } else {
        Ok(EventList::new(alloc))
    }
}

/// Records what a step shows that doesn't fail.
pub(crate) fn note_shown<'a>(
    end: Result<At<'a>, Halted>,
    shown: EventList,
    recorder: &mut Recorder,
) -> Result<Result<At<'a>, Halted>, AllocError>
    ensures same { IfOk result (λ after. after ≡ end.entry) }
    ensures shows { IfOk result (ShowsAs recorder.old recorder.new shown) }
{
    match end {
        Ok(after) => {
            recorder.add(shown)?;
            Ok(Ok(after))
        }
        Err(halted) => Ok(Err(halted)),
    }
}

/// Records a return.
pub(crate) fn note_return(alloc: Global, recorder: &mut Recorder) -> Result<(), AllocError>
    ensures { OnOk result (recorder.new ≡ recorded recorder.old (event.Return ∷ [])) }
{
    if !recorder.is_on() {
        return Ok(());
    }
    recorder.add(only(alloc, Event::Return)?)
}
