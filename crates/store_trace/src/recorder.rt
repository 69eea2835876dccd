//! Keeps what is shown, or nothing.

ghost use Rattle.std.specs.Prelude.{◌≡◌, [], Some, None, is_some, IfSome, OnOk};
ghost use Rattle.store_trace.specs.Recording.{recorded};

use crate::event::EventList;
use std::alloc::{AllocError, Global};
use std::marker::Model;

/// Takes what steps show. Contracts see what was shown so far, or `None` where nothing is kept, so that an execution that isn't
/// traced takes no memory for it.
#[derive(Drop)]
pub struct Recorder {
    events: EventList,
    is_on: bool,
}

impl Model for Recorder {
    ghost use Rattle.std.specs.Prelude.{List, Option, Some, None, if◌then◌else◌};
    ghost use Rattle.store_trace.specs.declared.event.Event.{Event};

    ghost Value = { Option (List Event) };

    ghost view = { λ r. if r.is_on then Some r.events else None };
}

impl Recorder {
    /// One that keeps what is shown; nothing was shown yet. Takes no memory.
    pub fn on(alloc: Global) -> Recorder
        ensures { result ≡ Some [] }
    {
        Recorder {
            events: EventList::new(alloc),
            is_on: true,
        }
    }

    /// One that keeps nothing. Takes no memory.
    pub fn off(alloc: Global) -> Recorder
        ensures { result ≡ None }
    {
        Recorder {
            events: EventList::new(alloc),
            is_on: false,
        }
    }

    /// Whether what is shown is kept. Takes no memory.
    pub fn is_on(&self) -> bool
        ensures { result ≡ is_some self.now }
    {
        self.is_on
    }

    /// These are shown next.
    pub fn add(&mut self, shown: EventList) -> Result<(), AllocError>
        ensures { OnOk result (self.new ≡ recorded self.old shown) }
    {
        if self.is_on {
            self.events.append(shown)?;
        }
        Ok(())
    }

    /// What was shown; nothing where nothing was kept. Takes no memory.
    pub fn into_events(self) -> EventList
        ensures { IfSome self (λ shown. result ≡ shown) }
    {
        self.events
    }
}
