//! Views of stores after heap events, and scenes of a few positions, that lines spell.

use crate::lines::{Stop, field_at, number_at, sym_at, track_at, variant_at, word_at};
use crate::places::{Set, put, set_at, set_of};
use graph_view::{Event, EventList, SymList, View};
use plain_data::Items;
use std::alloc::{AllocError, Global};
use store_core::TypeTable;
use tree_encode::Layout;
use ws2s_core::Track;

/// The event of a line: `new GUARD NUMBER VARIANT`, `write GUARD CELL FIELD VALUE` or `free GUARD CELL`.
fn event_of(types: &TypeTable, line: &str) -> Option<Event> {
    let guard = track_at(line, 1);
    match word_at(line, 0) {
        "new" => {
            let variant = variant_at(types, line, 3)?;
            Some(Event::New(guard, number_at(line, 2), variant))
        }
        "write" => {
            let field = field_at(types, line, 3)?;
            Some(Event::Write(guard, sym_at(line, 2), field, sym_at(line, 4)))
        }
        "free" => Some(Event::Free(guard, sym_at(line, 2))),
        _ => None,
    }
}

/// Puts the values of a line into the view, as many as there are variables.
fn add_values(view: &mut View, line: &str, count: u32) -> Result<(), AllocError> {
    for place in 1..=count {
        view.vars.push(sym_at(line, place as usize))?;
    }
    Ok(())
}

/// Puts what a line says into the view: `values 1 -`, `next 11`, `inside 9`, `outside 9`, or an event. A question says nothing.
fn look_at(l: &Layout<'_>, view: &mut View, line: &str) -> Result<(), Stop> {
    match word_at(line, 0) {
        "?" | "view" => {}
        "values" => add_values(view, line, l.vars().vars())?,
        "next" => view.next = number_at(line, 1),
        "inside" => view.region = Some((Track(number_at(line, 1)), true)),
        "outside" => view.region = Some((Track(number_at(line, 1)), false)),
        _ => match event_of(l.types(), line) {
            Some(event) => view.events.push(event)?,
            None => return Err(Stop),
        },
    }
    Ok(())
}

/// A view of a store before any event.
pub(crate) fn first_view(alloc: Global) -> View {
    View {
        vars: SymList::new(alloc),
        events: EventList::new(alloc),
        region: None,
        next: 0,
    }
}

/// Puts what lines say into the view.
pub(crate) fn look_at_all(l: &Layout<'_>, view: &mut View, text: &str) -> Result<(), Stop> {
    for line in text.lines() {
        look_at(l, view, line)?;
    }
    Ok(())
}

/// Puts the positions of the line of a scene that begins with `places` into the list, by their numbers.
pub(crate) fn add_places(places: &mut Items<u32>, scene: &str) -> Result<(), AllocError> {
    let (_, rest) = scene.split_once("\nplaces ").unwrap_or((scene, ""));
    for word in rest.lines().next().unwrap_or("").split_whitespace() {
        places.push(number_at(word, 0))?;
    }
    Ok(())
}

/// Puts the positions of a line, as `mark 3 14`, onto its track.
fn mark(places: &[u32], line: &str, sets: &mut [Set]) {
    let track = Track(number_at(line, 1));
    for word in line.split_whitespace().skip(2) {
        let set = set_of(sets, track) | set_at(places, number_at(word, 0));
        put(sets, track, set);
    }
}

/// Puts the positions of each line of a scene that begins with `mark` onto its track.
pub(crate) fn mark_all(places: &[u32], scene: &str, sets: &mut [Set]) {
    for line in scene.lines() {
        if line.starts_with("mark ") {
            mark(places, line, sets);
        }
    }
}
