//! Formulas after heap events, written out or tried on a few positions.

use crate::asked::formula_of;
use crate::lines::{Stop, number_at, word_at};
use crate::places::{Set, at_place, holds, put};
use crate::spelling::{push_number, spell};
use crate::views::{add_places, first_view, look_at_all, mark_all};
use graph_view::View;
use plain_data::Items;
use plain_writer::Writer;
use std::alloc::{AllocError, Global};
use tree_encode::Layout;
use ws2s_core::{Formula, Track};

/// So many tracks have sets.
const TRACKS: usize = 40;

/// Writes whether the formula holds of the sets.
fn write_sign(out: &mut Writer, f: &Formula, places: &[u32], sets: &mut [Set]) {
    out.push(if holds(f, places, sets) { b'+' } else { b'-' });
}

/// Writes of each position in turn whether the formula holds with it on the track.
fn write_row(out: &mut Writer, f: &Formula, a: u32, places: &[u32], sets: &mut [Set]) {
    let count = (places.len() % 32) as u32;
    out.push(b' ');
    for place in 0..count {
        put(sets, Track(a), at_place(place));
        write_sign(out, f, places, sets);
    }
}

/// Writes such a row for each position on another track.
fn write_rows(out: &mut Writer, f: &Formula, a: u32, b: u32, places: &[u32], sets: &mut [Set]) {
    let count = (places.len() % 32) as u32;
    for place in 0..count {
        put(sets, Track(a), at_place(place));
        write_row(out, f, b, places, sets);
    }
}

/// Writes of how many pairs of sets for tracks 0 and 1 the formula holds.
fn write_count(out: &mut Writer, f: &Formula, places: &[u32], sets: &mut [Set]) {
    let many = at_place((places.len() % 16) as u32);
    let mut count: u32 = 0;
    for zero in 0..many {
        put(sets, Track(0), zero);
        for one in 0..many {
            put(sets, Track(1), one);
            count = count.wrapping_add(holds(f, places, sets) as u32);
        }
    }
    push_number(out, count);
}

/// Writes where the formula of a line holds: at each position on its track, at each two on its two tracks, or at all.
fn write_held(out: &mut Writer, f: &Formula, line: &str, places: &[u32], sets: &mut [Set]) {
    match word_at(line, 1) {
        "live" => write_row(out, f, number_at(line, 2), places, sets),
        "type" | "variant" | "true" | "has" => write_row(out, f, number_at(line, 3), places, sets),
        "step" => write_rows(out, f, number_at(line, 3), number_at(line, 4), places, sets),
        "walk" => write_rows(out, f, number_at(line, 4), number_at(line, 5), places, sets),
        "trees" => {
            out.push(b' ');
            write_count(out, f, places, sets);
        }
        _ => {
            out.push(b' ');
            write_sign(out, f, places, sets);
        }
    }
}

/// Writes a question and the formula that it asks for, or where there are positions where that holds.
fn write_asked(out: &mut Writer, f: &Formula, line: &str, places: &[u32], sets: &mut [Set]) {
    out.push_all(line.strip_prefix("? ").unwrap_or(line).as_bytes());
    out.push(b':');
    if places.is_empty() {
        out.push(b' ');
        spell(out, f);
    } else {
        write_held(out, f, line, places, sets);
    }
    out.push(b'\n');
}

/// A program, and the scene of all views with its positions.
#[derive(Clone, Copy)]
struct Scene<'a> {
    program: &'a str,
    text: &'a str,
    places: &'a [u32],
}

/// Writes what a line asks for.
fn write_line(
    alloc: Global,
    l: &Layout<'_>,
    scene: Scene<'_>,
    view: &View,
    line: &str,
    sets: &mut [Set],
    out: &mut Writer,
) -> Result<(), Stop> {
    let formula = formula_of(alloc, l, scene.program, view, line)?;
    write_asked(out, &formula, line, scene.places, sets);
    Ok(())
}

/// Writes what each line asks for that begins with `? `.
fn write_lines(
    alloc: Global,
    l: &Layout<'_>,
    scene: Scene<'_>,
    view: &View,
    text: &str,
    sets: &mut [Set],
    out: &mut Writer,
) -> Result<(), Stop> {
    for line in text.lines() {
        if line.starts_with("? ") {
            write_line(alloc, l, scene, view, line, sets, out)?;
        }
    }
    Ok(())
}

/// Writes what a view gives: its own formulas, and those that stand with the scene.
fn write_seen(
    alloc: Global,
    l: &Layout<'_>,
    scene: Scene<'_>,
    view: &mut View,
    text: &str,
    out: &mut Writer,
) -> Result<(), Stop> {
    look_at_all(l, view, text)?;
    let mut sets = [0; TRACKS];
    mark_all(scene.places, scene.text, &mut sets);
    out.push_all(b"view\n");
    write_lines(alloc, l, scene, view, text, &mut sets, out)?;
    write_lines(alloc, l, scene, view, scene.text, &mut sets, out)
}

/// Writes what a view of these lines gives.
fn write_view(
    alloc: Global,
    l: &Layout<'_>,
    scene: Scene<'_>,
    text: &str,
    out: &mut Writer,
) -> Result<(), Stop> {
    let mut view = first_view(alloc);
    write_seen(alloc, l, scene, &mut view, text, out)
}

/// Writes what each view gives.
fn write_each(
    alloc: Global,
    l: &Layout<'_>,
    scene: Scene<'_>,
    views: &str,
    out: &mut Writer,
) -> Result<(), Stop> {
    for text in views.split("\n\n") {
        write_view(alloc, l, scene, text, out)?;
    }
    Ok(())
}

/// The positions of a scene.
fn places_of(alloc: Global, scene: &str) -> Result<Items<u32>, AllocError> {
    let mut places = Items::new(alloc);
    add_places(&mut places, scene)?;
    Ok(places)
}

/// Writes what a scene and the views behind it ask for.
pub(crate) fn write_views(
    alloc: Global,
    l: &Layout<'_>,
    program: &str,
    rest: &str,
    out: &mut Writer,
) -> Result<(), Stop> {
    let (scene, views) = rest.split_once("\n\n").unwrap_or((rest, ""));
    let places = places_of(alloc, scene)?;
    let scene = Scene {
        program,
        text: scene,
        places: places.as_slice(),
    };
    write_each(alloc, l, scene, views, out)
}
