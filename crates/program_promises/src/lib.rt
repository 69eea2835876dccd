//! What a reader of a report may conclude, laws alone: where every triple of a text's program was told to be valid, no whole run of
//! it fails; each triple within its own Peak is told to be valid or invalid; and a text has one reading.
//!
//! `specs/Safety.antt` says when whole runs don't fail, `specs/Completeness.antt` when the Peaks are within the limit, and
//! `specs/Telling.antt` what a report tells of each field and triple then.
#![tactic(auto)]

mod promises;

pub use promises::{
    good_reports_have_safe_runs, reports_tell_each_within_its_peak,
    reports_within_the_peaks_are_verdicts, texts_have_one_reading,
};
