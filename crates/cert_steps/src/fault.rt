//! Why lines are read no further.

ghost use Rattle.std.specs.Prelude.{◌≡◌, ◌≢◌, [], drop, length};

use cert_text::Line;
use std::alloc::AllocError;

/// What is wrong with a line.
#[derive(Clone, Copy, Debug, PartialEq, Eq)]
pub enum FaultKind {
    /// It has no form for its place.
    Syntax,
    /// It names a space, state, node, class or formula that isn't there.
    Unknown,
    /// It fails a check, or another line is due.
    Table,
    /// The number of parts isn't the formula's.
    Formula,
    /// An accepting state is reached.
    NotEmpty,
    /// A line is due past the last one.
    Missing,
}

/// Why lines are read no further.
#[derive(Clone, Copy, Debug, PartialEq, Eq)]
pub enum Stop {
    /// The first line with a fault: how many lines are left there, it among them; none is where one is missing.
    Fault(usize, FaultKind),
    /// A step leads out of settled states: how many lines are left behind theirs.
    Open(usize),
    /// Memory ran out, which says nothing of the lines.
    NoMemory,
}

impl From<AllocError> for Stop {
    ghost use Rattle.std.specs.Prelude.{◌≡◌};
    ghost use Rattle.cert_steps.specs.declared.fault.Stop.TheVariants.{NoMemory};

    ghost from_gives = { λ _ stop. stop ≡ NoMemory };

    fn from(_: AllocError) -> Stop {
        Stop::NoMemory
    }
}

/// The first of these lines has another form than is due, or there is none.
pub fn wrong_form(lines: &[Line]) -> Stop
    ensures missing { lines.now ≡ [] → result ≡ Stop.Fault 0 FaultKind.Missing }
    ensures form { lines.now ≢ [] → result ≡ Stop.Fault (length lines.now) FaultKind.Syntax }
{
    match lines.len() {
        0 => Stop::Fault(0, FaultKind::Missing),
        left => Stop::Fault(left, FaultKind::Syntax),
    }
}

/// The lines from a place on; none past the last one.
pub fn lines_from(lines: &[Line], place: usize) -> &[Line]
    ensures { result.now ≡ drop place lines.now }
{
    let (_, rest) = lines.split_at(place.min(lines.len()));
    rest
}
