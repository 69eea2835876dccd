//! How fields and triples were judged, and how the report of a program ends.

ghost use Rattle.std.specs.Prelude.{◌≡◌};
ghost use Rattle.std.specs.List.{list_all, list_any};
ghost use Rattle.program_judge.specs.Reports as reports;

/// How a pointer field was judged.
#[derive(Clone, Copy, Debug, PartialEq, Eq)]
pub enum FieldWay {
    Functional,
    Ambiguous,
    Limit,
}

/// How a triple was judged.
#[derive(Clone, Copy, Debug, PartialEq, Eq)]
pub enum TripleWay {
    Valid,
    Invalid,
    Limit,
}

/// How the report of a program ends.
#[derive(Clone, Copy, Debug, PartialEq, Eq)]
pub enum Ending {
    /// Every triple is valid.
    Good,
    /// Some triple is invalid.
    Bad,
    /// Some field is ambiguous, and no triple was judged.
    Ambiguous,
    /// None of these, and some field or triple met the limit.
    Limit,
}

fn is_functional(way: FieldWay) -> bool
    ensures { result ≡ reports.is_functional way }
{
    matches!(way, FieldWay::Functional)
}

fn is_ambiguous(way: FieldWay) -> bool
    ensures { result ≡ reports.is_ambiguous way }
{
    matches!(way, FieldWay::Ambiguous)
}

fn is_invalid(way: TripleWay) -> bool
    ensures { result ≡ reports.is_invalid way }
{
    matches!(way, TripleWay::Invalid)
}

fn is_at_limit(way: TripleWay) -> bool
    ensures { result ≡ reports.is_at_limit way }
{
    matches!(way, TripleWay::Limit)
}

fn any_ambiguous(ways: &[FieldWay]) -> bool
    ensures { result ≡ list_any reports.is_ambiguous ways.now }
{
    ways.iter().any(|way| is_ambiguous(*way))
}

fn any_invalid(ways: &[TripleWay]) -> bool
    ensures { result ≡ list_any reports.is_invalid ways.now }
{
    ways.iter().any(|way| is_invalid(*way))
}

fn any_at_limit(ways: &[TripleWay]) -> bool
    ensures { result ≡ list_any reports.is_at_limit ways.now }
{
    ways.iter().any(|way| is_at_limit(*way))
}

/// Whether every field is functional, so that triples can be judged.
pub fn are_functional(ways: &[FieldWay]) -> bool
    ensures { result ≡ list_all reports.is_functional ways.now }
{
    ways.iter().all(|way| is_functional(*way))
}

/// How a report ends where some field isn't functional.
pub fn stopped_ending(ways: &[FieldWay]) -> Ending
    ensures { result ≡ reports.stopped_ending ways.now }
{
    if any_ambiguous(ways) {
        Ending::Ambiguous
    } else {
        Ending::Limit
    }
}

/// How a report ends where all triples were judged.
pub fn judged_ending(ways: &[TripleWay]) -> Ending
    ensures { result ≡ reports.judged_ending ways.now }
{
    if any_invalid(ways) {
        Ending::Bad
    } else if any_at_limit(ways) {
        Ending::Limit
    } else {
        Ending::Good
    }
}
