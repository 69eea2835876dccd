//! Sections that are accepted, and sections that are refused at a line.
use cert_check::{CertFault, FaultKind, SectionStop, check_section};
use cert_text::{Line, read_line};
use std::alloc::{AllocError, Global};
use std::test::Fail;
use ws2s_core::{Formula, Guide, Track};

/// What is said of a section.
#[derive(Clone, Copy, Debug, PartialEq, Eq)]
enum Answer {
    Accepted,
    Refused(usize, FaultKind),
    NoMemory,
}

/// The lines of a text, up to the first that is none.
fn lines_of(alloc: Global, text: &[u8]) -> Result<Vec<Line>, AllocError> {
    let mut lines = Vec::new(alloc);
    let mut left = text;
    for _ in 0..text.len() {
        match read_line(alloc, left) {
            Ok((line, after)) => {
                lines.push(line)?;
                left = after;
            }
            Err(_) => return Ok(lines),
        }
    }
    Ok(lines)
}

/// What is said of a section of a formula under the plain guide.
fn said(alloc: Global, f: &Formula, text: &[u8]) -> Result<Answer, AllocError> {
    let g = Guide::plain(alloc)?;
    let lines = lines_of(alloc, text)?;
    match check_section(alloc, f, &g, lines.as_slice()) {
        Ok(()) => Ok(Answer::Accepted),
        Err(SectionStop::Refused(CertFault { line, kind })) => Ok(Answer::Refused(line, kind)),
        Err(SectionStop::NoMemory) => Ok(Answer::NoMemory),
    }
}

/// "The set is one position, and it isn't."
fn contradiction(alloc: Global) -> Result<Formula, AllocError> {
    let one = Formula::Single(Track(0));
    let none = Formula::not(alloc, Formula::Single(Track(0)))?;
    Formula::and(alloc, one, none)
}

/// "For some set of track 1, the set of track 0 isn't within itself."
fn never(alloc: Global) -> Result<Formula, AllocError> {
    let outside = Formula::not(alloc, Formula::Sub(Track(0), Track(0)))?;
    Formula::ex2(alloc, Track(1), outside)
}

const SECTION: &[u8] = b"section whole 3
and 2
space 0 1 0
left 0 0
right 0 0
root 0 0 0 =0
accept
pair 0 0 0 0
pair 0 1 1 0
pair 0 2 2 0
end
";

#[test]
fn a_contradiction_is_accepted(rt: HostRuntime) -> Result<(), Fail> {
    let f = contradiction(rt.alloc())?;
    assert_eq!(rt; said(rt.alloc(), &f, SECTION)?, Answer::Accepted);
    Ok(())
}

const ACCEPTS: &[u8] = b"section whole 3
and 2
space 0 1 0
left 0 0
right 0 0
root 0 0 0 =0
accept 0
pair 0 0 0 0
pair 0 1 1 0
pair 0 2 2 0
end
";

const SHORT: &[u8] = b"section whole 3
and 2
space 0 1 0
left 0 0
right 0 0
root 0 0 0 =0
accept
pair 0 0 0 0
pair 0 1 1 0
end
";

#[test]
fn accepting_states_and_missing_pairs_are_refused(rt: HostRuntime) -> Result<(), Fail> {
    let f = contradiction(rt.alloc())?;
    assert_eq!(rt;
        said(rt.alloc(), &f, ACCEPTS)?,
        Answer::Refused(11, FaultKind::Table)
    );
    assert_eq!(rt;
        said(rt.alloc(), &f, SHORT)?,
        Answer::Refused(10, FaultKind::Table)
    );
    Ok(())
}

const LEAST: &[u8] = b"section whole 3
ex 2
space 0 1 0
left 0 0
right 0 0
root 0 0 0 =0
accept
init 0 0
set 0 0 0
end
";

const TOO_LARGE: &[u8] = b"section whole 4
ex 2
space 0 1 0
left 0 0
right 0 0
root 0 0 0 =0
accept 0
init 0 0
settle 0 1 0 0 1
set 0 0 0 1
end
";

#[test]
fn states_that_do_not_settle_are_refused(rt: HostRuntime) -> Result<(), Fail> {
    let f = never(rt.alloc())?;
    assert_eq!(rt; said(rt.alloc(), &f, LEAST)?, Answer::Accepted);
    let always = Formula::not(rt.alloc(), never(rt.alloc())?)?;
    assert_eq!(rt;
        said(rt.alloc(), &always, TOO_LARGE)?,
        Answer::Refused(9, FaultKind::Table)
    );
    Ok(())
}
