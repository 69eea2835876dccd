//! What is asked of a program by the one line behind `---`.

ghost use Rattle.std.specs.Prelude.{◌≡◌, ◌∷◌, IfOk, IfErr, codes};
ghost use Rattle.std.specs.Str.{bytes_eq};
ghost use Rattle.store_text.specs.Lines.{lines_of};
ghost use Rattle.pale_parts.specs.Requests.{Asks, IsRequest, IsRequestFault, word_of, request_line};

use crate::parts::{split_line, triple_in};
use std::alloc::{AllocError, Global};

/// What a text asks for of its program.
#[derive(Clone, Copy, Debug, PartialEq, Eq)]
pub enum Request {
    /// Its pointer fields.
    Fields,
    /// The triple of this number, counted from 1.
    Triple(u32),
}

/// Why the part behind `---` is no request.
#[derive(Clone, Copy, Debug, PartialEq, Eq)]
pub enum RequestKind {
    /// There is no line `---`, or no line behind it.
    Missing,
    /// The line has another form, or a second one is there.
    Syntax,
    /// The program has no triple of that number.
    UnknownName,
}

/// Why a request is refused, and at which line behind `---`, counted from 1; 0 is where there is no line `---`.
#[derive(Clone, Copy, Debug, PartialEq, Eq)]
pub struct RequestFault {
    pub line: u32,
    pub kind: RequestKind,
}

impl RequestKind {
    /// The word that is written for it. Takes no memory.
    fn word(&self) -> &'static str
        ensures { result.now ≡ word_of self.now }
    {
        match self {
            RequestKind::Missing => "missing",
            RequestKind::Syntax => "syntax",
            RequestKind::UnknownName => "unknown-name",
        }
    }
}

/// The fault of this kind at the first line.
fn first_fault(kind: RequestKind) -> RequestFault
    ensures { result ≡ record { line = 1; kind = kind } }
{
    RequestFault { line: 1, kind }
}

/// Whether a line asks for the pointer fields.
fn is_fields(line: &[u8]) -> bool
    ensures { result ≡ bytes_eq line.now (codes "fields") }
{
    line == b"fields".as_slice()
}

/// What a line asks for of a program with so many triples.
fn asked_in(line: &[u8], triples: usize) -> Result<Request, RequestFault>
    ensures ok { IfOk result (Asks triples line.now) }
    ensures err { IfErr result (λ fault. (more : _) → IsRequestFault triples (line.now ∷ more) fault) }
{
    if is_fields(line) {
        return Ok(Request::Fields);
    }
    match triple_in(line) {
        None => Err(first_fault(RequestKind::Syntax)),
        Some(number) if number as usize > triples => Err(first_fault(RequestKind::UnknownName)),
        Some(number) => Ok(Request::Triple(number)),
    }
}

/// What the part behind `---` asks for of a program with so many triples. Takes no memory.
///
/// # Errors
///
/// The first fault of the part: no line, a line of another form, a triple that isn't there, or a second line.
pub fn request_in(part: &[u8], triples: usize) -> Result<Request, RequestFault>
    ensures ok { IfOk result (IsRequest triples (lines_of part.now)) }
    ensures err { IfErr result (IsRequestFault triples (lines_of part.now)) }
{
    if part.is_empty() {
        return Err(first_fault(RequestKind::Missing));
    }
    let (line, more) = split_line(part);
    let request = asked_in(line, triples)?;
    if more.is_empty() {
        Ok(request)
    } else {
        Err(RequestFault {
            line: 2,
            kind: RequestKind::Syntax,
        })
    }
}

/// `request refused N KIND`
///
/// # Errors
///
/// Want of memory.
pub fn request_line(alloc: Global, fault: RequestFault) -> Result<Vec<u8>, AllocError>
    ensures { IfOk result (λ text. text.items ≡ request_line fault) }
{
    let mut text = Vec::new(alloc);
    text.extend_from_slice(b"request refused ")?;
    text.extend_from_slice(fault.line.to_string(alloc)?.as_bytes())?;
    text.extend_from_slice(b" ")?;
    text.extend_from_slice(fault.kind.word().as_bytes())?;
    text.extend_from_slice(b"\n")?;
    Ok(text)
}
