//! Places in a text.

ghost use Rattle.std.specs.Prelude.{◌≡◌, ◌+◌, ◌^◌, ◌<◌, length};
ghost use Rattle.pale_text.specs.Places.{first_place, place_past};

/// The place of a byte in a text, or of the text's end: both count from 1, and a column counts bytes.
#[derive(Clone, Copy, Debug, PartialEq, Eq)]
pub struct Pos {
    pub line: u32,
    pub column: u32,
}

/// Where a token stands: the place of its first byte, and its number of bytes. No token has a line's end in it.
#[derive(Clone, Copy, Debug, PartialEq, Eq)]
pub struct Span {
    pub start: Pos,
    pub length: u32,
}

/// The place of a text's first byte.
pub fn first_place() -> Pos
    ensures { result ≡ first_place }
{
    Pos { line: 1, column: 1 }
}

/// The place after these bytes, the first of which stands at this place.
pub fn place_past(place: Pos, bytes: &[u8]) -> Pos
    requires lines { place.line + length bytes.now < 2 ^ 32 }
    requires columns { place.column + length bytes.now < 2 ^ 32 }
    ensures { result ≡ place_past place bytes.now }
{
    let mut place = place;
    for byte in bytes {
        if *byte == b'\n' {
            place.line += 1;
            place.column = 1;
        } else {
            place.column += 1;
        }
    }
    place
}
