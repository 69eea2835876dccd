//! The cut points of a procedure.

ghost use Rattle.std.specs.Prelude.{◌≡◌};
ghost use Rattle.hoare_split.specs.Flows.{is_point};

use pale_text::Pos;

/// A cut point of a procedure at which code ends. One in the text is known by the place of its keyword.
#[derive(Clone, Copy, Debug, PartialEq, Eq)]
pub enum Point {
    At(Pos),
    Exit,
}

impl Point {
    /// Whether both are one cut point.
    pub fn is(self, other: Point) -> bool
        ensures { result ≡ is_point self other }
    {
        match (self, other) {
            (Point::Exit, Point::Exit) => true,
            (Point::At(place), Point::At(with)) => {
                place.line == with.line && place.column == with.column
            }
            _ => false,
        }
    }
}
