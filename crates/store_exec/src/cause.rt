//! Why a store fails a triple.

/// Why execution fails, or what is wrong on arriving at a cut. (Møller and Schwartzbach, PLDI 2001; the causes and their numbers
/// are this project's.)
#[derive(Clone, Copy, Debug, PartialEq, Eq)]
pub enum Cause {
    /// Something is read or written through null, or null is freed.
    Null,
    /// Something is read or written through a dead cell.
    Dangling,
    /// A dead cell is freed.
    DoubleFree,
    /// A variable or a field of a live cell names a dead cell.
    DanglingRef,
    /// A live cell is named twice by data variables and data fields of live cells.
    Shared,
    /// A live cell isn't reached from a data variable by data fields.
    Leak,
    /// A pointer field isn't its only destination, or null where there is none.
    Field,
    /// A pointer argument of a call names a cell outside the handed part, or another pointer variable one inside.
    Escape,
    /// An assertion of the cut is false.
    Post,
    /// The assertion of an `assert` is false.
    Assert,
    /// A field is read or written that the live cell hasn't.
    Variant,
}
