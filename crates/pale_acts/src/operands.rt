//! Paths of code, and what is compared or assigned.

ghost use Rattle.std.specs.Prelude.{◌≡◌};
ghost use Rattle.pale_acts.specs.Operands.{var_in, path_in, operand_in, first_place};

use pale_syntax::Term as SourceTerm;
use pale_terms::{TypedPath, TypedTerm};
use pale_text::Pos;
use store_core::VarId;
use store_logic::{Base, Operand, Path};

/// The variable that a name of code stands for.
pub fn var_in(base: Base) -> VarId
    ensures { result ≡ var_in base }
{
    match base {
        Base::Var(var) => var,
        Base::Bound(_) | Base::Param(_) => VarId(0),
    }
}

/// A path of code.
pub fn path_in(path: TypedPath) -> Path
    ensures { result ≡ path_in path }
{
    let TypedPath {
        base,
        fields,
        sort: _,
    } = path;
    Path {
        var: var_in(base),
        fields,
    }
}

/// What is compared or assigned.
pub fn operand_in(term: TypedTerm) -> Operand
    ensures { result ≡ operand_in term }
{
    match term {
        TypedTerm::Null => Operand::Null,
        TypedTerm::Path(path) => Operand::Path(path_in(path)),
    }
}

/// The place of the first token of a term.
pub fn first_place(term: &SourceTerm) -> Pos
    ensures { result ≡ first_place term.now }
{
    match term {
        SourceTerm::Null(place) => *place,
        SourceTerm::Path(path) => path.base.place,
    }
}
