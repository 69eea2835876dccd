//! Tokens as names.

ghost use Rattle.std.specs.Prelude.{◌≡◌, IfOk};
ghost use Rattle.std.specs.Option.{option_copied};
ghost use Rattle.pale_syntax.specs.MakingParts.{name_of, nameless};

use pale_syntax::Name;
use pale_text::{Token, name_bytes_of, nowhere, place_of};
use plain_data::Items;
use std::alloc::{AllocError, Global};

/// Stands where no name is known. Takes no memory.
pub fn nameless(alloc: Global) -> Name
    ensures { result ≡ nameless }
{
    Name {
        bytes: Items::new(alloc),
        place: nowhere(),
    }
}

/// The token as a name.
pub fn name_of(alloc: Global, token: Option<&Token>) -> Result<Name, AllocError>
    ensures { IfOk result (λ name. name ≡ name_of (option_copied token.entry)) }
{
    Ok(Name {
        bytes: name_bytes_of(alloc, token)?,
        place: place_of(token),
    })
}
