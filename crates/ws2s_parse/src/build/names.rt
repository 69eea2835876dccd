//! Tokens as names.

ghost use Rattle.std.specs.Prelude.{◌≡◌, IfOk};
ghost use Rattle.std.specs.Option.{option_copied};
ghost use Rattle.ws2s_parse.specs.MakingParts.{name_of, nameless};

use pale_text::{Token, name_bytes_of, nowhere, place_of};
use plain_data::Items;
use std::alloc::{AllocError, Global};
use ws2s_syntax::SourceName;

/// Stands where no name is known. Takes no memory.
pub fn nameless(alloc: Global) -> SourceName
    ensures { result ≡ nameless }
{
    SourceName {
        bytes: Items::new(alloc),
        place: nowhere(),
    }
}

/// The token as a name.
pub fn name_of(alloc: Global, token: Option<&Token>) -> Result<SourceName, AllocError>
    ensures { IfOk result (λ name. name ≡ name_of (option_copied token.entry)) }
{
    Ok(SourceName {
        bytes: name_bytes_of(alloc, token)?,
        place: place_of(token),
    })
}
