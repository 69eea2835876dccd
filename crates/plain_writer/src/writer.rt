ghost use Rattle.std.specs.Prelude.{◌≡◌, [], ◌∷◌, IfOk, OnErr};
ghost use Rattle.std.specs.Prelude.{Some, None};
ghost use Rattle.plain_writer.specs.Growing.{Grows};

use std::alloc::{AllocError, Global};
use std::marker::Model;

/// A text as it is written. Contracts see what was pushed, or `None` once memory ran out.
#[derive(Debug, Drop)]
pub struct Writer {
    text: Vec<u8>,
    is_whole: bool,
}

impl Model for Writer {
    ghost use Rattle.std.specs.Prelude.{List, ℕ, if◌then◌else◌};
    ghost use Rattle.std.specs.Prelude.{Option, Some, None};

    ghost Value = { Option (List ℕ) };

    ghost view = { λ writer. if writer.is_whole then Some writer.text.items else None };
}

impl Writer {
    /// A writer of which nothing was asked yet. Takes no memory.
    pub fn new(alloc: Global) -> Writer
        ensures { result ≡ Some [] }
    {
        Writer {
            text: Vec::new(alloc),
            is_whole: true,
        }
    }

    /// Puts a byte at the end of the text.
    pub fn push(&mut self, byte: u8)
        ensures { Grows self.old (byte ∷ []) self.new }
    {
        if self.is_whole {
            self.is_whole = self.text.push(byte).is_ok();
        }
    }

    /// Puts bytes at the end of the text.
    pub fn push_all(&mut self, bytes: &[u8])
        ensures { Grows self.old bytes.now self.new }
    {
        if self.is_whole {
            self.is_whole = self.text.extend_from_slice(bytes).is_ok();
        }
    }

    /// The text.
    ///
    /// # Errors
    ///
    /// Memory ran out at a push, be it the first or the last.
    pub fn finish(self) -> Result<Vec<u8>, AllocError>
        ensures text { IfOk result (λ text. self ≡ Some text.items) }
        ensures err { OnErr result (self ≡ None) }
    {
        let Writer { text, is_whole } = self;
        if is_whole { Ok(text) } else { Err(AllocError) }
    }
}
