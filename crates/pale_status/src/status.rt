//! How a call of the program ends.

/// How a call ends, by the number that the process gives back.
#[derive(Clone, Copy, Debug, PartialEq, Eq)]
pub enum Status {
    /// Every triple is valid, or the mode has no triples and did its work.
    Good,
    /// Some triple is invalid.
    Bad,
    /// The words were refused.
    Words,
    /// The text was refused.
    Text,
    /// No triple is invalid and some decision met the limit.
    Limit,
    /// Want of memory.
    Memory,
    /// The source failed.
    ReadFault,
    /// The sink failed.
    WriteFault,
}

impl Status {
    ghost use Rattle.std.specs.Prelude.{◌≡◌};
    ghost use Rattle.pale_status.specs.Statuses.{number_of};

    /// The number of the status, from 0 to 7. Takes no memory.
    pub fn number(&self) -> u8
        ensures { result ≡ number_of self.now }
    {
        match self {
            Status::Good => 0,
            Status::Bad => 1,
            Status::Words => 2,
            Status::Text => 3,
            Status::Limit => 4,
            Status::Memory => 5,
            Status::ReadFault => 6,
            Status::WriteFault => 7,
        }
    }
}
