//! What is visible at a place of a text.

ghost use Rattle.std.specs.Prelude.{◌≡◌, [], take, length, None, IfOk, IfErr, OnOk};
ghost use Rattle.ws2s_read.specs.declared.names.Meaning.{Meaning as StandsFor};
ghost use Rattle.pale_text.specs.declared.refusal.TextStop.TheVariants.{NoMemory, Refused};
ghost use Rattle.pale_text.specs.Refusals.{refused_at};
ghost use Rattle.ws2s_read.specs.Resolving.{meaning_of, known, declared, IsStop};

use indexmap::IndexMap;
use pale_text::{Pos, Refusal, RefusalKind, TextStop};
use std::alloc::{AllocError, Global};
use std::marker::Model;
use ws2s_syntax::{Class, ClassList, Name, SourceName};

/// What a name stands for.
#[derive(Debug, Drop)]
pub enum Meaning {
    Variable(Name, Class),
    /// The predicate with this number, in order of the text, with the classes of its parameters.
    Predicate(u32, ClassList),
}

/// The names that are visible at a place, each once, in the order in which they became visible.
#[derive(Drop)]
pub struct Names {
    meanings: IndexMap<Vec<u8>, Meaning>,
}

impl Model for Names {
    ghost use Rattle.std.specs.Prelude.{ℕ, List};
    ghost use Rattle.ws2s_read.specs.declared.names.Meaning.{Meaning};
    ghost use Rattle.ws2s_read.specs.NameTables.{names_of};

    ghost Value = { List (List ℕ × Meaning) };

    ghost view = { λ names. names_of names.meanings.entries };
}

impl Names {
    /// No name. Takes no memory yet.
    pub fn new(alloc: Global) -> Names
        ensures { result ≡ [] }
    {
        Names {
            meanings: IndexMap::new(alloc),
        }
    }

    /// How many names are visible.
    pub fn len(&self) -> usize
        ensures { result ≡ length self.now }
    {
        self.meanings.len()
    }

    /// What a name stands for. `Refused` is `unknown` where it isn't visible.
    pub fn find(&self, name: &SourceName) -> Result<&Meaning, TextStop>
        ensures meaning { IfOk result (λ meaning. known self.now name.now ≡ Ok meaning.now) }
        ensures stop { IfErr result (IsStop (known self.now name.now)) }
    {
        match self.meanings.get(name.bytes.as_slice()) {
            Some(meaning) => Ok(meaning),
            None => Err(refused(name.place, RefusalKind::Unknown)),
        }
    }

    /// `Refused` is `duplicate` where the name is visible.
    pub fn check_new(&self, name: &SourceName) -> Result<(), TextStop>
        ensures new { OnOk result (meaning_of self.now name.now.bytes ≡ None) }
        ensures stop { (meaning : StandsFor) → IfErr result (IsStop (declared self.now name.now meaning)) }
    {
        if self.meanings.contains_key(name.bytes.as_slice()) {
            return Err(refused(name.place, RefusalKind::Duplicate));
        }
        Ok(())
    }

    /// Makes a name visible that isn't.
    pub fn add(&mut self, name: &SourceName, meaning: Meaning) -> Result<(), AllocError>
        requires { meaning_of self.old name.now.bytes ≡ None }
        ensures { OnOk result (declared self.old name.now meaning ≡ Ok self.new) }
    {
        let key = Vec::from_slice(*self.meanings.allocator(), name.bytes.as_slice())?;
        self.meanings.insert(key, meaning)?;
        Ok(())
    }

    /// Makes a name visible. `Refused` is `duplicate` where it is visible already.
    pub fn declare(&mut self, name: &SourceName, meaning: Meaning) -> Result<(), TextStop>
        ensures names { OnOk result (declared self.old name.now meaning ≡ Ok self.new) }
        ensures stop { IfErr result (IsStop (declared self.old name.now meaning)) }
    {
        self.check_new(name)?;
        self.add(name, meaning)?;
        Ok(())
    }

    /// Leaves the first names visible, and no other.
    pub fn close(&mut self, count: usize)
        ensures { self.new ≡ take count self.old }
    {
        self.meanings.truncate(count);
    }
}

/// The refusal of a name or a term at this place.
pub fn refused(place: Pos, kind: RefusalKind) -> TextStop
    ensures { result ≡ Refused (refused_at place kind) }
{
    TextStop::Refused(Refusal::at(place, kind))
}

/// A number that is kept in 32 bits. A text with more names than those isn't held in memory.
pub fn number(count: usize) -> Result<u32, TextStop>
    ensures value { IfOk result (λ number. number ≡ count) }
    ensures stop { IfErr result (λ stop. stop ≡ NoMemory) }
{
    match u32::try_from(count) {
        Ok(number) => Ok(number),
        Err(_) => Err(TextStop::NoMemory),
    }
}
