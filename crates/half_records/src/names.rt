//! Names that many records have, each kept once.

ghost use Rattle.std.specs.Prelude.{◌≡◌, ◌<◌, ◌+◌, IfOk, OnOk, Some, None, List, ℕ, string_bytes, if◌then◌else◌};
ghost use Rattle.std.specs.Str.{bytes_eq};
ghost use Rattle.indexmap.specs.IndexMap.{index_map_len, spare};
ghost use Rattle.half_records.specs.Names.{number_of, is_number, AreApart, KeepsNumbers};

use indexmap::IndexMap;
use std::alloc::{AllocError, Global};

/// Names, each with a number of its own.
#[derive(Drop)]
pub struct Names {
    numbers: IndexMap<String, u32>,
}

impl Names {
    // No names; takes no memory.
    pub(crate) fn new(alloc: Global) -> Names
        ensures { AreApart result }
    {
        Names {
            numbers: IndexMap::new(alloc),
        }
    }

    // The number of a name.
    fn find(&self, name: &str) -> Option<u32>
        ensures { result ≡ number_of self.now name.now }
    {
        self.numbers.get(name).copied()
    }

    // The name has this number.
    pub(crate) fn is(&self, name: &str, number: u32) -> bool
        ensures { result ≡ is_number number (number_of self.now name.now) }
    {
        match self.find(name) {
            None => false,
            Some(own) => own == number,
        }
    }

    // Makes room for one name more. No number changes, at `Err` either.
    fn reserve(&mut self) -> Result<(), AllocError>
        ensures same { (name : List ℕ) → number_of self.new name ≡ number_of self.old name }
        ensures count { index_map_len self.new.numbers ≡ index_map_len self.old.numbers }
        ensures spare { OnOk result (0 < spare self.new.numbers) }
    {
        self.numbers.reserve(1)
    }

    // The name has this number from now on.
    fn give(&mut self, name: String, number: u32)
        requires room { 0 < spare self.old.numbers }
        ensures numbers { (other : List ℕ) → number_of self.new other
            ≡ (if bytes_eq (string_bytes name) other then Some number else number_of self.old other) }
        ensures count { number_of self.old (string_bytes name) ≡ None
            → index_map_len self.new.numbers ≡ index_map_len self.old.numbers + 1 }
    {
        match self.numbers.insert(name, number) {
            Ok(_) => (),
            Err(_) => unreachable!(),
        }
    }

    // The number of a name, which has one from now on. Other names keep theirs, at `Err` too.
    pub(crate) fn add(&mut self, alloc: Global, name: &str) -> Result<u32, AllocError>
        ensures number { IfOk result (λ number. number_of self.new name.now ≡ Some number) }
        ensures kept { KeepsNumbers self.old self.new }
        ensures apart { AreApart self.old → AreApart self.new }
    {
        if let Some(number) = self.find(name) {
            return Ok(number);
        }
        let number = self.numbers.len();
        if number >= u32::MAX as usize {
            return Err(AllocError);
        }
        let text = String::from_str(alloc, name)?;
        self.reserve()?;
        self.give(text, number as u32);
        Ok(number as u32)
    }
}
