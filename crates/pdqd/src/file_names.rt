//! The names of files.
ghost use Rattle.std.specs.Prelude.{◌≡◌, IfOk};

use pdq_base::Memory;
use std::alloc::Global;
use std::marker::Model;

/// The name of a file, seen as the list of its bytes.
#[derive(Drop)]
pub(crate) struct FileName {
    name: String,
}

impl Model for FileName {
    ghost use Rattle.std.specs.Prelude.{ℕ, List, string_bytes};

    ghost Value = { List ℕ };

    ghost view = { λ n. string_bytes n.name };
}

impl FileName {
    /// The file of this name.
    ///
    /// # Errors
    /// `Memory` where it is wanting.
    pub(crate) fn copied(alloc: Global, name: &str) -> Result<FileName, Memory>
        ensures value { IfOk result (λ n. n ≡ name.now) }
    {
        match String::from_str(alloc, name) {
            Ok(name) => Ok(FileName { name }),
            Err(_) => Err(Memory),
        }
    }

    /// Its text.
    pub(crate) fn as_str(&self) -> &str
        ensures value { result.now ≡ self.now }
    {
        &self.name
    }
}
