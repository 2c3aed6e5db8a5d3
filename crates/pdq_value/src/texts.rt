//! Texts and names: bytes that contracts see as a list.
ghost use Rattle.std.specs.Prelude.{◌≡◌, ℕ, List, IfOk, true};
ghost use Rattle.std.specs.Str.{is_utf8};

use pdq_base::Memory;
use std::alloc::Global;
use std::marker::Model;

/// A text, seen as the list of its bytes, which are UTF-8.
#[derive(Debug, Drop)]
pub struct Text {
    bytes: Vec<u8>,
}

impl Model for Text {
    ghost use Rattle.std.specs.Prelude.{◌≡◌, ℕ, List, true};
    ghost use Rattle.std.specs.Str.{is_utf8};

    ghost Value = { List ℕ };

    ghost view = { λ t. t.bytes.items };

    ghost invariant = { λ t. is_utf8 t.bytes.items ≡ true };
}

impl Text {
    /// A text of these bytes.
    pub fn new(bytes: Vec<u8>) -> Text
        requires utf8 { is_utf8 bytes.items ≡ true }
        ensures value { result ≡ bytes.items }
    {
        Text { bytes }
    }

    /// A text of a copy of these bytes.
    ///
    /// # Errors
    /// `Memory` where it is wanting.
    pub fn from_bytes(alloc: Global, bytes: &[u8]) -> Result<Text, Memory>
        requires utf8 { is_utf8 bytes.now ≡ true }
        ensures value { IfOk result (λ t. t ≡ bytes.now) }
    {
        let Ok(bytes) = Vec::from_slice(alloc, bytes) else {
            return Err(Memory);
        };
        Ok(Text { bytes })
    }

    /// A text of a copy of this one, which is UTF-8 by its type.
    ///
    /// # Errors
    /// `Memory` where it is wanting.
    #[tactic(auto, using(crate::proofs::Utf8Texts::utf8_decided))]
    pub fn from_str(alloc: Global, text: &str) -> Result<Text, Memory>
        ensures value { IfOk result (λ t. t ≡ text.now) }
    {
        Text::from_bytes(alloc, text.as_bytes())
    }

    /// The same text once more.
    ///
    /// # Errors
    /// `Memory` where it is wanting.
    pub fn copy(&self, alloc: Global) -> Result<Text, Memory>
        ensures value { IfOk result (λ t. t ≡ self.now) }
        ensures utf8 { is_utf8 self.now ≡ true }
    {
        Text::from_bytes(alloc, &self.bytes)
    }

    /// Its bytes, which are UTF-8.
    pub fn bytes(&self) -> &[u8]
        ensures value { result.now ≡ self.now }
        ensures utf8 { is_utf8 self.now ≡ true }
    {
        &self.bytes
    }
}

/// The name of a table or a column, seen as the list of its bytes: a lower case letter, then lower case letters, digits and `_`.
#[derive(Debug, Drop)]
pub struct Name {
    bytes: Vec<u8>,
}

impl Model for Name {
    ghost Value = { List ℕ };

    ghost view = { λ n. n.bytes.items };
}

impl Name {
    /// A name of these bytes.
    pub fn new(bytes: Vec<u8>) -> Name
        ensures value { result ≡ bytes.items }
    {
        Name { bytes }
    }

    /// A name of a copy of these bytes.
    ///
    /// # Errors
    /// `Memory` where it is wanting.
    pub fn from_bytes(alloc: Global, bytes: &[u8]) -> Result<Name, Memory>
        ensures value { IfOk result (λ n. n ≡ bytes.now) }
    {
        let Ok(bytes) = Vec::from_slice(alloc, bytes) else {
            return Err(Memory);
        };
        Ok(Name { bytes })
    }

    /// The same name once more.
    ///
    /// # Errors
    /// `Memory` where it is wanting.
    pub fn copy(&self, alloc: Global) -> Result<Name, Memory>
        ensures value { IfOk result (λ n. n ≡ self.now) }
    {
        Name::from_bytes(alloc, &self.bytes)
    }

    /// Its bytes.
    pub fn bytes(&self) -> &[u8]
        ensures value { result.now ≡ self.now }
    {
        &self.bytes
    }
}
