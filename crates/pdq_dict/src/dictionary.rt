//! The dictionary of texts.
ghost use Rattle.std.specs.Prelude.{◌≡◌, ◌<◌, ◌≤◌, Contains, [], IfNone, IfOk, IfSome, List, fold, length, slice_get, slice_index_or};
ghost use Rattle.pdq_value.specs.Tables.{TableView, tables_of};
ghost use Rattle.pdq_dict.specs.Dictionary.{AreCodesOf, cell_limit, cells_in, code_of, dictionary_of, place_of, texts_of};
ghost use Rattle.pdq_dict.specs.Texts.{IsUtf8Text, noted};

use crate::gathering::note_table;
use crate::text_sets::{Notes, TextSet};
use pdq_base::Memory;
use pdq_value::Db;
use std::alloc::Global;
use std::marker::Model;

/// The texts of a database, each once, in the order of their bytes. The code of a text is its place among them, from 0 on; so codes rise as texts do.
/// It is seen as the list of the texts.
#[derive(Debug, Drop)]
pub struct Dict {
    texts: TextSet,
}

impl Model for Dict {
    ghost use Rattle.std.specs.Prelude.{List, ℕ};
    ghost use Rattle.pdq_dict.specs.Dictionary.{IsDictionary};

    ghost Value = { List (List ℕ) };

    ghost view = { λ d. d.texts };

    ghost invariant = { λ d. IsDictionary d.texts };
}

impl Notes {
    /// The dictionary of the texts, and for each number the code of its text.
    ///
    /// # Errors
    /// `Memory` where it is wanting.
    pub fn into_dict(self, alloc: Global) -> Result<(Dict, Vec<u32>), Memory>
        ensures dict { IfOk result (λ r. (tables : List TableView) → self ≡ fold noted [] (texts_of tables) → r.0 ≡ dictionary_of tables) }
        ensures codes { IfOk result (λ r. AreCodesOf self r.0 r.1.items) }
    {
        let (texts, codes) = self.sort(alloc)?;
        Ok((Dict { texts }, codes))
    }
}

impl Dict {
    /// The dictionary of a database, which has at most 32,000,000 cells.
    ///
    /// # Errors
    /// `Memory` where it is wanting.
    pub fn of(alloc: Global, db: &Db) -> Result<Dict, Memory>
        requires few { cells_in (tables_of db.now) ≤ cell_limit }
        ensures value { IfOk result (λ d. d ≡ dictionary_of (tables_of db.now)) }
    {
        let mut notes = Notes::new(alloc);
        for table in &db.tables {
            note_table(alloc, table, &mut notes)?;
        }
        let (dict, _) = notes.into_dict(alloc)?;
        Ok(dict)
    }

    /// The code of a text; `None` where the text is not there.
    pub fn code(&self, text: &[u8]) -> Option<u32>
        ensures code { result ≡ code_of self.now text.now }
        ensures found { IfSome result (λ c. slice_get self.now c ≡ Some text.now) }
        ensures absent { IfNone result (¬ Contains self.now text.now) }
        ensures within { IfSome result (λ c. c < length self.now) }
    {
        self.texts.position(text).map(|place| place as u32)
    }

    /// How many texts are less than this one, which may be there or not.
    pub fn place(&self, text: &[u8]) -> u32
        ensures place { result ≡ place_of self.now text.now }
    {
        self.texts.lesser(text) as u32
    }

    /// The text of a code.
    pub fn text(&self, code: u32) -> &[u8]
        requires there { code < length self.now }
        ensures text { slice_get self.now code ≡ Some result.now }
        ensures utf8 { IsUtf8Text result.now }
        ensures inverse { code_of self.now result.now ≡ Some code }
    {
        self.texts.text(code as usize)
    }

    /// The text of a code, or the empty text where there is no such code.
    pub(crate) fn text_or_empty(&self, code: u64) -> &[u8]
        ensures text { result.now ≡ slice_index_or self.now code [] }
        ensures utf8 { IsUtf8Text result.now }
    {
        self.texts.text_or_empty(code as usize)
    }
}
