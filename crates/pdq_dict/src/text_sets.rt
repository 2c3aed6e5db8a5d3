//! Texts noted as they come, each once and with a number, and the same texts in order.
ghost use Rattle.std.specs.Prelude.{◌≡◌, ◌<◌, ◌≤◌, [], All, IfOk, IsPermutation, IsSorted, OnOk, Some, count_by, length, map, position, slice_get, slice_index_or};
ghost use Rattle.std.specs.List.Sorted.{IsStrictlySortedBy};
ghost use Rattle.std.specs.Ordering.{is_lt, nat_cmp, ordering_then};
ghost use Rattle.pdq_dict.specs.Dictionary.{AreCodesOf, cell_limit};
ghost use Rattle.pdq_dict.specs.Texts.{AreCodesBelow, IsBelow, IsMarkOf, IsUtf8Text, is_text, mark_at_entry, number_at_mark, number_of, noted, text_at_entry, text_cmp, text_of_mark};

use indexmap::IndexMap;
use pdq_base::Memory;
use pdq_value::text_prefix;
use std::alloc::Global;
use std::cmp::Ordering;
use std::marker::Model;

/// The most texts that are noted: as many as a database has cells.
const MOST_TEXTS: usize = 32_000_000;

/// What stands beside a text: its key prefix, by which it is compared first, and its number, from 0 in the order in which texts came.
#[derive(Clone, Copy, Debug, Drop)]
pub(crate) struct Mark {
    pub prefix: u128,
    pub number: u32,
}

/// Texts noted as they come, each once, seen as the list of them in that order.
#[derive(Debug, Drop)]
pub struct Notes {
    texts: IndexMap<Vec<u8>, Mark>,
}

impl Model for Notes {
    ghost use Rattle.std.specs.Prelude.{List, ℕ, map};
    ghost use Rattle.indexmap.specs.IndexMap.{keys};
    ghost use Rattle.pdq_dict.specs.Texts.{AreNotes};

    ghost Value = { List (List ℕ) };

    ghost view = { λ n. map (λ t. t.items) (keys n.texts) };

    ghost invariant = { λ n. AreNotes n.texts.entries };
}

/// Texts, each once, in an order of their own, seen as the list of them in that order: the texts as they came, and their marks in order.
#[derive(Debug, Drop)]
pub(crate) struct TextSet {
    texts: IndexMap<Vec<u8>, Mark>,
    order: Vec<Mark>,
}

impl Model for TextSet {
    ghost use Rattle.std.specs.Prelude.{List, ℕ, map};
    ghost use Rattle.pdq_dict.specs.Texts.{text_at_entry, text_of_mark};

    ghost Value = { List (List ℕ) };

    ghost view = { λ s. map (text_of_mark (map text_at_entry s.texts.entries)) s.order.items };
}

/// The text with this number, or the empty text where there is none.
fn text_numbered(texts: &IndexMap<Vec<u8>, Mark>, number: u32) -> &[u8]
    ensures text { result.now ≡ slice_index_or (map text_at_entry texts.now.entries) number [] }
{
    match texts.get_index(number as usize) {
        Some((text, _)) => text,
        None => &[],
    }
}

/// By key prefixes, and by the bytes of the texts where those tie.
fn compare_marks(texts: &IndexMap<Vec<u8>, Mark>, a: &Mark, b: &Mark) -> Ordering
    ensures order { result ≡ ordering_then (nat_cmp a.now.prefix b.now.prefix) (text_cmp (text_of_mark (map text_at_entry texts.now.entries) a.now) (text_of_mark (map text_at_entry texts.now.entries) b.now)) }
{
    let order = a.prefix.cmp(&b.prefix);
    if order.is_ne() {
        return order;
    }
    text_numbered(texts, a.number).cmp(&text_numbered(texts, b.number))
}

/// The marks of the texts, by their numbers.
fn marks_of(alloc: Global, texts: &IndexMap<Vec<u8>, Mark>) -> Result<Vec<Mark>, Memory>
    ensures marks { IfOk result (λ v. v.items ≡ map mark_at_entry texts.now.entries) }
{
    let Ok(marks) = texts.values().copied().collect(alloc) else {
        return Err(Memory);
    };
    Ok(marks)
}

/// Puts the marks of texts in the order of the texts' bytes.
fn sort_marks(texts: &IndexMap<Vec<u8>, Mark>, marks: &mut Vec<Mark>)
    requires marked { All (IsMarkOf (map text_at_entry texts.now.entries)) marks.old.items }
    ensures sorted { IsSorted text_cmp (map (text_of_mark (map text_at_entry texts.now.entries)) marks.new.items) }
    ensures same { IsPermutation marks.old.items marks.new.items }
{
    marks.sort_unstable_by(|a, b| compare_marks(texts, a, b));
}

/// The number of the mark at a place.
fn number_at(marks: &[Mark], place: usize) -> u32
    requires there { place < length marks.now }
    ensures number { slice_get (map number_at_mark marks.now) place ≡ Some result }
{
    let mark = &marks[place];
    mark.number
}

/// For each number the place at which its mark stands.
fn places_of(alloc: Global, count: usize, marks: &[Mark]) -> Result<Vec<u32>, Memory>
    requires count { count ≡ length marks.now }
    requires few { length marks.now ≤ cell_limit }
    requires numbers { All (IsBelow (length marks.now)) marks.now }
    ensures count { IfOk result (λ v. length v.items ≡ length marks.now) }
    ensures codes { IfOk result (λ v. AreCodesBelow (length marks.now) marks.now v.items) }
{
    let Ok(mut places) = vec![in alloc; 0u32; count] else {
        return Err(Memory);
    };
    for place in 0..marks.len() {
        let number = number_at(marks, place);
        places[number as usize] = place as u32;
    }
    Ok(places)
}

impl Notes {
    /// No text.
    pub fn new(alloc: Global) -> Notes
        ensures empty { result ≡ [] }
    {
        Notes {
            texts: IndexMap::new(alloc),
        }
    }

    /// Takes in a text and answers its number: one that is there keeps its number and is not copied, a new one is copied and goes last.
    ///
    /// # Errors
    /// `Memory` where it is wanting, and for more texts than a database has cells.
    pub fn note(&mut self, alloc: Global, text: &[u8]) -> Result<u32, Memory>
        requires utf8 { IsUtf8Text text.now }
        ensures noted { OnOk result (self.new ≡ noted self.old text.now) }
        ensures number { IfOk result (λ n. number_of self.new text.now ≡ Some n) }
    {
        if let Some(number) = self.texts.get_index_of(text) {
            return Ok(number as u32);
        }
        let number = self.texts.len();
        if number >= MOST_TEXTS {
            return Err(Memory);
        }
        let Ok(copy) = Vec::from_slice(alloc, text) else {
            return Err(Memory);
        };
        let mark = Mark {
            prefix: text_prefix(text),
            number: number as u32,
        };
        let Ok(_) = self.texts.insert(copy, mark) else {
            return Err(Memory);
        };
        Ok(number as u32)
    }

    /// The texts in the order of their bytes, and for each number the place of its text there.
    ///
    /// # Errors
    /// `Memory` where it is wanting.
    pub(crate) fn sort(self, alloc: Global) -> Result<(TextSet, Vec<u32>), Memory>
        ensures rising { IfOk result (λ r. IsStrictlySortedBy text_cmp r.0) }
        ensures same { IfOk result (λ r. IsPermutation self r.0) }
        ensures few { IfOk result (λ r. length r.0 ≤ cell_limit) }
        ensures utf8 { IfOk result (λ r. All IsUtf8Text r.0) }
        ensures codes { IfOk result (λ r. AreCodesOf self r.0 r.1.items) }
    {
        let Notes { texts } = self;
        let count = texts.len();
        let mut order = marks_of(alloc, &texts)?;
        sort_marks(&texts, &mut order);
        let places = places_of(alloc, count, &order)?;
        Ok((TextSet { texts, order }, places))
    }
}

impl TextSet {
    /// How many texts are less, where the texts are in order.
    pub fn lesser(&self, text: &[u8]) -> usize
        requires rising { IsStrictlySortedBy text_cmp self.now }
        ensures count { result ≡ count_by (λ t. is_lt (text_cmp t text.now)) self.now }
    {
        let texts = &self.texts;
        self.order.partition_point(
            |mark: &Mark| -> bool
                ensures { result ≡ is_lt (text_cmp (text_of_mark (map text_at_entry texts.entry.now.entries) mark.now) text.entry.now) }
            { text_numbered(texts, mark.number).cmp(&text).is_lt() },
        )
    }

    /// How many texts there are.
    fn len(&self) -> usize
        ensures count { result ≡ length self.now }
    {
        self.order.len()
    }

    /// The place of a text, where the texts are in order.
    pub fn position(&self, text: &[u8]) -> Option<usize>
        requires rising { IsStrictlySortedBy text_cmp self.now }
        ensures position { result ≡ position (is_text text.now) self.now }
    {
        let place = self.lesser(text);
        if place >= self.len() {
            return None;
        }
        if pdq_base::is_text(self.text(place), text) {
            Some(place)
        } else {
            None
        }
    }

    /// The text at a place.
    pub fn text(&self, place: usize) -> &[u8]
        requires there { place < length self.now }
        ensures text { slice_get self.now place ≡ Some result.now }
    {
        text_numbered(&self.texts, self.order[place].number)
    }

    /// The text at a place, or the empty text where there is none.
    #[tactic(auto, using(crate::proofs::Keys::text_there, crate::proofs::Keys::text_past))]
    pub fn text_or_empty(&self, place: usize) -> &[u8]
        ensures text { result.now ≡ slice_index_or self.now place [] }
    {
        if place < self.len() {
            self.text(place)
        } else {
            &[]
        }
    }
}
