//! What a script keeps beside its manager: its sessions, the texts of its queries and its tables.
ghost use Rattle.std.specs.Prelude.{◌≡◌, ◌≢◌, ◌+◌, ◌-◌, ◌<◌, ◌≤◌, ◌==◌, ◌++◌, [], ◌∷◌, ◌||◌, All, AllPairs, IfOk, IfSome, None, OnErr, OnOk, Some, length, map, option_map, slice_set, vec_len, vec_capacity, find};
ghost use Rattle.std.specs.Option.{option_copied};
ghost use Rattle.pdq_value.specs.Tables.{IsShape, ShapeView, shape_of};
ghost use Rattle.pdq_query.specs.Fits.{Fits};
ghost use Rattle.pdq_query.specs.Queries.{query_of};
ghost use Rattle.pdq_table.specs.Storing.{IsStored};
ghost use Rattle.pdq_reply.specs.Changes.{level_priority};
ghost use Rattle.pdq_session.specs.ScriptStates.{QueryText, text_kept, asked_of, opening_kept, priority_of, sessions_of, shapes_asked, with_current, with_opened, with_priority, AreScannable, KeepsTables, KeepsTexts};

use pdq_base::Memory;
use pdq_prune::{left, widest};
use pdq_query::Query;
use pdq_schema::Schema;
use pdq_sql::Level;
use pdq_table::Stored;
use pdq_value::TableShape;
use std::alloc::{AllocError, Global};
use std::marker::Model;

// A script's own session, an administrator's.
pub(crate) const OWN_SESSION: u32 = 1;

/// The text of a query, and its number.
#[derive(Drop)]
pub(crate) struct KeptText {
    id: u32,
    query: Query,
}

/// What a script keeps beside its manager.
#[derive(Drop)]
pub(crate) struct ScriptSessions<'a> {
    opening: u32,
    current: u32,
    priorities: Vec<u32>,
    texts: Vec<KeptText>,
    stored: Option<&'a Stored>,
    store_failed: bool,
}

impl<'a> Model for ScriptSessions<'a> {
    ghost use Rattle.std.specs.Prelude.{map};
    ghost use Rattle.std.specs.Option.{option_copied};
    ghost use Rattle.pdq_session.specs.ScriptStates.{KeptView, text_kept};

    ghost Value = { KeptView };

    ghost view = { λ x. record { opening = x.opening; current = x.current; priorities = x.priorities.items; texts = map text_kept x.texts.items; stored = option_copied x.stored; store_failed = x.store_failed } };
}

/// The schema of stored tables.
pub(crate) fn schema_of(stored: &Stored) -> &Schema
    ensures value { result.now ≡ stored.now.schema }
    ensures stored { IsStored stored.now }
{
    let _dict = stored.dict();
    stored.schema()
}

/// Queries over stored tables, or over none, ask 1 to 16 scan threads.
pub(crate) fn know_tables(stored: Option<&Stored>)
    ensures wide { AreScannable (asked_of (option_copied stored.entry)) }
{
    match stored {
        Some(stored) => {
            let _schema = schema_of(stored);
        }
        None => {}
    }
}

// How many scan threads a query can have work for.
fn widest_in(alloc: Global, stored: &Stored, query: &Query) -> Result<u32, Memory>
    requires fits { Fits stored.now.schema.shapes (query_of query.now) }
    ensures value { IfOk result (λ n. n ≡ (asked_of (Some stored.now)).widest (query_of query.now)) }
{
    let left = left(alloc, stored, query)?;
    Ok(widest(&left))
}

// The text of the query of this number.
fn text_in(texts: &[KeptText], id: u32) -> Option<&Query>
    ensures value { option_map (λ q. query_of q.now) result ≡ option_map (λ (t : QueryText). t.text) (find (λ (t : QueryText). t.id == id) (map text_kept texts.now)) }
{
    'texts: for text in texts {
        if text.id == id {
            return Some(&text.query);
        }
    }
    None
}

impl<'a> ScriptSessions<'a> {
    /// What a script keeps over these tables when its own session alone was opened, with this opening priority.
    pub fn new(
        alloc: Global,
        opening: u32,
        stored: Option<&'a Stored>,
    ) -> Result<ScriptSessions<'a>, AllocError>
        ensures value { IfOk result (λ x. x ≡ opening_kept (option_copied stored.entry) opening) }
    {
        let priorities = vec![in alloc; opening]?;
        Ok(ScriptSessions {
            opening,
            current: OWN_SESSION,
            priorities,
            texts: Vec::new(alloc),
            stored,
            store_failed: false,
        })
    }

    /// The session that the lines act for.
    pub fn current(&self) -> u32
        ensures value { result ≡ self.now.current }
    {
        self.current
    }

    /// The priority of the current session.
    pub fn priority(&self) -> u32
        ensures value { result ≡ priority_of (sessions_of self.now) self.now.current }
    {
        let place = self.current.saturating_sub(1) as usize;
        self.priorities.get(place).copied().unwrap_or(0)
    }

    /// Its tables.
    pub fn stored(&self) -> Option<&'a Stored>
        ensures value { option_copied result ≡ self.now.stored }
    {
        self.stored
    }

    /// The shapes of its tables.
    pub fn shapes(&self) -> &'a [TableShape]
        ensures value { map shape_of result.now ≡ shapes_asked (asked_of self.now.stored) }
        ensures few { length result.now ≤ 16 }
        ensures shapes { All IsShape (map shape_of result.now) }
        ensures names { AllPairs (λ (s : ShapeView) (t : ShapeView). s.name ≢ t.name) (map shape_of result.now) }
    {
        match self.stored {
            Some(stored) => schema_of(stored).shapes(),
            None => &[],
        }
    }

    /// How many scan threads a query can have work for.
    ///
    /// # Errors
    /// `Memory` where it is wanting.
    pub fn widest(&self, alloc: Global, query: &Query) -> Result<u32, Memory>
        requires fits { Fits (shapes_asked (asked_of self.now.stored)) (query_of query.now) }
        ensures value { IfOk result (λ n. n ≡ (asked_of self.now.stored).widest (query_of query.now)) }
    {
        match self.stored {
            Some(stored) => {
                let _schema = schema_of(stored);
                widest_in(alloc, stored, query)
            }
            None => Ok(1),
        }
    }

    /// Whether a query was answered with the failure of a store.
    pub fn store_failed(&self) -> bool
        ensures value { result ≡ self.now.store_failed }
    {
        self.store_failed
    }

    /// Notes whether a query was answered with the failure of a store.
    pub fn note(&mut self, failed: bool)
        ensures value { self.new ≡ record self.old { store_failed = self.old.store_failed || failed } }
    {
        self.store_failed = self.store_failed || failed;
    }

    /// The text of the query of this number; a claim has none.
    pub fn text(&self, id: u32) -> Option<&Query>
        ensures value { option_map (λ q. query_of q.now) result ≡ option_map (λ (t : QueryText). t.text) (find (λ (t : QueryText). t.id == id) self.now.texts) }
    {
        text_in(&self.texts, id)
    }

    /// Keeps the text of the query of this number.
    ///
    /// # Errors
    /// `AllocError` where memory is wanting; all is then as it was.
    pub fn keep_text(&mut self, id: u32, query: Query) -> Result<(), AllocError>
        ensures kept { OnOk result (self.new ≡ record self.old { texts = self.old.texts ++ record { id = id; text = query_of query } ∷ [] }) }
        ensures err { OnErr result (self.new ≡ self.old) }
    {
        self.texts.push(KeptText { id, query })?;
        Ok(())
    }

    /// The priority that SET PDQPRIORITY asks for.
    pub fn asked(&self, level: Level) -> u32
        ensures value { result ≡ level_priority self.now.opening level }
    {
        match level {
            Level::Number(priority) => priority,
            Level::Off => 0,
            Level::Low => 1,
            Level::High => 100,
            Level::Default => self.opening,
        }
    }

    /// Sets the priority of the current session.
    pub fn set_priority(&mut self, priority: u32)
        ensures value { self.new ≡ record self.old { priorities = slice_set self.old.priorities (self.old.current - 1) priority } }
    {
        let place = self.current.saturating_sub(1) as usize;
        if let Some(own) = self.priorities.get_mut(place) {
            *own = priority;
        }
    }

    /// Makes a session the current one.
    pub fn choose(&mut self, session: u32)
        ensures value { self.new ≡ record self.old { current = session } }
    {
        self.current = session;
    }

    /// Makes a session that was opened the current one, with the opening priority.
    ///
    /// # Errors
    /// `AllocError` where memory is wanting; the sessions are then as they were.
    pub fn open(&mut self, session: u32) -> Result<(), AllocError>
        ensures value { OnOk result (self.new ≡ record self.old { current = session; priorities = self.old.priorities ++ self.old.opening ∷ [] }) }
        ensures err { OnErr result (self.new ≡ self.old) }
    {
        self.priorities.push(self.opening)?;
        self.current = session;
        Ok(())
    }
}
