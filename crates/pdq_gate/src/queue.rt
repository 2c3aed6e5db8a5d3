//! The waiting queries, kept in order of submission and, by their ranks, in the written order.
ghost use Rattle.std.specs.Prelude.{◌≡◌, ◌+◌, ◌<◌, ◌≤◌, ◌&&◌, ◌==◌, ◌++◌, ◌∷◌, [], Some, None, All, IfOk, IfSome, IfNone, drop, insert, length, map, nat_lt, position, remove, slice_get, slice_index_or, slice_set, take, option_and_then, vec_capacity};
ghost use Rattle.std.specs.Option.{option_copied};
ghost use Rattle.std.specs.VecDeque.{deque_len, deque_capacity};
ghost use Rattle.std.specs.List.{list_any, prefix_len, HoldsAt};
ghost use Rattle.std.specs.List.Sorted.{IsPartitionedBy};
ghost use Rattle.pdq_model.specs.Order.{head_of, head_place, waiting_order};
ghost use Rattle.pdq_model.specs.Settling.{overtake};
ghost use Rattle.pdq_gate.specs.Showing.{row_shown};
ghost use Rattle.pdq_gate.specs.Ranks.{rank_of, is_ahead, AreRising, overtaken_once, rows_in_order};

use pdq_model::{Waiting, WaitingRow};
use std::alloc::{AllocError, Global};
use std::collections::VecDeque;
use std::marker::Model;

/// The most queries that wait.
const MOST_WAITING: usize = 1024;

/// A query that was overtaken this often goes before those that were not.
const MOST_OVERTAKEN: u32 = 32;

/// What the written order asks of a query.
#[derive(Clone, Copy)]
struct Rank {
    id: u32,
    priority: u32,
    /// Whether it was overtaken 32 times.
    favoured: bool,
}

/// The rank of a query.
fn rank_of(w: &Waiting) -> Rank
    ensures value { result ≡ rank_of w.now }
{
    Rank {
        id: w.id,
        priority: w.priority,
        favoured: w.overtaken >= MOST_OVERTAKEN,
    }
}

/// Whether the query of rank `a` is before that of rank `b` in the written order.
fn is_ahead(a: &Rank, b: &Rank) -> bool
    ensures value { result ≡ is_ahead a.now b.now }
{
    if a.favoured && b.favoured {
        a.id < b.id
    } else if a.favoured || b.favoured {
        a.favoured
    } else if a.priority == b.priority {
        a.id < b.id
    } else {
        a.priority > b.priority
    }
}

/// The row that shows a query that stands at this gate.
fn row_shown(w: &Waiting, gate: u32) -> WaitingRow
    ensures value { result ≡ row_shown w.now gate }
{
    WaitingRow {
        session: w.session,
        id: w.id,
        priority: w.priority,
        overtaken: w.overtaken,
        gate,
    }
}

/// How many of the queries have a smaller number.
fn place_by_number(rows: &VecDeque<Waiting>, id: u32) -> usize
    requires rising { AreRising rows.now.items }
    ensures value { result ≡ prefix_len (λ w. nat_lt w.id id) rows.now.items }
    ensures within { result ≤ length rows.now.items }
{
    rows.partition_point(|w| w.id < id)
}

/// How many of the ranks are before this one.
fn place_in_order(order: &VecDeque<Rank>, rank: &Rank) -> usize
    requires sorted { IsPartitionedBy (λ r. is_ahead r rank.now) order.now.items }
    ensures value { result ≡ prefix_len (λ r. is_ahead r rank.now) order.now.items }
    ensures within { result ≤ length order.now.items }
{
    order.partition_point(|r| is_ahead(r, rank))
}

/// Puts a rank at its place.
fn put_rank(order: &mut VecDeque<Rank>, rank: Rank)
    requires room { deque_len order.old < deque_capacity order.old }
    requires sorted { IsPartitionedBy (λ r. is_ahead r rank) order.old.items }
    ensures order { order.new.items ≡ insert order.old.items (prefix_len (λ r. is_ahead r rank) order.old.items) rank }
    ensures room { deque_capacity order.old ≤ deque_capacity order.new }
{
    match order.insert(place_in_order(order, &rank), rank) {
        Ok(()) => {}
        Err(_) => unreachable!(),
    }
}

/// Takes out the rank that stands behind all that are before it.
fn take_rank(order: &mut VecDeque<Rank>, rank: Rank)
    requires sorted { IsPartitionedBy (λ r. is_ahead r rank) order.old.items }
    requires there { prefix_len (λ r. is_ahead r rank) order.old.items < length order.old.items }
    ensures order { order.new.items ≡ remove order.old.items (prefix_len (λ r. is_ahead r rank) order.old.items) }
    ensures fewer { deque_len order.new + 1 ≡ deque_len order.old }
    ensures room { deque_capacity order.new ≡ deque_capacity order.old }
{
    match order.remove(place_in_order(order, &rank)) {
        Some(_) => {}
        None => unreachable!(),
    }
}

/// Takes out the first rank.
fn take_first(order: &mut VecDeque<Rank>)
    requires some { 0 < deque_len order.old }
    ensures order { order.new.items ≡ remove order.old.items 0 }
    ensures room { deque_capacity order.new ≡ deque_capacity order.old }
{
    match order.remove(0) {
        Some(_) => {}
        None => unreachable!(),
    }
}

/// Takes out the query at this place.
fn take_row(rows: &mut VecDeque<Waiting>, place: usize) -> Waiting
    requires within { place < deque_len rows.old }
    ensures value { result ≡ slice_index_or rows.old.items place result }
    ensures items { rows.new.items ≡ remove rows.old.items place }
    ensures room { deque_capacity rows.new ≡ deque_capacity rows.old }
{
    match rows.remove(place) {
        Some(w) => w,
        None => unreachable!(),
    }
}

/// The waiting queries. Only `new` takes memory.
#[derive(Drop)]
pub(crate) struct Queue {
    /// In order of submission.
    rows: VecDeque<Waiting>,
    /// The ranks of these queries, in the written order.
    order: VecDeque<Rank>,
}

impl Model for Queue {
    ghost use Rattle.std.specs.Prelude.{List};
    ghost use Rattle.pdq_model.specs.declared.rows.Waiting.{Waiting};

    ghost Value = { List Waiting };

    ghost use Rattle.pdq_gate.specs.Queue.{IsKept};

    ghost view = { λ q. q.rows.items };

    ghost invariant = { IsKept };
}

impl Queue {
    /// No queries, with room for 1,024.
    pub fn new(alloc: Global) -> Result<Queue, AllocError>
        ensures value { IfOk result (λ q. q ≡ []) }
    {
        Ok(Queue {
            rows: VecDeque::with_capacity(alloc, MOST_WAITING)?,
            order: VecDeque::with_capacity(alloc, MOST_WAITING)?,
        })
    }

    /// How many queries wait.
    pub fn len(&self) -> usize
        ensures value { result ≡ length self.now }
    {
        self.rows.len()
    }

    /// The query at this place.
    pub fn row(&self, place: usize) -> &Waiting
        requires within { place < length self.now }
        ensures row { slice_get self.now place ≡ Some result.now }
    {
        &self.rows[place]
    }

    /// Where the query of this number waits.
    pub fn place(&self, id: u32) -> Option<usize>
        ensures place { result ≡ position (λ w. w.id == id) self.now }
        ensures within { IfSome result (λ place. place < length self.now) }
    {
        let place = place_by_number(&self.rows, id);
        if place < self.rows.len() && self.rows[place].id == id {
            Some(place)
        } else {
            None
        }
    }

    /// The waiting query of this number.
    pub fn find(&self, id: u32) -> Option<&Waiting>
        ensures row { option_copied result ≡ option_and_then (slice_get self.now) (position (λ w. w.id == id) self.now) }
    {
        match self.place(id) {
            Some(place) => Some(&self.rows[place]),
            None => None,
        }
    }

    /// Whether a query of this number waits.
    pub fn contains(&self, id: u32) -> bool
        ensures value { result ≡ list_any (λ w. w.id == id) self.now }
    {
        self.place(id).is_some()
    }

    /// Whether a query of this session waits.
    pub fn has_session(&self, session: u32) -> bool
        ensures value { result ≡ list_any (λ w. w.session == session) self.now }
    {
        self.rows.iter().any(|w| w.session == session)
    }

    /// Where the query of this number and session waits.
    pub fn place_of(&self, session: u32, id: u32) -> Option<usize>
        ensures place { result ≡ position (λ w. w.id == id && w.session == session) self.now }
        ensures within { IfSome result (λ place. place < length self.now) }
    {
        match self.place(id) {
            Some(place) if self.rows[place].session == session => Some(place),
            _ => None,
        }
    }

    /// The query at this place of the written order, and where it stands in order of submission.
    fn at(&self, place: usize) -> (usize, Waiting)
        requires within { place < length self.now }
        ensures written { slice_get (waiting_order self.now) place ≡ Some result.1 }
        ensures row { slice_get self.now result.0 ≡ Some result.1 }
    {
        let place = place_by_number(&self.rows, self.order[place].id);
        (place, self.rows[place])
    }

    /// The head and its place, None exactly where nothing waits.
    pub fn head(&self) -> Option<(usize, Waiting)>
        ensures head { IfSome result (λ r. head_place self.now ≡ Some r.0) }
        ensures row { IfSome result (λ r. slice_get self.now r.0 ≡ Some r.1) }
        ensures query { IfSome result (λ r. head_of self.now ≡ Some r.1) }
        ensures none { IfNone result (head_place self.now ≡ None) }
        ensures empty { IfNone result (length self.now ≡ 0) }
    {
        if self.rows.is_empty() {
            None
        } else {
            Some(self.at(0))
        }
    }

    /// A query waits, submitted behind the others.
    pub fn push(&mut self, w: Waiting)
        requires room { length self.old < 1024 }
        requires last { All (λ v. v.id < w.id) self.old }
        requires fresh { w.overtaken ≡ 0 }
        ensures value { self.new ≡ self.old ++ w ∷ [] }
    {
        self.rows.push_back_reserved(w);
        put_rank(&mut self.order, rank_of(&w));
    }

    /// Takes out the query at this place.
    pub fn remove_at(&mut self, place: usize) -> Waiting
        requires within { place < length self.old }
        ensures row { slice_get self.old place ≡ Some result }
        ensures value { self.new ≡ remove self.old place }
    {
        let w = take_row(&mut self.rows, place);
        take_rank(&mut self.order, rank_of(&w));
        w
    }

    /// The query at this place is overtaken once more; at the 32nd time its rank moves forward.
    fn overtake_at(&mut self, place: usize)
        requires within { place < length self.old }
        requires seldom { HoldsAt (λ v. v.overtaken < 32) self.old place }
        ensures value { IfSome (slice_get self.old place) (λ v. self.new ≡ slice_set self.old place (overtaken_once v)) }
    {
        let row = self.rows[place];
        let overtaken = Waiting {
            overtaken: row.overtaken + 1,
            ..row
        };
        self.rows[place] = overtaken;
        if overtaken.overtaken >= MOST_OVERTAKEN {
            take_rank(&mut self.order, rank_of(&row));
            put_rank(&mut self.order, rank_of(&overtaken));
        }
    }

    /// The first so many queries are overtaken once more.
    fn overtake_first(&mut self, count: usize)
        requires within { count ≤ length self.old }
        requires seldom { All (λ v. v.overtaken < 32) (take count self.old) }
        ensures value { self.new ≡ map overtaken_once (take count self.old) ++ drop count self.old }
    {
        for place in 0..count {
            self.overtake_at(place);
        }
    }

    /// Takes out the head, which stands at this place. Those submitted before it are overtaken once more.
    pub fn take_head(&mut self, place: usize) -> Waiting
        requires head { head_place self.old ≡ Some place }
        ensures row { slice_get self.old place ≡ Some result }
        ensures value { self.new ≡ overtake result.id (remove self.old place) }
    {
        let w = take_row(&mut self.rows, place);
        take_first(&mut self.order);
        self.overtake_first(place);
        w
    }

    /// Shows the queries in the written order, the head at the gate `first` and the others at the gate `others`.
    pub fn show(&self, first: u32, others: u32, rows: &mut Vec<WaitingRow>)
        requires room { 1024 ≤ vec_capacity rows.old }
        ensures rows { rows.new.items ≡ rows_in_order first others (waiting_order self.now) }
        ensures rising { AreRising self.now }
        ensures room { vec_capacity rows.new ≡ vec_capacity rows.old }
    {
        rows.clear();
        for place in 0..self.rows.len() {
            let (_, w) = self.at(place);
            let gate = if place == 0 { first } else { others };
            rows.push_reserved(row_shown(&w, gate));
        }
    }
}
