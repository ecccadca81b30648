//! A queue from each unit to each.
ghost use Rattle.std.specs.Prelude.{◌≡◌, ℕ, ◌+◌, ◌<◌, ◌≤◌, ◌↔◌, [], ◌∷◌, ◌++◌, drop, get_or, length, map, nat_eq, replicate};
ghost use Rattle.std.specs.Prelude.{IsTrue, IfOk, IfSome, IfNone, OnOk, OnErr};
ghost use Rattle.std.specs.List.{list_all};
ghost use Rattle.j39_bus.specs.inside.Rows.{filled_in, items, one_if_some};
ghost use Rattle.j39_bus.specs.Queued.{IsTable, KeepsRoom, one_at, pair_in, room_at, changed_in, without_column};
ghost use Rattle.j39_bus.specs.Queued.{without_unit};

use std::alloc::{AllocError, Global};
use std::collections::VecDeque;
use std::marker::Model;

/// A queue from each unit to each. Contracts see its items, the oldest first, and for how many more there is room. A
/// queue that never had an item owns no buffer.
#[derive(Drop)]
pub struct Queues<T> {
    rows: Vec<Vec<VecDeque<T>>>,
    // Of each unit, how many of its queues hold something.
    filled: Vec<usize>,
}

impl<T> Model for Queues<T> {
    ghost use Rattle.j39_bus.specs.Queued.{Queued, queued_code};

    ghost Value = { Queued T };

    ghost coded = { queued_code T.code };

    ghost use Rattle.j39_bus.specs.inside.Rows.{IsKept, lists_of, rooms_of};

    ghost view = { λ q. record { lists = lists_of q.rows.items; rooms = rooms_of q.rows.items } };

    ghost invariant = { λ q. IsKept q.rows.items q.filled.items };
}

// One where the queue holds something.
fn one_if_filled<T>(queue: &VecDeque<T>) -> usize
    ensures { result ≡ one_if_some queue.now.items }
{
    if queue.is_empty() { 0 } else { 1 }
}

fn are_zero(counts: &[usize]) -> bool
    ensures { result ≡ list_all (λ n. nat_eq n 0) counts.now }
{
    counts.iter().all(|count| *count == 0)
}

// The queues of one unit, with nothing in them.
fn empty_row<T: Drop>(alloc: Global, units: usize) -> Result<Vec<VecDeque<T>>, AllocError>
    ensures { IfOk result (λ row. map items row.items ≡ replicate units []) }
{
    let mut row = Vec::with_capacity(alloc, units)?;
    for _ in 0..units {
        row.push_reserved(VecDeque::new(alloc));
    }
    Ok(row)
}

impl<T: Drop> Queues<T> {
    /// Empty queues between each two of so many units.
    pub fn new(alloc: Global, units: usize) -> Result<Self, AllocError>
        ensures table { IfOk result (λ q. IsTable units q.lists) }
        ensures empty { IfOk result (λ q. (u v : ℕ) → pair_in q.lists u v ≡ []) }
    {
        let mut rows = Vec::with_capacity(alloc, units)?;
        let mut filled = Vec::with_capacity(alloc, units)?;
        for _ in 0..units {
            rows.push_reserved(empty_row(alloc, units)?);
            filled.push_reserved(0);
        }
        Ok(Queues { rows, filled })
    }

    /// The queue from one unit to another.
    pub fn between(&self, from: usize, to: usize) -> &VecDeque<T>
        requires from { from < length self.now.lists }
        requires to { to < length self.now.lists }
        ensures { result.now.items ≡ pair_in self.now.lists from to }
    {
        let row = &self.rows[from];
        &row[to]
    }

    // How many other queues of a unit hold something.
    fn filled_beside(&self, from: usize, to: usize) -> usize
        requires from { from < length self.now.lists }
        requires to { to < length self.now.lists }
        ensures { result + one_if_some (pair_in self.now.lists from to) ≡ filled_in (get_or self.now.lists from []) }
    {
        self.filled[from] - one_if_filled(self.between(from, to))
    }

    /// Whether all queues are empty.
    pub fn is_empty(&self) -> bool
        ensures { IsTrue result ↔ ((u v : ℕ) → pair_in self.now.lists u v ≡ []) }
    {
        are_zero(self.filled.as_slice())
    }

    /// Takes the oldest item from one unit to another, if there is one.
    pub fn pop(&mut self, from: usize, to: usize) -> Option<T>
        requires from { from < length self.old.lists }
        requires to { to < length self.old.lists }
        ensures some { IfSome result (λ item. pair_in self.old.lists from to ≡ item ∷ drop 1 (pair_in self.old.lists from to)) }
        ensures none { IfNone result (pair_in self.old.lists from to ≡ []) }
        ensures table { IsTable (length self.old.lists) self.new.lists }
        ensures lists { pair_in self.new.lists
            ≡ changed_in (pair_in self.old.lists) from to (drop 1 (pair_in self.old.lists from to)) }
        ensures room { KeepsRoom self.old self.new }
    {
        let beside = self.filled_beside(from, to);
        let row = &mut self.rows[from];
        let queue = &mut row[to];
        let item = queue.pop_front();
        self.filled[from] = beside + one_if_filled(queue);
        item
    }

    /// Makes room for so many items from one unit to another.
    pub fn reserve(&mut self, from: usize, to: usize, items: usize) -> Result<(), AllocError>
        requires from { from < length self.old.lists }
        requires to { to < length self.old.lists }
        ensures lists { self.new.lists ≡ self.old.lists }
        ensures room { KeepsRoom self.old self.new }
        ensures made { OnOk result (items ≤ room_at self.new from to) }
        ensures wanted { OnErr result (room_at self.old from to < items) }
    {
        let row = &mut self.rows[from];
        let queue = &mut row[to];
        queue.reserve(items)
    }

    /// Adds an item from one unit to another, where there is room for it.
    pub fn post(&mut self, from: usize, to: usize, item: T)
        requires from { from < length self.old.lists }
        requires to { to < length self.old.lists }
        requires room { 0 < room_at self.old from to }
        ensures table { IsTable (length self.old.lists) self.new.lists }
        ensures lists { pair_in self.new.lists
            ≡ changed_in (pair_in self.old.lists) from to (pair_in self.old.lists from to ++ item ∷ []) }
        ensures room { (s t : ℕ) → room_at self.old s t ≤ room_at self.new s t + one_at from to s t }
    {
        let beside = self.filled_beside(from, to);
        let row = &mut self.rows[from];
        let queue = &mut row[to];
        queue.push_back_reserved(item);
        self.filled[from] = beside + 1;
    }

    /// Drops all items from one unit to another.
    fn clear(&mut self, from: usize, to: usize)
        requires from { from < length self.old.lists }
        requires to { to < length self.old.lists }
        ensures table { IsTable (length self.old.lists) self.new.lists }
        ensures lists { pair_in self.new.lists ≡ changed_in (pair_in self.old.lists) from to [] }
        ensures room { KeepsRoom self.old self.new }
    {
        let beside = self.filled_beside(from, to);
        let row = &mut self.rows[from];
        let queue = &mut row[to];
        queue.clear();
        self.filled[from] = beside;
    }

    /// Drops all items to a unit.
    pub fn clear_to(&mut self, to: usize)
        requires { to < length self.old.lists }
        ensures table { IsTable (length self.old.lists) self.new.lists }
        ensures lists { pair_in self.new.lists ≡ without_column to (pair_in self.old.lists) }
        ensures room { KeepsRoom self.old self.new }
    {
        for from in 0..self.rows.len() {
            self.clear(from, to);
        }
    }

    /// Drops all items to a unit, and all from it.
    pub fn clear_of(&mut self, unit: usize)
        requires { unit < length self.old.lists }
        ensures table { IsTable (length self.old.lists) self.new.lists }
        ensures lists { pair_in self.new.lists ≡ without_unit unit (pair_in self.old.lists) }
        ensures room { KeepsRoom self.old self.new }
    {
        for other in 0..self.rows.len() {
            self.clear(unit, other);
            self.clear(other, unit);
        }
    }
}
