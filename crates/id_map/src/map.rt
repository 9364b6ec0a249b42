// Ids and the pres at which they stand.
ghost use Rattle.std.specs.Prelude.{◌≡◌, ◌+◌, ◌-◌, ◌^◌, ◌<◌, ◌≤◌, ◌++◌, [], length, take, drop, IfOk, OnOk, OnErr};
ghost use Rattle.id_map.specs.Ids.{ids_from, pre_with, with_ids, without_ids, AreNew};

use crate::places::runs_up_to;
use crate::runs::{by_id_changed, by_pre_changed};
use crate::span::Span;
use frame_pool::{Meter, NoMemory, Pool};
use std::alloc::Global;
use std::marker::Model;

/// Where ids stand: distinct ids below 2^32 - 1, fewer than 2^32, at the pres from 0 up. Contracts see the ids in order of pre.
/// It is kept as maximal runs: an id is found in a time that grows with the logarithm of their number, and a change goes
/// through them once.
#[derive(Debug, Drop)]
pub struct IdMap {
    by_pre: Vec<Span>,
    by_id: Vec<Span>,
}

impl Model for IdMap {
    ghost use Rattle.std.specs.Prelude.{List, ℕ};
    ghost use Rattle.id_map.specs.Spans.{ids_of, IsMap};

    ghost Value = { List ℕ };

    ghost view = { λ m. ids_of m.by_pre.items };

    ghost invariant = { λ m. IsMap m.by_pre.items m.by_id.items };
}

impl IdMap {
    /// A map without ids. Takes no memory.
    pub fn new(alloc: Global) -> IdMap
        ensures { result ≡ [] }
    {
        IdMap {
            by_pre: Vec::new(alloc),
            by_id: Vec::new(alloc),
        }
    }

    /// The pre at which an id stands: None exactly where it isn't there. Takes no memory.
    pub fn pre_of(&self, _pool: &Pool<Span>, id: u32, meter: &mut Meter) -> Option<u32>
        ensures pre { result ≡ pre_with id self.now }
        ensures meter { meter.new ≡ meter.old }
    {
        let _unread = meter;
        let behind = runs_up_to(self.by_id.as_slice(), id);
        if behind == 0 {
            return None;
        }
        let run = self.by_id[behind - 1];
        let steps = id - run.first_id;
        if steps < run.n {
            Some(run.pre + steps)
        } else {
            None
        }
    }

    /// Puts `n` ids from `first_id` on at the pres from `pre` on, and moves the ids that stood there and behind up by `n`.
    pub fn inserted(
        &mut self,
        _pool: &mut Pool<Span>,
        pre: u32,
        first_id: u32,
        n: u32,
        meter: &mut Meter,
    ) -> Result<(), NoMemory>
        requires some { 1 ≤ n }
        requires within { pre ≤ length self.old }
        requires small { first_id + n ≤ 2 ^ 32 - 1 }
        requires unused { AreNew first_id n self.old }
        requires few { length self.old + n < 2 ^ 32 }
        ensures ok { OnOk result (self.new ≡ with_ids pre first_id n self.old) }
        ensures err { OnErr result (self.new ≡ self.old) }
        ensures meter { meter.new ≡ meter.old }
    {
        let _unread = meter;
        self.replace(0, Span { first_id, pre, n })
    }

    /// Takes the ids at the pres `pre .. pre + n` out, and moves those behind down by `n`.
    pub fn removed(
        &mut self,
        _pool: &mut Pool<Span>,
        pre: u32,
        n: u32,
        meter: &mut Meter,
    ) -> Result<(), NoMemory>
        requires some { 1 ≤ n }
        requires within { pre + n ≤ length self.old }
        ensures ok { OnOk result (self.new ≡ without_ids pre n self.old) }
        ensures err { OnErr result (self.new ≡ self.old) }
        ensures meter { meter.new ≡ meter.old }
    {
        let _unread = meter;
        let nothing = Span {
            first_id: 0,
            pre,
            n: 0,
        };
        self.replace(n, nothing)
    }

    // A run takes the place of so many ids from its pre on.
    fn replace(&mut self, removed: u32, run: Span) -> Result<(), NoMemory>
        requires within { run.pre + removed ≤ length self.old }
        requires small { run.first_id + run.n ≤ 2 ^ 32 - 1 }
        requires unused { AreNew run.first_id run.n self.old }
        requires few { 0 < run.n → length self.old + run.n < 2 ^ 32 + removed }
        ensures ok { OnOk result (self.new ≡ take run.pre self.old ++ (ids_from run.first_id run.n ++ drop (run.pre + removed) self.old)) }
        ensures err { OnErr result (self.new ≡ self.old) }
    {
        let alloc = *self.by_pre.allocator();
        let from = run.pre + removed;
        let runs = self.by_id.as_slice();
        let place = runs_up_to(runs, run.first_id);
        let by_id = by_id_changed(runs, place, run, from, alloc)?;
        let by_pre = by_pre_changed(self.by_pre.as_slice(), run, from, alloc)?;
        self.by_id = by_id;
        self.by_pre = by_pre;
        Ok(())
    }

    /// An equal map.
    pub fn branch(&self, _pool: &mut Pool<Span>) -> Result<IdMap, NoMemory>
        ensures { IfOk result (λ map. map ≡ self.now) }
    {
        let by_pre = self.by_pre.clone()?;
        let by_id = self.by_id.clone()?;
        Ok(IdMap { by_pre, by_id })
    }

    /// Gives the map up. Takes no memory.
    pub fn give_up(self, _pool: &mut Pool<Span>) {}
}
