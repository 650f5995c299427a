//! Buffers in rows, in the order in which they were made.

ghost use Rattle.std.specs.Prelude.{ℕ, ◌≡◌, ◌↔◌, ◌+◌, ◌<◌, ◌≤◌, ◌==◌, ◌++◌, ◌∷◌, [], not, false, None, IsTrue, All, AllPairs, MatchOption, OnOk, OnErr, filter, length, set, slice_index_or, option_copied, vec_len, vec_capacity};
ghost use Rattle.std.specs.List.Sorted.{IsPartitionPoint};
ghost use Rattle.bd_space.specs.Words.{changed};
ghost use Rattle.bd_buffers.specs.{Record.{is_record_at, record_in, hand_over}, Rows.{lives, live, ended, ends_empty, AreRows, IsLiveRow}};

use crate::record::Record;
use std::alloc::{AllocError, Global};
use std::marker::Model;

/// Whether a row's buffer lives: each that does takes some bytes.
pub(crate) fn is_live(row: &Record) -> bool
    ensures { result ≡ lives row.now }
{
    row.size != 0
}

/// The index of the first row that was made at a place or behind it.
pub(crate) fn first_row(rows: &[Record], from: u64) -> usize
    requires order { AllPairs (λ a b. a.made < b.made) rows.now }
    ensures { IsPartitionPoint (λ r. r.made < from) (λ r. from ≤ r.made) rows.now result }
{
    rows.partition_point(|r| r.made < from)
}

// The index of the row made there. The last is looked at first: it is what a step mostly speaks of. Others are found by halves.
fn index_among(rows: &[Record], made: u64) -> Option<usize>
    requires order { AllPairs (λ a b. a.made < b.made) rows.now }
    ensures { MatchOption result
        (All (λ r. (r.made == made) ≡ false) rows.now)
        (λ i. (i < length rows.now) × ((d : Record) → (slice_index_or rows.now i d).made ≡ made)) }
{
    if !rows.is_empty() && rows[rows.len() - 1].made == made {
        return Some(rows.len() - 1);
    }
    rows.binary_search_by_key(&made, |r| r.made).ok()
}

// The index of the row of the live buffer made there.
#[tactic(auto, using(crate::proofs::Live::missed_row, crate::proofs::Live::no_row))]
fn index_of(rows: &[Record], made: u64) -> Option<usize>
    requires order { AllPairs (λ a b. a.made < b.made) rows.now }
    ensures { MatchOption result (record_in (live rows.now) made ≡ None) (IsLiveRow rows.now made) }
{
    let i = index_among(rows, made)?;
    if is_live(&rows[i]) { Some(i) } else { None }
}

// Whether the last row is empty.
fn is_end_empty(rows: &[Record]) -> bool
    ensures { result ≡ ends_empty rows.now }
{
    match rows.last() {
        None => false,
        Some(r) => !is_live(r),
    }
}

// Drops the empty rows at the end.
fn trim(rows: &mut Vec<Record>)
    requires order { AllPairs (λ a b. a.made < b.made) rows.old.items }
    ensures stand { AreRows rows.new.items }
    ensures live { live rows.new.items ≡ live rows.old.items }
    ensures len { vec_len rows.new ≤ vec_len rows.old }
    ensures capacity { vec_capacity rows.new ≡ vec_capacity rows.old }
{
    while is_end_empty(rows) {
        rows.pop();
    }
}

// Drops all empty rows.
fn pack(rows: &mut Vec<Record>)
    requires stand { AreRows rows.old.items }
    ensures stand { AreRows rows.new.items }
    ensures live { live rows.new.items ≡ live rows.old.items }
    ensures len { vec_len rows.new ≤ vec_len rows.old }
    ensures capacity { vec_capacity rows.new ≡ vec_capacity rows.old }
{
    rows.retain(|r| r.size != 0);
}

// Ends the buffer of a row. The row stays.
fn end_at(rows: &mut Vec<Record>, i: usize) -> Record
    requires { i < length rows.old.items }
    ensures taken { (d : Record) → result ≡ slice_index_or rows.old.items i d }
    ensures left { (d : Record) → rows.new.items ≡ set rows.old.items i (ended (slice_index_or rows.old.items i d)) }
    ensures len { vec_len rows.new ≡ vec_len rows.old }
    ensures capacity { vec_capacity rows.new ≡ vec_capacity rows.old }
{
    let record = rows[i];
    rows[i].size = 0;
    record
}

// Marks the buffer of a row as handed out.
fn hand_out_at(rows: &mut Vec<Record>, i: usize)
    requires { i < length rows.old.items }
    ensures handed { (d : Record) → rows.new.items ≡ set rows.old.items i (hand_over (slice_index_or rows.old.items i d)) }
    ensures len { vec_len rows.new ≡ vec_len rows.old }
    ensures capacity { vec_capacity rows.new ≡ vec_capacity rows.old }
{
    rows[i].handed = true;
}

/// Live buffers, in the order in which they were made. An end moves none of them: it leaves an empty row, which goes
/// once all rows after it are empty too, or when room is made.
#[derive(Drop)]
pub(crate) struct Rows {
    rows: Vec<Record>,
}

impl Model for Rows {
    ghost use Rattle.std.specs.Prelude.{◌-◌, vec_len, vec_capacity};
    ghost use Rattle.bd_buffers.specs.Rows.{RowsView, AreRows, live};

    ghost Value = { RowsView };

    ghost view = { λ t. record { records = live t.rows.items; room = vec_capacity t.rows - vec_len t.rows } };

    ghost invariant = { λ t. AreRows t.rows.items };
}

impl Rows {
    /// No rows. Takes no memory.
    pub(crate) fn new(alloc: Global) -> Rows
        ensures { result.records ≡ [] }
    {
        Rows {
            rows: Vec::new(alloc),
        }
    }

    /// All rows, the empty ones too.
    pub(crate) fn as_slice(&self) -> &[Record]
        ensures live { live result.now ≡ self.now.records }
        ensures order { AllPairs (λ a b. a.made < b.made) result.now }
    {
        self.rows.as_slice()
    }

    /// Makes room for so many more buffers. The empty rows may go.
    pub(crate) fn reserve(&mut self, more: usize) -> Result<(), AllocError>
        ensures records { self.new.records ≡ self.old.records }
        ensures uses { self.old.room ≤ self.new.room }
        ensures room { OnOk result (more ≤ self.new.room) }
        // Memory was asked for: there was no room.
        ensures grown { OnErr result (self.old.room < more) }
    {
        if more <= self.rows.capacity() - self.rows.len() {
            return Ok(());
        }
        pack(&mut self.rows);
        // As many buffers pay for the walk as come before the next one.
        self.rows.reserve(more.max(self.rows.len() / 2))
    }

    /// Whether all live buffers were made before that place.
    pub(crate) fn is_newest(&self, made: u64) -> bool
        ensures { IsTrue result ↔ All (λ b. b.made < made) self.now.records }
    {
        match self.rows.last() {
            None => true,
            Some(r) => r.made < made,
        }
    }

    /// Takes the newest buffer in.
    pub(crate) fn push(&mut self, buffer: Record)
        requires room { 1 ≤ self.old.room }
        requires filled { 0 < buffer.size }
        requires newest { All (λ b. b.made < buffer.made) self.old.records }
        ensures records { self.new.records ≡ self.old.records ++ buffer ∷ [] }
        ensures room { self.old.room ≤ self.new.room + 1 }
    {
        self.rows.push_reserved(buffer);
    }

    /// The live buffer made there.
    #[tactic(auto, using(crate::proofs::Live::found_row))]
    pub(crate) fn made_at(&self, made: u64) -> Option<&Record>
        ensures { option_copied result ≡ record_in self.now.records made }
    {
        let i = index_of(&self.rows, made)?;
        Some(&self.rows[i])
    }

    /// Ends the buffer made there, if there is one.
    pub(crate) fn take(&mut self, made: u64) -> Option<Record>
        ensures taken { result ≡ record_in self.old.records made }
        ensures left { self.new.records ≡ filter (λ r. not (is_record_at made r)) self.old.records }
        ensures room { self.old.room ≤ self.new.room }
    {
        let i = index_of(&self.rows, made)?;
        let record = end_at(&mut self.rows, i);
        trim(&mut self.rows);
        Some(record)
    }

    /// Marks the buffer made there as handed out.
    pub(crate) fn hand_out(&mut self, made: u64)
        ensures records { self.new.records ≡ changed (is_record_at made) hand_over self.old.records }
        ensures room { self.old.room ≤ self.new.room }
    {
        if let Some(i) = index_of(&self.rows, made) {
            hand_out_at(&mut self.rows, i);
        }
    }
}
