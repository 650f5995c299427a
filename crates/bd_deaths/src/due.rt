//! The notifications by which the end of a process is told.

ghost use Rattle.std.specs.Prelude.{ℕ, ◌≡◌, ◌<◌, ◌||◌, true, List, length, IfOk, OnOk, OnErr};
ghost use Rattle.std.specs.{List.{list_any}, List.Sorted.{IsStrictlyIncreasing}};
ghost use Rattle.bd_space.specs.declared.space.Object.{Object};
ghost use Rattle.bd_space.specs.declared.space.DeathNotification as declared;
ghost use Rattle.bd_deaths.specs.Objects.{ObjectsAre};
ghost use Rattle.bd_deaths.specs.Entries.{kept_at, object_number};
ghost use Rattle.bd_deaths.specs.Due as due;
ghost use Rattle.bd_deaths.specs.Numbers as numbers;

use crate::kept::{Kept, Watch};
use crate::table::DeathTable;
use bd_chains::{Items, Numbering};
use bd_records::Records;
use bd_space::{DeathNotification, Identity, Phase};
use std::alloc::{AllocError, Global};

// The place of a slot in a number.
const ABOVE: u128 = 0x1_0000_0000_0000_0000;

// The serial number above the slot: rises from each to the next that came.
fn number_of(kept: &Kept, at: usize) -> u128
    ensures { result ≡ numbers.number_of kept.now at }
{
    u128::from(kept.serial) * ABOVE + at as u128
}

// Whether it is armed, of another than the process.
fn is_armed_for_another(p: u64, x: &DeathNotification) -> bool
    ensures { result ≡ numbers.is_for_another p x.now }
{
    x.process != p && matches!(x.phase, Phase::Armed)
}

impl DeathTable {
    ghost use Rattle.bd_deaths.specs.{Stands.{DeathsAre}, Entries.{Entry, EntriesAre}};

    // The number of what is kept in this slot, if that is armed, of another than the process.
    fn number_at(&self, p: u64, at: usize) -> Option<u128>
        ensures { result ≡ numbers.number_at self.now p at }
    {
        match self.slots.get(at) {
            Some(kept) if is_armed_for_another(p, &kept.death) => Some(number_of(kept, at)),
            _ => None,
        }
    }

    // Puts the numbers of those that are armed to what is there.
    fn push_armed(
        &self,
        p: u64,
        watches: Items<'_, Watch>,
        found: &mut Vec<u128>,
    ) -> Result<(), AllocError>
        ensures put { OnOk result ((n : ℕ) → numbers.has found.new.items n
            ≡ (numbers.has found.old.items n || list_any (numbers.is_at self.now p n) watches.entry)) }
        ensures grown { OnErr result (list_any (numbers.is_any_at self.now p) watches.entry ≡ true) }
    {
        for w in watches {
            if let Some(n) = self.number_at(p, w.at) {
                found.push(n)?;
            }
        }
        Ok(())
    }

    // The number of the list of those on an object.
    pub(crate) fn list_on(&self, o: Identity) -> Option<usize>
        ensures { result ≡ object_number self.now o }
    {
        // Mostly there is none at all.
        if self.objects.numbers.all.is_empty() {
            return None;
        }
        self.objects.numbers.of(o)
    }

    // Puts the numbers of those that are due to what is there, in some order.
    fn push_due(&self, records: &Records, p: u64, found: &mut Vec<u128>) -> Result<(), AllocError>
        ensures put { OnOk result ((objects : List Object) (es : List Entry) → ObjectsAre records.now objects
            → EntriesAre self.now es → (n : ℕ) → numbers.has found.new.items n
            ≡ (numbers.has found.old.items n || list_any (numbers.is_due_number objects p n) es)) }
        ensures grown { OnErr result ((objects : List Object) (l : List declared.DeathNotification)
            → ObjectsAre records.now objects → DeathsAre self.now l → list_any (due.is_due objects p) l ≡ true) }
    {
        for o in records.listed(p) {
            let number = self.list_on(o);
            self.push_armed(p, self.objects.chains.items_on(number), found)?;
        }
        Ok(())
    }

    // The numbers of those that are due, rising.
    fn due_numbers(&self, alloc: Global, records: &Records, p: u64) -> Result<Vec<u128>, AllocError>
        ensures are { IfOk result (λ v. (objects : List Object) (es : List Entry) → ObjectsAre records.now objects
            → EntriesAre self.now es → v.items ≡ numbers.due_numbers objects p es) }
        ensures grown { OnErr result ((objects : List Object) (l : List declared.DeathNotification)
            → ObjectsAre records.now objects → DeathsAre self.now l → list_any (due.is_due objects p) l ≡ true) }
    {
        let mut found = Vec::new(alloc);
        self.push_due(records, p, &mut found)?;
        found.sort_unstable();
        found.dedup();
        Ok(found)
    }

    // The notifications of these numbers.
    fn deaths_of(&self, alloc: Global, found: &[u128]) -> Result<Vec<DeathNotification>, AllocError>
        ensures are { IfOk result (λ v. v.items ≡ numbers.deaths_at self.now found.now) }
        ensures some { OnErr result (0 < length found.now) }
    {
        let mut told = Vec::new(alloc);
        for n in found {
            if let Some(x) = self.in_slot((*n % ABOVE) as usize) {
                told.push(x)?;
            }
        }
        Ok(told)
    }

    /// The notifications of others by which the end of the process is to be told, in the order in which they were made.
    pub fn due(
        &self,
        alloc: Global,
        records: &Records,
        p: u64,
    ) -> Result<Vec<DeathNotification>, AllocError>
        ensures due { IfOk result (λ v. (objects : List Object) (l : List declared.DeathNotification)
            → ObjectsAre records.now objects → DeathsAre self.now l → v.items ≡ due.due_in objects p l) }
        // Memory was asked for: a notification is due.
        ensures grown { OnErr result ((objects : List Object) (l : List declared.DeathNotification)
            → ObjectsAre records.now objects → DeathsAre self.now l → list_any (due.is_due objects p) l ≡ true) }
    {
        let found = self.due_numbers(alloc, records, p)?;
        let told = self.deaths_of(alloc, &found)?;
        Ok(told)
    }
}
