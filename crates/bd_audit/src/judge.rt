//! Judging entries that come one after the other.

ghost use Rattle.std.specs.Prelude.{◌≡◌, [], IfOk, IfErr, OnErr, MatchResult};
ghost use Rattle.bd_engine.specs.Refusals.{IsLiveSeats};
ghost use Rattle.bd_space.specs.Histories.{History, HasLivePlace, history_of};
ghost use Rattle.bd_uapi.specs.declared.fault.Fault.TheVariants as faults;
ghost use Rattle.bd_audit.specs.Judging.{HasJudged, IsStop};
ghost use Rattle.bd_audit.specs.Replays.{with_entry};

use crate::judging::accept_live;
use bd_engine::Live;
use bd_space::Entry;
use bd_uapi::Fault;
use std::alloc::Global;

/// Whether entries are lawful, as they come: it keeps none of them, only what they have come to. Lawful ones are a history where
/// there are at most 4294967295 of them.
#[derive(Drop)]
pub struct Judge {
    live: Live,
    stopped: Option<u64>,
}

impl Judge {
    /// A judge of a driver of so many seats that has seen no entry yet. The only fault is `NoMemory`.
    pub fn new(alloc: Global, seats: u32) -> Result<Judge, Fault>
        requires seats { IsLiveSeats seats }
        ensures { MatchResult result (λ j. HasJudged j (history_of seats [])) (λ f. f ≡ faults.NoMemory) }
    {
        match Live::new(alloc, seats) {
            Ok(live) => Ok(Judge {
                live,
                stopped: None,
            }),
            Err(_) => Err(Fault::NoMemory),
        }
    }

    /// Sees the next entry. The only fault is `NoMemory`, and nothing is known of the judge after it.
    pub fn see(&mut self, entry: &Entry) -> Result<(), Fault>
        ensures seen { IfOk result (λ _. (h : History) → HasJudged self.old h → HasJudged self.new (with_entry h entry.now)) }
        ensures fault { IfErr result (λ f. f ≡ faults.NoMemory) }
        // Memory is wanted only where one entry more has a place.
        ensures memory { OnErr result ((h : History) → HasJudged self.old h → HasLivePlace h) }
    {
        if self.stopped.is_some() {
            return Ok(());
        }
        let at = self.live.len();
        match accept_live(&mut self.live, entry) {
            Ok(true) => Ok(()),
            Ok(false) => {
                self.stopped = Some(at);
                Ok(())
            }
            Err(_) => Err(Fault::NoMemory),
        }
    }

    /// The place of the first entry that doesn't follow from those before, from 0; None while they all do.
    pub fn stopped(&self) -> Option<u64>
        ensures { (h : History) → HasJudged self.now h → IsStop h result }
    {
        self.stopped
    }
}
