//! Judging a journal as it is read: no entry is kept.

ghost use Rattle.std.specs.Prelude.{◌≡◌, [], None, IfOk, IfErr};
ghost use Rattle.bd_engine.specs.Refusals.{IsLiveSeats};
ghost use Rattle.bd_space.specs.Histories.{history_of};
ghost use Rattle.bd_spelling.specs.Reading.{Fails};
ghost use Rattle.bd_journal.specs.Cut.{IsUncut, IsUnread};
ghost use Rattle.bd_journal.specs.Steps.{count_left, entries_left, seats_of, whole_left};
ghost use Rattle.bd_spelling.specs.declared.fault.ReadError.TheVariants.{Memory};
ghost use Rattle.bd_audit.specs.{Judging.{HasHeard, HasHeardAll, HasJudged}, Journals.{HasSeenAll, HasSeenWhole, JudgesCut, JudgesJournal}};

use crate::judge::Judge;
use crate::judging::Watch;
use bd_journal::{JournalReader, ReadError};
use std::alloc::Global;

/// What a judgment tells of a journal's entries.
#[derive(Clone, Copy, Debug, PartialEq, Eq)]
pub struct Judgment {
    /// How many entries the journal has, or how many are whole in one that was cut off.
    pub entries: usize,
    /// The place of the first that doesn't follow from those before, from 0; None where they all do.
    pub stopped: Option<u64>,
}

// A judge of the record that is read.
fn judge_for(alloc: Global, reader: &JournalReader<'_>) -> Result<Judge, ReadError>
    requires seats { IsLiveSeats (seats_of reader.now) }
    ensures judge { IfOk result (λ j. HasJudged j (history_of (seats_of reader.now) [])) }
    ensures error { IfErr result (λ e. e ≡ Memory) }
{
    match Judge::new(alloc, reader.seats()) {
        Ok(judge) => Ok(judge),
        Err(_) => Err(ReadError::Memory),
    }
}

// Shows the judge each entry that is still to be read.
fn show_all<W: Watch>(
    alloc: Global,
    reader: &mut JournalReader<'_>,
    judge: &mut Judge,
    watch: &mut W,
) -> Result<(), ReadError>
    ensures seen { IfOk result (λ _. HasSeenAll judge.old judge.new (entries_left reader.old)) }
    ensures heard { IfOk result (λ _. HasHeardAll W.heard watch.new (count_left reader.old)) }
    ensures error { IfErr result (λ e. Fails e (entries_left reader.old)) }
{
    let all = reader.left();
    'entries: loop {
        match reader.next(alloc) {
            Ok(Some(entry)) => {
                let Ok(()) = judge.see(&entry) else {
                    return Err(ReadError::Memory);
                };
                watch.follow(all.saturating_sub(reader.left()) as usize, all as usize);
            }
            Ok(None) => return Ok(()),
            Err(error) => return Err(error),
        }
    }
}

/// Judges the bytes of a journal as they are read: how many entries it has, and whether they are lawful, or else which
/// is the first that doesn't follow from those before. Lawful entries of a journal of version one or two are a history. No entry is kept. It tells how far it is.
///
/// # Errors
/// `Malformed` where no record is spelled so, whatever its entries are; `Memory` where memory was refused.
pub fn judge_journal<W: Watch>(
    alloc: Global,
    bytes: &[u8],
    watch: &mut W,
) -> Result<Judgment, ReadError>
    // What is told is so of the record that the bytes spell.
    ensures judgment { IfOk result (JudgesJournal bytes.now) }
    // Whoever watches has heard in the end that all are done.
    ensures heard { IfOk result (λ j. HasHeardAll W.heard watch.new j.entries) }
    // Where nothing is told, that is why.
    ensures fault { IfErr result (IsUnread bytes.now) }
{
    let mut reader = match JournalReader::new(bytes) {
        Ok(reader) => reader,
        Err(error) => return Err(error),
    };
    let entries = reader.left() as usize;
    let mut judge = match judge_for(alloc, &reader) {
        Ok(judge) => judge,
        Err(error) => return Err(error),
    };
    match show_all(alloc, &mut reader, &mut judge, watch) {
        Ok(()) => Ok(Judgment {
            entries,
            stopped: judge.stopped(),
        }),
        Err(error) => Err(error),
    }
}

// Shows the judge each entry that is whole in what is left, and tells how many they were and how many bytes are behind them.
fn show_whole<W: Watch>(
    alloc: Global,
    reader: &mut JournalReader<'_>,
    judge: &mut Judge,
    watch: &mut W,
) -> Result<(usize, usize), ReadError>
    ensures seen { IfOk result (λ x. HasSeenWhole judge.old judge.new (whole_left reader.old) x.0 x.1) }
    ensures heard { IfOk result (λ x. HasHeard W.heard watch.new x.0) }
    ensures error { IfErr result (λ e. e ≡ Memory) }
{
    let all = reader.bytes_left();
    let mut entries = 0;
    'entries: loop {
        match reader.next_whole(alloc) {
            Ok(Some(entry)) => {
                let Ok(()) = judge.see(&entry) else {
                    return Err(ReadError::Memory);
                };
                entries += 1;
                watch.follow(all.saturating_sub(reader.bytes_left()), all);
            }
            Ok(None) => return Ok((entries, reader.bytes_left())),
            Err(_) => return Err(ReadError::Memory),
        }
    }
}

/// Judges what is whole of a journal that was cut off, as it is read, and tells how many bytes are left behind. It tells how
/// far it is, in bytes: nobody knows how many entries are to come.
///
/// # Errors
/// `Malformed` where the bytes begin with no heading, `Memory` where memory was refused.
pub fn judge_cut<W: Watch>(
    alloc: Global,
    bytes: &[u8],
    watch: &mut W,
) -> Result<(Judgment, usize), ReadError>
    ensures judgment { IfOk result (λ x. JudgesCut bytes.now x.0 x.1) }
    ensures heard { IfOk result (λ x. HasHeard W.heard watch.new x.0.entries) }
    ensures fault { IfErr result (IsUncut bytes.now) }
{
    let mut reader = match JournalReader::new(bytes) {
        Ok(reader) => reader,
        Err(error) => return Err(error),
    };
    let mut judge = match judge_for(alloc, &reader) {
        Ok(judge) => judge,
        Err(error) => return Err(error),
    };
    match show_whole(alloc, &mut reader, &mut judge, watch) {
        Ok((entries, left)) => {
            let judgment = Judgment {
                entries,
                stopped: judge.stopped(),
            };
            Ok((judgment, left))
        }
        Err(error) => Err(error),
    }
}
