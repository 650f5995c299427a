//! Judging a journal as it is read: no entry is kept.

ghost use Rattle.std.specs.Prelude.{◌≡◌, IfOk, IfErr};
ghost use Rattle.bd_spelling.specs.declared.record.Record.{Record};
ghost use Rattle.bd_audit.specs.Journals.{IsJudgment};
ghost use Rattle.bd_player.specs.{Cuts.{IsCutUnjudged, IsCutVerdict}, Verdicts.{Holds, IsUnjudged, IsVerdict, fault_told}};

use crate::faults::ProgramFault;
use crate::verdicts::Verdict;
use bd_audit::{Judgment, Watch, judge_cut, judge_journal};
use bd_journal::ReadError;
use std::alloc::Global;

// Why a journal can't be read.
pub fn fault_of(error: ReadError) -> ProgramFault
    ensures { result ≡ fault_told error }
{
    match error {
        ReadError::Malformed => ProgramFault::Journal,
        ReadError::Memory => ProgramFault::Memory,
    }
}

// What is said of a journal by its judgment.
fn verdict_of(judgment: Judgment) -> Verdict
    ensures { (r : Record) → IsJudgment r judgment → Holds r result }
{
    match judgment.stopped {
        None => Verdict::Lawful {
            entries: judgment.entries,
        },
        Some(at) => Verdict::Unlawful { at },
    }
}

/// Judges the bytes of a journal as they are read: whether its entries are lawful, or else the first that doesn't follow
/// from those before. No entry is kept. It tells how far it is.
///
/// # Errors
/// `Journal` where no record is spelled so, whatever its entries are; `Memory` where memory was refused.
#[tactic(auto, using(crate::proofs::Unjudged::verdict, crate::proofs::Unjudged::unjudged))]
pub fn verdict_watched<P: Watch>(
    alloc: Global,
    bytes: &[u8],
    watch: &mut P,
) -> Result<Verdict, ProgramFault>
    // What is said is so of the record that the bytes spell.
    ensures verdict { IfOk result (IsVerdict bytes.now) }
    // No journal is called unreadable, and memory is wanted for none without a heading.
    ensures journal { IfErr result (IsUnjudged bytes.now) }
{
    match judge_journal(alloc, bytes, watch) {
        Ok(judgment) => Ok(verdict_of(judgment)),
        Err(error) => Err(fault_of(error)),
    }
}

/// Judges what is whole of a journal that was cut off, as it is read, and tells how many bytes are left behind. It tells how
/// far it is, in bytes: nobody knows how many entries are to come.
///
/// # Errors
/// `Journal` where the bytes begin with no heading, `Memory` where memory was refused.
#[tactic(auto, using(crate::proofs::Unjudged::cut_verdict, crate::proofs::Unjudged::cut_unjudged))]
pub fn cut_verdict<P: Watch>(
    alloc: Global,
    bytes: &[u8],
    watch: &mut P,
) -> Result<(Verdict, usize), ProgramFault>
    ensures verdict { IfOk result (λ x. IsCutVerdict bytes.now x.0 x.1) }
    ensures journal { IfErr result (IsCutUnjudged bytes.now) }
{
    match judge_cut(alloc, bytes, watch) {
        Ok((judgment, left)) => Ok((verdict_of(judgment), left)),
        Err(error) => Err(fault_of(error)),
    }
}
