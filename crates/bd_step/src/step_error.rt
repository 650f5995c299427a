//! Why a step or a run was refused.

/// Why a step or a run was refused. The engine is then as it was.
#[derive(Clone, Copy, Debug, PartialEq, Eq)]
pub enum StepError {
    /// F14: memory was refused.
    NoMemory,
    /// F13: one step more has no place, or a name would have to be numbered above 4294967294.
    HistoryFull,
}
