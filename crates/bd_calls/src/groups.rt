//! The seats of a process, as far as they were looked for.
#![tactic(auto)]

ghost use Rattle.std.specs.Prelude.{ℕ, ◌≡◌, ◌<◌, get_or, length};
ghost use Rattle.bd_calls.specs.Grouped as spec;

/// So many processes are kept with their seats at once.
pub(crate) const GROUPS: usize = 32;

/// A process, and a word with each seat that is kept to have a thread of it, and maybe with others.
#[derive(Clone, Copy)]
pub(crate) struct Group {
    pub(crate) process: u64,
    pub(crate) seats: u32,
}

/// Groups of processes that there are hardly ever. Any seat may have a thread of these.
pub(crate) fn no_groups() -> [Group; GROUPS]
    ensures groups { (k : ℕ) → get_or result k spec.whole ≡ spec.whole }
    ensures count { length result ≡ 32 }
{
    [Group {
        process: u64::MAX,
        seats: u32::MAX,
    }; GROUPS]
}

/// Where the process stands among those that are kept. Others may stand there in its place.
#[inline(always)]
pub(crate) fn group_place(process: u64) -> usize
    ensures { result < 32 }
{
    (process % GROUPS as u64) as usize
}
