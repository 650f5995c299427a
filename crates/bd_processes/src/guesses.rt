//! Guesses at which index a process stands.

use bd_space::Process;

// So many are kept: a few lines of the cache.
const GUESSES: usize = 64;

/// The index of the latest of those processes whose identities share their lowest bits. Whoever asks compares what stands there, and
/// searches where it is another: so no contract speaks of a guess.
#[derive(Drop)]
pub(crate) struct Guesses {
    indexes: [u32; GUESSES],
}

impl Guesses {
    /// All guess index 0. Takes no memory.
    pub(crate) fn new() -> Guesses {
        Guesses {
            indexes: [0; GUESSES],
        }
    }

    /// Where the process with this identity may stand.
    #[inline(always)]
    pub(crate) fn of(&self, made: u64) -> usize {
        self.indexes[made as usize % GUESSES] as usize
    }

    /// It stands there now. An index past 32 bits is guessed wrongly.
    pub(crate) fn note(&mut self, made: u64, index: usize) {
        self.indexes[made as usize % GUESSES] = (index % 4294967296) as u32;
    }

    /// Those at this index and behind it stand there now. The last few are noted, as there are no more guesses: so an end takes no
    /// longer the more processes there are.
    pub(crate) fn note_from(&mut self, processes: &[Process], from: usize) {
        let last = processes.len().saturating_sub(GUESSES);
        for i in from.max(last)..processes.len() {
            self.note(processes[i].made, i);
        }
    }
}
