//! Guesses where things stand.

use std::alloc::{AllocError, Global};

// So many are kept where a guess takes fewest instructions.
const FEW: usize = 1024;

// Of 2 to the 64th the golden section, odd: its multiples lie evenly apart, and so do the guesses of keys that rise evenly.
const SECTION: u64 = 0x9e37_79b9_7f4a_7c15;

/// Two guesses for each key where what it leads to stands: the latest of the keys that share one of a few, and one of many, twice
/// as many as there are things: of the many first where there are too many for the few. Whoever asks compares what stands there, and
/// searches where it is another's: so no contract speaks of a guess.
#[derive(Drop)]
pub struct Guesses {
    few: [u32; FEW],
    many: Vec<u32>,
}

impl Guesses {
    /// All guess slot 0. Takes no memory.
    pub fn new(alloc: Global) -> Guesses {
        Guesses {
            few: [0; FEW],
            many: Vec::new(alloc),
        }
    }

    // Where a key's guess is among the many: as far along as its multiple of the section is on the way to 2 to the 64th.
    fn place_of(&self, key: u64) -> usize {
        let part = key.wrapping_mul(SECTION) >> 32;
        (part.wrapping_mul(self.many.len() as u64) >> 32) as usize
    }

    /// Whether there are so few things that the few guesses are asked first.
    #[inline(always)]
    pub fn are_few(&self) -> bool {
        self.many.len() <= 2 * FEW
    }

    /// Where it may stand by the few guesses.
    #[inline(always)]
    pub fn of(&self, key: u64) -> u32 {
        self.few[key as usize % FEW]
    }

    /// Where it may stand by the many.
    #[inline(always)]
    pub fn among(&self, key: u64) -> u32 {
        match self.many.get(self.place_of(key)) {
            Some(slot) => *slot,
            None => 0,
        }
    }

    /// It stands there now. A slot past 32 bits is guessed wrongly.
    pub fn note(&mut self, key: u64, slot: usize) {
        let slot = (slot % 4294967296) as u32;
        self.few[key as usize % FEW] = slot;
        let at = self.place_of(key);
        if let Some(guess) = self.many.get_mut(at) {
            *guess = slot;
        }
    }

    // As many as few, all of slot 0, or each of the many twice: then a key's guess is the same as before.
    fn doubled(&self) -> Result<Vec<u32>, AllocError> {
        let mut many = Vec::new(*self.many.allocator());
        many.reserve(FEW.max(self.many.len().saturating_mul(2)))?;
        for slot in self.many.as_slice() {
            many.push(*slot)?;
            many.push(*slot)?;
        }
        for _ in many.len()..FEW {
            many.push(0)?;
        }
        Ok(many)
    }

    /// Keeps twice as many guesses as there are to be things, and more. Where memory is refused it's as many as there were: more of
    /// them are wrong.
    pub fn reserve(&mut self, things: usize) {
        for _ in 0..usize::BITS {
            if things <= self.many.len() / 2 {
                return;
            }
            match self.doubled() {
                Ok(many) => self.many = many,
                Err(_) => return,
            }
        }
    }
}
