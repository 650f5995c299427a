//! Who waits for the reply to a call, and has the completion of that call still to read.

ghost use Rattle.std.specs.Prelude.{ℕ, ◌≡◌, ◌⊎◌, Some, true, false};
ghost use Rattle.bd_bridge.specs.Resting.{is_resting};

/// Two seats at most, whose threads are left what they have to read. They are looked at again after each step, since it isn't
/// named what comes behind it: so they are few.
#[derive(Clone, Copy)]
pub struct Resting {
    // Who has rested for longest.
    pub(crate) first: Option<u32>,
    pub(crate) second: Option<u32>,
}

impl Resting {
    /// None.
    #[inline(always)]
    pub fn none() -> Resting
        ensures { (t : ℕ) → is_resting result t ≡ false }
    {
        Resting {
            first: None,
            second: None,
        }
    }

    /// Whether one more may rest without another having to go.
    #[inline(always)]
    pub fn has_place(&self) -> bool {
        self.second.is_none()
    }

    /// One more. Who has rested for longest and has to go for it.
    #[inline(always)]
    pub fn add(&mut self, seat: u32) -> Option<u32>
        ensures added { is_resting self.new seat ≡ true }
        ensures kept { (t : ℕ) → is_resting self.old t ≡ true → (is_resting self.new t ≡ true) ⊎ (result ≡ Some t) }
    {
        if self.first.is_none() {
            self.first = Some(seat);
            return None;
        }
        if self.second.is_none() {
            self.second = Some(seat);
            return None;
        }
        let longest = self.first;
        self.first = self.second;
        self.second = Some(seat);
        longest
    }
}
