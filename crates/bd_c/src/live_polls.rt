//! What C is told beside the answer of a step: which buffers ended by it, and which seats have come to be ready or unready.
ghost use Rattle.std.specs.Prelude.{◌≡◌};
ghost use Rattle.bd_c.specs.{Behind.{Of, Over, IsLive, live_of}, Status.{Reports}, Misuse.{IsMisuse}};
ghost use Rattle.bd_c.specs.{Parts.{Fetches}, LivePolls.{Polls}};

use crate::handles::Handle;
use crate::live::OwnedLive;
use crate::parts::fill;
use crate::status::Status;

impl OwnedLive {
    /// Notes which of these seats have something to read, and lists those of which that was noted otherwise.
    pub(crate) fn poll(&mut self, seats: &[u32], changed: &mut usize) -> Status
        ensures { Polls self.old self.new seats.now result changed.old changed.new }
    {
        self.spare.clear();
        let Ok(()) = self.spare.reserve(seats.len()) else {
            return Status::NoMemory;
        };
        let Ok(()) = self
            .noted
            .resize(self.bridge.engine.live.seats() as usize, false)
        else {
            return Status::NoMemory;
        };
        self.bridge
            .engine
            .live
            .note_ready(seats, self.noted.as_mut_slice(), &mut self.spare);
        std::mem::swap(&mut self.changed, &mut self.spare);
        *changed = self.changed.len();
        Status::Done
    }
}

/// Copies the places at which the buffers were made that ended by the latest step, oldest first, if all of them fit.
/// Answers how many they are.
#[unsafe(no_mangle)]
pub extern "C" fn hullpippin_live_ended(live: &mut Handle, out: &mut [u64]) -> usize
    ensures same { live.new.held ≡ live.old.held }
    ensures fetches { IsLive live.old.held
        → Of live_of live.old.held (λ x. Fetches x.ended.items out.old out.new result) }
    ensures misuse { (IsLive live.old.held → ⊥) → (result ≡ 0) × (out.new ≡ out.old) }
{
    match live.engine() {
        Some(engine) => fill(out, &engine.ended),
        None => 0,
    }
}

/// Looks at these seats, and tells of how many it has changed since each was last looked at whether they have something to
/// read.
#[unsafe(no_mangle)]
pub extern "C" fn hullpippin_live_poll(live: &mut Handle, seats: &[u32], changed: &mut usize) -> u32
    ensures polls { IsLive live.old.held → Reports result (λ s. Over live_of live.old.held live.new.held (λ x y.
        Polls x y seats.now s changed.old changed.new)) }
    ensures misuse { (IsLive live.old.held → ⊥) → IsMisuse result live.old.held live.new.held
        × (changed.new ≡ changed.old) }
{
    match live.engine() {
        Some(engine) => engine.poll(seats, changed).number(),
        None => Status::Misuse.number(),
    }
}

/// Copies the seats that the latest such look found changed, if all of them fit. Answers how many they are.
#[unsafe(no_mangle)]
pub extern "C" fn hullpippin_live_changed(live: &mut Handle, out: &mut [u32]) -> usize
    ensures same { live.new.held ≡ live.old.held }
    ensures fetches { IsLive live.old.held
        → Of live_of live.old.held (λ x. Fetches x.changed.items out.old out.new result) }
    ensures misuse { (IsLive live.old.held → ⊥) → (result ≡ 0) × (out.new ≡ out.old) }
{
    match live.engine() {
        Some(engine) => fill(out, &engine.changed),
        None => 0,
    }
}
