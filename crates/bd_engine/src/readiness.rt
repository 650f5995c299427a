//! Which seats' readiness has changed.

ghost use Rattle.std.specs.Prelude.{ℕ, ◌≡◌, ◌+◌, ◌≤◌, ◌<◌, ◌==◌, false, if◌then◌else◌, [], All, length, count_by, get_or, vec_len, vec_capacity};
ghost use Rattle.bd_space.specs.Histories.{History, space_after, is_ready};
ghost use Rattle.bd_engine.specs.{Follows.{Follows}, Readiness.{has_seat, flipped, Noted}};

use crate::live::Live;
use crate::looks::Looks;

impl Live {
    /// Notes which of these seats are ready, and lists those of which that was noted otherwise. Takes no memory. Who calls
    /// it after each step, with every seat that may have come to be ready or unready, has noted all rightly; with all seats
    /// that is so.
    pub fn note_ready(&self, touched: &[u32], noted: &mut [bool], changed: &mut Vec<u32>)
        requires room { vec_len changed.old + length touched.now ≤ vec_capacity changed.old }
        requires none { changed.old.items ≡ [] }
        // These seats are noted as they are, and the others as before.
        ensures seen { (h : History) → Follows self.now h → (seat : ℕ) → seat < length noted.old
            → get_or noted.new seat false
            ≡ (if has_seat touched.now seat then is_ready (space_after h) seat else get_or noted.old seat false) }
        // Where only these seats may be noted wrongly, none is afterwards.
        ensures noted { (h : History) → Follows self.now h
            → ((seat : ℕ) → seat < length noted.old → has_seat touched.now seat ≡ false
            → get_or noted.old seat false ≡ is_ready (space_after h) seat)
            → Noted noted.new (space_after h) }
        // The list has exactly the seats that are noted otherwise than before.
        ensures changed { (h : History) → Follows self.now h → (seat : ℕ) → seat < length noted.old
            → has_seat changed.new.items seat ≡ flipped (get_or noted.old seat false) (get_or noted.new seat false) }
        // None of them stands there twice, and no other seat does.
        ensures once { (h : History) → Follows self.now h → (seat : ℕ) → seat < length noted.old
            → count_by (λ x. x == seat) changed.new.items ≤ 1 }
        ensures inside { All (λ x. x < length noted.old) changed.new.items }
        ensures len { length noted.new ≡ length noted.old }
    {
        for i in 0..touched.len() {
            let seat = touched[i];
            let at = seat as usize;
            if at < noted.len() {
                let ready = self.is_ready(seat);
                if noted[at] != ready {
                    noted[at] = ready;
                    changed.push_reserved(seat);
                }
            }
        }
    }
}
