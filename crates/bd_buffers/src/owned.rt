//! Windows by whose they are.

ghost use Rattle.std.specs.{Prelude.{◌≡◌, not, map, filter, find}, Option.{option_copied}};
ghost use Rattle.bd_space.specs.{Words.{changed}, Freeing.{is_made_at}, ReadItems.{hand_out}};
ghost use Rattle.bd_buffers.specs.{Homes.{Forgets}, Owners.{AreInOrder, StandsAt}, WindowsStand.{buffers_held, made_of_buffer, is_of, is_owned_by, seen, with_buffers}};

use crate::listing::forget;
use crate::window::Window;
use bd_keys::WordMap;

/// The window of a live process.
#[derive(Drop)]
pub(crate) struct OwnedWindow {
    pub(crate) owner: u64,
    pub(crate) window: Window,
}

/// Where the window of a process stands: as guessed, or as found by halves.
#[tactic(auto, using(std::proofs::lemmas::List::get_or_default))]
pub(crate) fn position_of(windows: &[OwnedWindow], p: u64, guess: u32) -> Option<usize>
    requires order { AreInOrder windows.now }
    ensures { StandsAt windows.now p result }
{
    let near = guess as usize;
    if near < windows.len() && windows[near].owner == p {
        return Some(near);
    }
    windows.binary_search_by_key(&p, |w| w.owner).ok()
}

/// The window of a process.
pub(crate) fn owned_by(windows: &[OwnedWindow], p: u64, guess: u32) -> Option<&OwnedWindow>
    requires order { AreInOrder windows.now }
    ensures { option_copied result ≡ find (is_owned_by p) windows.now }
{
    match position_of(windows, p, guess) {
        None => None,
        Some(i) => Some(&windows[i]),
    }
}

/// Ends the buffer made there, in the window of a process.
#[tactic(auto, using(crate::proofs::AllWindows::one_missed))]
pub(crate) fn free_in(windows: &mut Vec<OwnedWindow>, p: u64, guess: u32, made: u64)
    requires order { AreInOrder windows.old.items }
    ensures { map seen windows.new.items ≡
        changed (is_of p) (with_buffers (filter (λ b. not (is_made_at made b)))) (map seen windows.old.items) }
{
    if let Some(at) = position_of(windows, p, guess) {
        windows[at].window.free(made);
    }
}

/// Marks the buffer made there, in the window of a process, as handed out.
#[tactic(auto, using(crate::proofs::AllWindows::one_made, crate::proofs::AllWindows::one_missed))]
pub(crate) fn hand_out_in(windows: &mut Vec<OwnedWindow>, p: u64, guess: u32, made: u64)
    requires order { AreInOrder windows.old.items }
    ensures { map seen windows.new.items ≡
        changed (is_of p) (with_buffers (changed (is_made_at made) hand_out)) (map seen windows.old.items) }
{
    if let Some(at) = position_of(windows, p, guess) {
        windows[at].window.hand_out(made);
    }
}

/// Forgets the homes of the live buffers of a process, and no others.
pub(crate) fn forget_in(homes: &mut WordMap<u64>, windows: &[OwnedWindow], p: u64, guess: u32)
    requires order { AreInOrder windows.now }
    ensures { Forgets (map made_of_buffer (buffers_held (find (is_owned_by p) windows.now))) homes.old homes.new }
{
    if let Some(w) = owned_by(windows, p, guess) {
        forget(homes, w.window.rows());
    }
}

/// Ends the window of a process.
pub(crate) fn close_among(windows: &mut Vec<OwnedWindow>, p: u64)
    ensures { windows.new.items ≡ filter (λ w. not (is_owned_by p w)) windows.old.items }
{
    windows.retain(|w| w.owner != p);
}
