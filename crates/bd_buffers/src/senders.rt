//! How much of a window the one-way buffers of each sender take.

ghost use Rattle.std.specs.Prelude.{◌≡◌, ◌+◌, ◌<◌, ◌≤◌, ◌^◌, ℕ};
ghost use Rattle.bd_keys.specs.Look.{word_room};
ghost use Rattle.bd_buffers.specs.{Buffer.{one_way_share, share_from}, Record.{bare}};
ghost use Rattle.bd_buffers.specs.Sums as spec;

use crate::record::Record;
use bd_keys::{WordKey, WordMap};

// By what a sender's sum is found.
fn sender_key(sender: u64) -> WordKey
    ensures { result ≡ spec.sender_key sender }
{
    WordKey {
        process: 0,
        word: sender,
    }
}

/// The sum of a sender: 0 where nothing is noted. Takes no memory.
pub(crate) fn sum_of(sums: &WordMap<u32>, sender: u64) -> u32
    ensures { result ≡ spec.sum_at sums.now sender }
{
    sums.get(sender_key(sender)).unwrap_or(0)
}

/// Adds a new buffer to its sender's sum, if it is a one-way call's. Takes no memory.
pub(crate) fn raise(sums: &mut WordMap<u32>, b: &Record)
    requires room { 1 ≤ word_room sums.old }
    requires filled { 0 < b.now.size }
    requires fits { spec.sum_at sums.old b.now.sender + b.now.size < 2 ^ 32 }
    ensures sums { (f : ℕ → ℕ) → spec.AreNoted sums.old f → spec.AreNoted sums.new (λ m. f m + share_from m (bare b.now)) }
    ensures room { word_room sums.old ≤ word_room sums.new + 1 }
{
    if !b.one_way {
        return;
    }
    let sum = sum_of(sums, b.sender) + b.size;
    sums.insert(sender_key(b.sender), sum);
}

/// Takes an ended buffer off its sender's sum, if it was a one-way call's. Nothing stays noted of a sender that has no
/// other.
pub(crate) fn lower(sums: &mut WordMap<u32>, b: &Record)
    requires share { one_way_share (bare b.now) ≤ spec.sum_at sums.old b.now.sender }
    ensures sums { (f : ℕ → ℕ) → spec.AreNoted sums.old (λ m. f m + share_from m (bare b.now)) → spec.AreNoted sums.new f }
    ensures room { word_room sums.old ≤ word_room sums.new }
{
    if !b.one_way {
        return;
    }
    let left = sum_of(sums, b.sender) - b.size;
    if left == 0 {
        let _sum = sums.remove(sender_key(b.sender));
    } else {
        sums.set(sender_key(b.sender), left);
    }
}
