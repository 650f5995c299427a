//! Numbers of several parts, which keys of hash maps are hashed by: one write a key. Derived, each field of a key (and the
//! tag of an enum) would be a write of its own, and each write waits for the one before.

ghost use Rattle.std.specs.Prelude.{◌≡◌};
ghost use Rattle.bd_keys.specs.Numbers.{mixed, pair, wide};

/// A number of 32 bits above one of 64, as one number, another for each two.
pub fn wide(high: u32, low: u64) -> u128
    ensures { result ≡ wide high low }
{
    u128::from(high) * 0x1_0000_0000_0000_0000 + u128::from(low)
}

/// A number of 64 bits above one of 32, as one number, another for each two.
pub fn tall(high: u64, low: u32) -> u128
    ensures { result ≡ pair high low }
{
    u128::from(high) * 0x1_0000_0000 + u128::from(low)
}

/// A number of 128 bits for a process, a place and an index, the same for the same three. Few others have it: a hash map asks for
/// nothing more.
#[tactic(auto, unfolding(crate::specs::Numbers::mixed))]
pub fn mixed(process: u64, place: u64, index: u32) -> u128
    ensures { result ≡ mixed process place index }
{
    let low = u128::from(place) + u128::from(process) * 0x1_0000_0000_0000_0000;
    low.wrapping_add(u128::from(index) * 0x9e37_79b9_7f4a_7c15_f39c_c060)
}
