//! What owners are told of their objects.

ghost use Rattle.std.specs.Prelude.{◌≡◌, ◌&&◌, ◌||◌};
ghost use Rattle.bd_space.specs.Words.{when};
ghost use Rattle.bd_objects.specs.Telling.{differs};

use bd_records::Hold;
use bd_space::Object;

// Whether what the owner was told isn't what is so.
fn differs(hold: Hold, x: &Object) -> bool
    ensures { result ≡ differs hold.is_held hold.is_strong x.now }
{
    x.told_weak != hold.is_held || x.told_strong != hold.is_strong
}

/// Whether the object stays: it is held, or its owner lives and was told that it is.
pub(crate) fn stays(hold: Hold, lives: bool, x: &Object) -> bool
    ensures { result ≡ (hold.is_held || (lives && (x.now.told_weak || x.now.told_strong))) }
{
    hold.is_held || (lives && (x.told_weak || x.told_strong))
}

/// The owner, if it lives and is to be told.
pub(crate) fn owner_to_tell(hold: Hold, lives: bool, x: &Object) -> Option<u64>
    ensures { result ≡ when (lives && differs hold.is_held hold.is_strong x.now) x.now.owner }
{
    if lives && differs(hold, x) {
        Some(x.owner)
    } else {
        None
    }
}
