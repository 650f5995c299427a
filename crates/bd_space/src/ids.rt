//! Identities of objects in a history that has an end, whose places have 32 bits.

ghost use Rattle.std.specs.Prelude.{◌≡◌};

use crate::step::Identity;
use std::marker::Model;

/// An object's identity in a history of at most 4294967295 steps. Contracts see it as the [`Identity`] that it is.
#[derive(Clone, Copy, Debug, PartialEq, Eq)]
pub struct ObjectId {
    /// The place of the step that made it, from 0.
    pub place: u32,
    /// Which of that step's objects it is, from 0.
    pub index: u32,
}

impl Model for ObjectId {
    ghost use Rattle.std.specs.Prelude.{◌<◌, ◌^◌};
    ghost use Rattle.bd_space.specs.declared.step.Identity.{Identity};

    ghost Value = { Identity };

    ghost view = { λ o. record { place = o.place; index = o.index } };

    ghost inverse = { λ v. record { place = v.place; index = v.index } };
}

impl From<ObjectId> for Identity {
    ghost from_gives = { λ o i. i ≡ o };

    fn from(o: ObjectId) -> Identity {
        Identity {
            place: u64::from(o.place),
            index: o.index,
        }
    }
}
