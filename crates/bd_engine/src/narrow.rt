//! Looks at an engine with a history: its places have 32 bits, since a space names steps before it alone.

ghost use Rattle.std.specs.{Prelude.{◌≡◌, ◌<◌, length, IfSome}, Iterator.{YieldsFirst, item_count}};
ghost use Rattle.bd_space.specs.{Histories.{space_after}};
ghost use Rattle.bd_engine.specs.Looks as looks;

use crate::engine::Engine;
use crate::looks::Looks;
use crate::wide::WideEngine;
use bd_objects::CarriedObjects;
use bd_space::{Identity, ObjectId};
use std::marker::Model;

/// The objects that a buffer of a history carries, one for each object of its parcel, in their order.
#[derive(Drop)]
pub struct ShortObjects<'a> {
    objects: CarriedObjects<'a>,
}

impl<'a> Model for ShortObjects<'a> {
    ghost use Rattle.std.specs.Prelude.{List, ◌<◌, ◌^◌};
    ghost use Rattle.bd_space.specs.declared.step.Identity.{Identity};
    ghost use Rattle.bd_laws.specs.Lists.{In};

    ghost Value = { List Identity };

    ghost view = { λ c. c.objects };

    ghost invariant = { λ c. (o : Identity) → In o c.objects → o.place < 2 ^ 32 };
}

impl Iterator for ShortObjects<'_> {
    type Item = ObjectId;

    ghost next_gives = { YieldsFirst (λ s. s) };

    ghost remaining = { item_count (λ s. s) };

    fn next(&mut self) -> Option<ObjectId> {
        match self.objects.next() {
            Some(o) => Some(ObjectId {
                place: o.place as u32,
                index: o.index,
            }),
            None => None,
        }
    }
}

/// What is told of a live buffer of a history.
#[derive(Drop)]
pub struct BufferLook<'a> {
    /// The process in whose window it lies, by the place of its Open.
    pub receiver: u32,
    /// The object that a transaction goes to.
    pub target: Option<ObjectId>,
    /// Whether it was handed out.
    pub handed: bool,
    /// The objects that it carries.
    pub carried: ShortObjects<'a>,
}

impl WideEngine {
    // The place of a step of the history, which has at most 4294967295.
    fn short(&self, place: u64) -> u32
        requires { place < length self.now.entries }
        ensures { result ≡ place }
    {
        let steps = self.len();
        prove!(place < u64::from(steps));
        place as u32
    }

    // The same, where there is one.
    fn short_place(&self, place: Option<u64>) -> Option<u32>
        requires { IfSome place (λ n. n < length self.now.entries) }
        ensures { result ≡ place }
    {
        match place {
            Some(place) => Some(self.short(place)),
            None => None,
        }
    }

    // The identity of an object that a step of the history made, where there is one.
    fn short_id(&self, object: Option<Identity>) -> Option<ObjectId>
        requires { IfSome object (λ o. o.place < length self.now.entries) }
        ensures { result ≡ object }
    {
        match object {
            Some(o) => Some(ObjectId {
                place: self.short(o.place),
                index: o.index,
            }),
            None => None,
        }
    }

    // The objects that the buffer made there carries. They are of steps of the history, of which `len` tells how many.
    fn short_objects(&self, made: u64) -> ShortObjects<'_>
        ensures { result ≡ looks.carried (space_after self.now) made }
    {
        let _steps = self.len();
        ShortObjects {
            objects: Looks::carried(self, made),
        }
    }

    /// The process of the live thread of a seat, by the place of its Open.
    pub fn process_of(&self, seat: u32) -> Option<u32>
        ensures { result ≡ looks.process_of (space_after self.now) seat }
    {
        self.short_place(Looks::process_of(self, seat))
    }

    /// The context manager's object.
    pub fn manager(&self) -> Option<ObjectId>
        ensures { result ≡ (space_after self.now).manager }
    {
        self.short_id(Looks::manager(self))
    }

    /// The process that owns an object of the space, by the place of its Open.
    pub fn owner(&self, o: ObjectId) -> Option<u32>
        ensures { result ≡ looks.owner_of (space_after self.now) o }
    {
        self.short_place(Looks::owner(self, Identity::from(o)))
    }

    /// What the number (handle) names for the live process with this pid.
    pub fn named(&self, pid: u32, number: u32) -> Option<ObjectId>
        ensures { result ≡ looks.named_by (space_after self.now) pid number }
    {
        self.short_id(Looks::named(self, pid, number))
    }

    /// The live buffer made there.
    pub fn buffer(&self, made: u32) -> Option<BufferLook<'_>>
        ensures { result ≡ looks.buffer_of (space_after self.now) made }
    {
        let made = u64::from(made);
        match Looks::buffer(self, made) {
            Some(buffer) => Some(BufferLook {
                receiver: self.short(buffer.receiver()),
                target: self.short_id(buffer.target()),
                handed: buffer.is_handed(),
                carried: self.short_objects(made),
            }),
            None => None,
        }
    }

    /// Where the innermost frame of a seat's thread was made, and whether the thread serves it.
    pub fn innermost(&self, seat: u32) -> Option<(u32, bool)>
        ensures { result ≡ looks.innermost_of (space_after self.now) seat }
    {
        match Looks::innermost(self, seat) {
            Some((made, serves)) => Some((self.short(made), serves)),
            None => None,
        }
    }

    /// Where the first reply on the own list of a seat's thread was made.
    pub fn first_reply(&self, seat: u32) -> Option<u32>
        ensures { result ≡ looks.first_reply (space_after self.now) seat }
    {
        self.short_place(Looks::first_reply(self, seat))
    }
}

impl Engine {
    /// The process of the live thread of a seat, by the place of its Open.
    pub fn process_of(&self, seat: u32) -> Option<u32>
        ensures { result ≡ looks.process_of (space_after self.now) seat }
    {
        self.as_wide().process_of(seat)
    }

    /// The context manager's object.
    pub fn manager(&self) -> Option<ObjectId>
        ensures { result ≡ (space_after self.now).manager }
    {
        self.as_wide().manager()
    }

    /// The process that owns an object of the space, by the place of its Open.
    pub fn owner(&self, o: ObjectId) -> Option<u32>
        ensures { result ≡ looks.owner_of (space_after self.now) o }
    {
        self.as_wide().owner(o)
    }

    /// What the number (handle) names for the live process with this pid.
    pub fn named(&self, pid: u32, number: u32) -> Option<ObjectId>
        ensures { result ≡ looks.named_by (space_after self.now) pid number }
    {
        self.as_wide().named(pid, number)
    }

    /// The live buffer made there.
    pub fn buffer(&self, made: u32) -> Option<BufferLook<'_>>
        ensures { result ≡ looks.buffer_of (space_after self.now) made }
    {
        self.as_wide().buffer(made)
    }

    /// Where the innermost frame of a seat's thread was made, and whether the thread serves it.
    pub fn innermost(&self, seat: u32) -> Option<(u32, bool)>
        ensures { result ≡ looks.innermost_of (space_after self.now) seat }
    {
        self.as_wide().innermost(seat)
    }

    /// Where the first reply on the own list of a seat's thread was made.
    pub fn first_reply(&self, seat: u32) -> Option<u32>
        ensures { result ≡ looks.first_reply (space_after self.now) seat }
    {
        self.as_wide().first_reply(seat)
    }
}
