//! What follows from a change at some names and objects: nothing else is looked at.

ghost use Rattle.std.specs.Prelude.{◌≡◌, ◌≤◌, [], ◌∷◌, ◌||◌, true, false, is_some, length};
ghost use Rattle.bd_space.specs.{Space.{Space}, References.{object_in}};
ghost use Rattle.bd_ways.specs.Local.{follow_of, at_name, at_object, no_name, is_among, names_among};
ghost use Rattle.bd_laws.specs.{Lists.{Pairs}, Objects.{NotLater, is_earlier}};
ghost use Rattle.bd_objects.specs.Telling.{owner_due};
ghost use Rattle.bd_calls.specs.Room.{work_room};
ghost use Rattle.bd_step.specs.Stands.{Within, Uses, MakesWithin, TellsWithin, UsesNothing, KeepsTold};
ghost use Rattle.bd_step.specs.Following.{deaths_followed, deaths_withdrawn, followed_at, names_followed, shed_of, told_of, AreTouched, IsNobodyDue, MakesOfOrdered};

use crate::tables::Tables;
use bd_space::{Identity, TodoList};

// Whether the first object was made before the second.
#[inline(always)]
fn is_earlier(o: &Identity, i: &Identity) -> bool
    ensures { result ≡ is_earlier o.now i.now }
{
    o.place < i.place || (o.place == i.place && o.index < i.index)
}

// Whether none of them stands behind one that was made later.
#[inline(always)]
fn stand_in_order(objects: &[Identity]) -> bool
    ensures { result ≡ true → Pairs NotLater objects.now }
{
    objects.is_sorted_by(|x, y| !is_earlier(y, x))
}

// Whether an owner was to be told before, or this one is.
fn is_due(before: bool, owner: Option<u64>) -> bool
    ensures { result ≡ (before || is_some owner) }
{
    before || owner.is_some()
}

/// The objects in the order in which they were made.
// Put into its callers: mostly there is nothing to be sorted.
#[inline(always)]
pub(crate) fn in_order(mut objects: Vec<Identity>) -> Vec<Identity>
    ensures touched { AreTouched (is_among objects.items) result.items }
    ensures len { length result.items ≡ length objects.items }
{
    // Most steps touch one object at most, and a parcel's new objects are in order.
    if stand_in_order(&objects) {
        return objects;
    }
    // What a buffer refers to has its target last, which mostly was there before.
    let last = objects.len().min(1);
    objects.rotate_right(last);
    if !stand_in_order(&objects) {
        objects.sort_unstable_by_key(|o| (o.place, o.index));
    }
    objects
}

impl Tables {
    // The work items go of the death notifications that go with the process's name of the object, which is gone: where just
    // one does, no other item is looked at.
    fn withdraw_deaths(&mut self, p: u64, o: Identity)
        ensures stands { MakesWithin self.old self.new (deaths_withdrawn (at_name p o)) }
        ensures uses { UsesNothing self.old self.new }
        ensures told { KeepsTold self.old self.new }
    {
        match self.objects.only_lost_death(p, o) {
            Some(made) => self.calls.withdraw_death(made),
            None => {
                let objects = &self.objects;
                self.calls
                    .retain_work(|kind| objects.still_due_at(p, o, &kind));
            }
        }
    }

    // The death notifications go whose name of the object is gone, and their work items.
    fn follow_deaths(&mut self, p: u64, o: Identity)
        ensures stands { MakesWithin self.old self.new (deaths_followed (at_name p o)) }
        ensures uses { UsesNothing self.old self.new }
        ensures told { KeepsTold self.old self.new }
    {
        if !self.objects.has_lost_death(p, o) {
            return;
        }
        self.withdraw_deaths(p, o);
        self.objects.remove_unnamed_deaths(p, o);
    }

    // The process's name of the object goes with the references that it rests on, and its death notifications with it.
    fn follow_name(&mut self, p: u64, o: Identity)
        ensures stands { MakesWithin self.old self.new (names_followed (at_name p o)) }
        ensures uses { UsesNothing self.old self.new }
        ensures told { KeepsTold self.old self.new }
    {
        self.objects.remove_unused_name(p, o);
        self.follow_deaths(p, o);
    }

    // This object goes if nothing keeps it, and its notice if that has nothing left to say. Returns the live owner that is
    // then to be told of it.
    fn remove_unkept(&mut self, o: Identity) -> Option<u64>
        ensures stands { MakesWithin self.old self.new (shed_of (at_object o)) }
        ensures owner { TellsWithin self.old result
            (λ s. owner_due s (object_in (shed_of (at_object o) s).objects o)) }
        ensures uses { UsesNothing self.old self.new }
        ensures told { KeepsTold self.old self.new }
    {
        let owner = self.objects.remove_unused_object(&self.processes, o);
        if owner.is_none() {
            self.calls.withdraw_notice(o);
        }
        owner
    }

    // The owner, if there is one to be told of the object, gets its notice, if that is missing.
    fn tell_owner(&mut self, owner: Option<u64>, o: Identity)
        requires { 1 ≤ work_room self.old.calls }
        ensures stands { (s : Space) → owner ≡ owner_due s (object_in s.objects o) → Within self.old s
            → Within self.new (told_of (o ∷ []) s) }
        ensures uses { Uses self.old self.new 0 0 1 }
        ensures told { KeepsTold self.old self.new }
    {
        if let Some(p) = owner {
            let list = TodoList::OfProcess(p);
            self.calls.add_notice(self.steps, list, o, true);
        }
    }

    // Of these objects those go that nothing keeps, and the notices that have nothing left to say. Returns whether an owner may
    // be to be told of one.
    #[inline(always)]
    fn remove_each_unkept(&mut self, touched: &[Identity]) -> bool
        ensures nobody { result ≡ false → (s : Space) → Within self.old s
            → IsNobodyDue (shed_of (is_among touched.now) s) touched.now }
        ensures stands { MakesWithin self.old self.new (shed_of (is_among touched.now)) }
        ensures uses { UsesNothing self.old self.new }
        ensures told { KeepsTold self.old self.new }
    {
        let mut due = false;
        for o in touched {
            let owner = self.remove_unkept(*o);
            due = is_due(due, owner);
        }
        due
    }

    // The notices that are missing are made on their owners' lists, in this order of the objects.
    fn notify_objects(&mut self, touched: &[Identity])
        requires { length touched.now ≤ work_room self.old.calls }
        ensures stands { MakesWithin self.old self.new (told_of touched.now) }
        ensures uses { Uses self.old self.new 0 0 (length touched.now) }
        ensures told { KeepsTold self.old self.new }
    {
        for o in touched {
            let owner = self.objects.owner_to_tell(&self.processes, *o);
            self.tell_owner(owner, *o);
        }
    }

    // The object is shed, and its owner told of it if it stays.
    fn follow_object(&mut self, o: Identity)
        requires { 1 ≤ work_room self.old.calls }
        ensures stands { MakesWithin self.old self.new (followed_at o) }
        ensures uses { Uses self.old self.new 0 0 1 }
        ensures told { KeepsTold self.old self.new }
    {
        let owner = self.remove_unkept(o);
        self.tell_owner(owner, o);
    }

    /// What follows at these objects, given in the order in which they were made.
    #[inline(always)]
    pub(crate) fn follow_objects(&mut self, touched: &[Identity])
        requires in_order { Pairs NotLater touched.now }
        requires room { length touched.now ≤ work_room self.old.calls }
        ensures stands { MakesOfOrdered self.old self.new (follow_of no_name (is_among touched.now)) }
        ensures uses { Uses self.old self.new 0 0 (length touched.now) }
        ensures told { KeepsTold self.old self.new }
    {
        // Most steps touch one object, which is then looked for once.
        if touched.len() == 1 {
            self.follow_object(touched[0]);
        } else if self.remove_each_unkept(touched) {
            self.notify_objects(touched);
        }
    }

    /// What follows at the process's names of these objects, given in the order in which they were made, and then at the
    /// objects themselves.
    #[inline(always)]
    pub(crate) fn follow_among(&mut self, p: u64, touched: &[Identity])
        requires in_order { Pairs NotLater touched.now }
        requires room { length touched.now ≤ work_room self.old.calls }
        ensures stands { MakesOfOrdered self.old self.new (follow_of (names_among p touched.now) (is_among touched.now)) }
        ensures uses { Uses self.old self.new 0 0 (length touched.now) }
        ensures told { KeepsTold self.old self.new }
    {
        for o in touched {
            self.follow_name(p, *o);
        }
        self.follow_objects(touched);
    }
}
