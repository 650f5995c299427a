//! What a process asks for itself: `BC_INCREFS`, `BC_ACQUIRE`, `BC_RELEASE`, `BC_DECREFS`, and its acknowledgements.

ghost use Rattle.std.specs.Prelude.{◌==◌, ◌≤◌, ◌∷◌, [], if◌then◌else◌, Option, Result, OnOk, OnErr};
ghost use Rattle.bd_keys.specs.Tables as tables;
ghost use Rattle.bd_space.specs.Words.{first_of};
ghost use Rattle.bd_space.specs.Asking as asking;
ghost use Rattle.bd_space.specs.{Names.{named_in as named_in_list}};
ghost use Rattle.bd_records.specs.NamesAre.{NamesAre};

use crate::naming::give_asked_name;
use crate::table::ObjectTable;
use bd_records::{NumbersFull, Records, named_object};
use bd_space::{Holder, Identity, Object, Origin, Reference};
use bd_uapi::Note;

/// The object that the process means by the number: 0 is the context manager's while there is one.
fn asked_in(manager: Option<Identity>, records: &Records, p: u64, n: u32) -> Option<Identity>
    ensures { tables.Tells (NamesAre records.now.names) result
        (λ l. if n == 0 then first_of (manager ∷ named_in_list l p 0 ∷ []) else named_in_list l p n) }
{
    match manager {
        Some(o) if n == 0 => Some(o),
        _ => named_object(&records.names, p, n),
    }
}

impl ObjectTable {
    ghost use Rattle.bd_ways.specs.Tables.{Tells, Makes, TellsWhere, MakesWhere};
    ghost use Rattle.bd_objects.specs.{Stands.{StandsFor, IsKept, HasManager, IsAtWith}, New.{IsAsked}, Numbers.{SpaceIsPastLimit}};
    ghost use Rattle.bd_objects.specs.Room.{Uses, UsesNothing, nothing, reference_room, name_room};

    /// The object that the process asks for by this number, weakly or strongly. Errors, the first that holds: no such
    /// number, nobody refers to it strongly, it is the process's own.
    #[tactic(auto, unfolding(bd_space::specs::Asking::ask_check, bd_space::specs::Names::named))]
    pub fn ask_check(
        &self,
        manager: Option<Identity>,
        p: u64,
        n: u32,
        strong: bool,
    ) -> Result<Identity, Note>
        ensures { TellsWhere (StandsFor self.now) (HasManager manager) result (λ s. asking.ask_check s p n strong) }
    {
        let o = asked_in(manager, &self.records, p, n).ok_or(Note::NoSuchNumber)?;
        if strong && !self.records.hold(o).is_strong {
            return Err(Note::NotStrong);
        }
        if self.records.owns(p, o) {
            return Err(Note::OwnManager);
        }
        Ok(o)
    }

    /// The reference that the process asks for, with a name for the object if it has none. All of it, or nothing where
    /// a number past the limit would be needed. Takes the context manager's object, and the number by which the process asked:
    /// whichever that is, the same is done, but sooner where it is the object's. Of a space in which the object is there, and
    /// another's.
    #[tactic(auto, unfolding(bd_space::specs::Asking::ask, bd_space::specs::Names::assign_numbers, bd_space::specs::Names::names_go, crate::specs::Room::rooms))]
    pub fn ask(
        &mut self,
        place: u64,
        manager: Option<Identity>,
        p: u64,
        n: u32,
        o: Identity,
        strong: bool,
    ) -> Result<(), NumbersFull>
        requires references { 1 ≤ reference_room self.old }
        requires names { 1 ≤ name_room self.old p }
        ensures ok { OnOk result (MakesWhere (StandsFor self.old) (IsAsked place manager p o) (StandsFor self.new)
            (λ s. asking.ask s p o strong)) }
        ensures err { OnErr result (IsKept self.old self.new) }
        ensures full { OnErr result (MakesWhere (StandsFor self.old) (IsAtWith place manager) SpaceIsPastLimit
            (λ s. asking.ask s p o strong)) }
        ensures uses { Uses self.old self.new (record nothing { references = 1; names = 1 }) }
    {
        self.sure_room = self.sure_room.saturating_sub(1);
        self.sure_names = self.sure_names.saturating_sub(1);
        give_asked_name(&mut self.records, manager, p, n, o)?;
        self.records.push(Reference {
            id: Origin { place, index: 0 },
            object: o,
            strong,
            holder: Holder::Asked(p),
        });
        Ok(())
    }

    /// The object of which the process drops a reference of this strength. Errors: no such number, or it asked for
    /// none.
    #[tactic(auto, unfolding(bd_space::specs::Asking::drop_check, bd_space::specs::Names::named))]
    pub fn drop_check(&self, p: u64, n: u32, strong: bool) -> Result<Identity, Note>
        ensures { Tells (StandsFor self.now) result (λ s. asking.drop_check s p n strong) }
    {
        let o = named_object(&self.records.names, p, n).ok_or(Note::NoSuchNumber)?;
        if !self.records.is_asked(p, o, strong) {
            return Err(Note::NothingAsked);
        }
        Ok(o)
    }

    /// The least reference of this strength goes that the process asked for.
    #[tactic(auto, unfolding(bd_space::specs::Asking::drop_asked, crate::specs::Room::rooms))]
    pub fn drop_asked(&mut self, p: u64, o: Identity, strong: bool)
        ensures stands { Makes (StandsFor self.old) (StandsFor self.new) (λ s. asking.drop_asked s p o strong) }
        ensures uses { UsesNothing self.old self.new }
    {
        self.records.drop_asked(p, o, strong);
    }

    /// The own object that the process acknowledges, by ptr and cookie. Errors: it has no such object, or that waits
    /// for no acknowledgement of this strength.
    #[tactic(auto, unfolding(bd_space::specs::Asking::done_check))]
    pub fn done_check(&self, p: u64, ptr: u64, cookie: u64, strong: bool) -> Result<Object, Note>
        ensures { Tells (StandsFor self.now) result (λ s. asking.done_check s p ptr cookie strong) }
    {
        let x = self
            .records
            .own_with(p, ptr, cookie)
            .ok_or(Note::NoSuchObject)?;
        if !self.records.is_shaken(x.id, strong) {
            return Err(Note::NoHandshake);
        }
        Ok(x)
    }

    /// The reference goes that stood for the acknowledgement.
    #[tactic(auto, unfolding(bd_space::specs::Asking::acknowledge, crate::specs::Room::rooms))]
    pub fn acknowledge(&mut self, o: Identity, strong: bool)
        ensures stands { Makes (StandsFor self.old) (StandsFor self.new) (λ s. asking.acknowledge s o strong) }
        ensures uses { UsesNothing self.old self.new }
    {
        self.records.drop_shaken(o, strong);
    }
}
