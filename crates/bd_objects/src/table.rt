//! The table, and its memory.

ghost use Rattle.std.specs.Prelude.{◌≡◌, ◌≤◌, true, OnOk, OnErr};
ghost use Rattle.bd_records.specs.{Records.{new_room, reference_room}, Since.{given_room}};
ghost use Rattle.bd_deaths.specs.Room.{death_room};

use crate::room::Room;
use bd_deaths::DeathTable;
use bd_records::Records;
use std::alloc::{AllocError, Global};

// Room is made for so many of each at once, so that most steps find it there.
const AHEAD: usize = 32;

/// The objects of a space, with the references to them, their names and the death notifications on them.
#[derive(Drop)]
pub struct ObjectTable {
    pub(crate) records: Records,
    pub(crate) deaths: DeathTable,
    // All but the names surely have room for so many more: what comes in lowers it, and only `reserve` raises it.
    pub(crate) sure_room: usize,
    // The same of this process's names.
    pub(crate) sure_names: usize,
    pub(crate) named: u64,
    ghost objects_fit: { sure_room ≤ new_room records },
    ghost references_fit: { sure_room ≤ reference_room records },
    ghost names_fit: { sure_names ≤ given_room records named },
    ghost deaths_fit: { sure_room ≤ death_room deaths },
}

impl ObjectTable {
    ghost use Rattle.bd_space.specs.Space.{opening};
    ghost use Rattle.bd_objects.specs.{Stands.{StandsFor, IsKept}, Room.{UsesNothing, HasRoom, object_room, reference_room as reference_room_of, name_room as name_room_of, death_room as death_room_of}, Within.{IsWithin}};

    /// An empty table.
    pub fn new(alloc: Global) -> ObjectTable
        ensures { StandsFor result opening }
    {
        ObjectTable {
            records: Records::new(alloc),
            deaths: DeathTable::new(alloc),
            sure_room: 0,
            sure_names: 0,
            named: 0,
        }
    }

    // Makes so much room in each list but the names.
    #[tactic(auto, unfolding(crate::specs::Room::rooms))]
    fn reserve_lists(
        &mut self,
        objects: usize,
        references: usize,
        deaths: usize,
    ) -> Result<(), AllocError>
        ensures stands { IsKept self.old self.new }
        ensures uses { UsesNothing self.old self.new }
        ensures objects { OnOk result (objects ≤ object_room self.new) }
        ensures references { OnOk result (references ≤ reference_room_of self.new) }
        ensures deaths { OnOk result (deaths ≤ death_room_of self.new) }
        ensures grown { OnErr result (objects ≤ object_room self.old → references ≤ reference_room_of self.old
            → deaths ≤ death_room_of self.old → ⊥) }
    {
        self.records.reserve_objects(objects)?;
        self.records.reserve(references)?;
        self.deaths.reserve(deaths)
    }

    // Makes more room than this, the same in each list but the names: whether it is there now.
    #[tactic(auto, unfolding(crate::specs::Room::rooms))]
    fn reserve_ahead(&mut self, room: Room) -> bool
        ensures stands { IsKept self.old self.new }
        ensures uses { UsesNothing self.old self.new }
        ensures sure { result ≡ true → IsWithin room self.new.sure_room }
    {
        if !room.is_within(AHEAD) || self.reserve_lists(AHEAD, AHEAD, AHEAD).is_err() {
            return false;
        }
        self.sure_room = AHEAD;
        true
    }

    // Makes more room than this for names of the process: whether it is there now.
    #[tactic(auto, unfolding(crate::specs::Room::rooms))]
    fn reserve_names_ahead(&mut self, p: u64, names: usize) -> bool
        ensures stands { IsKept self.old self.new }
        ensures uses { UsesNothing self.old self.new }
        ensures sure { result ≡ true → names ≤ name_room_of self.new p }
    {
        if names > AHEAD || self.records.reserve_names(p, AHEAD).is_err() {
            return false;
        }
        self.sure_names = AHEAD;
        self.named = p;
        true
    }

    // Makes room for so many names of the process.
    #[tactic(auto, unfolding(crate::specs::Room::rooms))]
    fn reserve_names(&mut self, p: u64, names: usize) -> Result<(), AllocError>
        ensures stands { IsKept self.old self.new }
        ensures uses { UsesNothing self.old self.new }
        ensures room { OnOk result (names ≤ name_room_of self.new p) }
        ensures grown { OnErr result (names ≤ name_room_of self.old p → ⊥) }
    {
        let sure = p == self.named && names <= self.sure_names;
        if names == 0 || sure || self.reserve_names_ahead(p, names) {
            return Ok(());
        }
        self.records.reserve_names(p, names)
    }

    // Makes this room but for the names.
    #[tactic(auto, unfolding(crate::specs::Room::rooms))]
    fn reserve_beside_names(&mut self, room: Room) -> Result<(), AllocError>
        ensures stands { IsKept self.old self.new }
        ensures uses { UsesNothing self.old self.new }
        ensures objects { OnOk result (room.objects ≤ object_room self.new) }
        ensures references { OnOk result (room.references ≤ reference_room_of self.new) }
        ensures deaths { OnOk result (room.deaths ≤ death_room_of self.new) }
        ensures grown { OnErr result (HasRoom self.old room → ⊥) }
    {
        if room.is_within(self.sure_room) || self.reserve_ahead(room) {
            return Ok(());
        }
        self.reserve_lists(room.objects, room.references, room.deaths)
    }

    // Makes this room where it may not be there.
    #[inline(never)]
    #[tactic(auto, unfolding(crate::specs::Room::rooms))]
    fn reserve_more(&mut self, room: Room) -> Result<(), AllocError>
        ensures stands { IsKept self.old self.new }
        ensures uses { UsesNothing self.old self.new }
        ensures room { OnOk result (HasRoom self.new room) }
        ensures grown { OnErr result (HasRoom self.old room → ⊥) }
    {
        self.reserve_beside_names(room)?;
        self.reserve_names(room.process, room.names)
    }

    // Whether this room surely is there.
    #[inline(always)]
    #[tactic(auto, unfolding(crate::specs::Room::rooms))]
    fn has_room(&self, room: Room) -> bool
        ensures { result ≡ true → HasRoom self.now room }
    {
        let named = room.process == self.named && room.names <= self.sure_names;
        room.is_within(self.sure_room) && (room.names == 0 || named)
    }

    /// Makes this room. Changes nothing else.
    #[inline(always)]
    #[tactic(auto, unfolding(crate::specs::Room::rooms))]
    pub fn reserve(&mut self, room: Room) -> Result<(), AllocError>
        ensures stands { IsKept self.old self.new }
        ensures uses { UsesNothing self.old self.new }
        ensures room { OnOk result (HasRoom self.new room) }
        // Memory was asked for: there was no room.
        ensures grown { OnErr result (HasRoom self.old room → ⊥) }
    {
        // Put into its callers: most ask for none, and others for what is there.
        if self.has_room(room) {
            return Ok(());
        }
        self.reserve_more(room)
    }
}
