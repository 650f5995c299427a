//! One-way calls: of one object's, one is due or handed out at a time, in the order in which they were made.
#![tactic(auto, unfolding(bd_space::specs::Turns::ripen, bd_ways::specs::Local::ripen_of, crate::specs::Room::rooms, crate::specs::Told::Recalls, crate::specs::Told::HasRoomToTell))]

ghost use Rattle.std.specs.Prelude.{List, ◌≡◌, ◌==◌, ◌&&◌, ◌+◌, ◌<◌, ◌≤◌, ◌++◌, false, not, All, map, filter, Option, Some};
ghost use Rattle.std.specs.{Option.{option_to_list}, List.{list_any}};
ghost use Rattle.bd_space.specs.Words.{first_of, is_some_and};
ghost use Rattle.bd_space.specs.Todo as works;
ghost use Rattle.bd_space.specs.ThreadExits as exits;
ghost use Rattle.bd_space.specs.Turns as spec;
ghost use Rattle.bd_ways.specs.Local as local;
ghost use Rattle.bd_space.specs.declared.space.Work as declared;
ghost use Rattle.bd_space.specs.declared.space.Turn as one_way;
ghost use Rattle.bd_todo.specs.Stands as todo_table;
ghost use Rattle.bd_turns.specs.Stands as turn_table;
ghost use Rattle.bd_turns.specs.Room as turn_rooms;
ghost use Rattle.bd_calls.specs.Turn.{handed_turns};

use crate::table::CallTable;
use bd_space::{Identity, TodoList, Turn, Work, WorkKind};
use bd_todo::{WorkTable, hands_out};
use bd_turns::TurnTable;

// Whether nobody was told of it yet.
fn is_untold(todo: &WorkTable, turn: Turn) -> bool
    ensures { todo_table.Tells todo.now result
        (λ l. not turn.handed && not (list_any (λ w. works.is_call turn.made w.kind) l)) }
{
    !turn.handed && !todo.has_call(turn.made)
}

// It was made where none of the others was.
fn push_turn(turns: &mut TurnTable, turn: Option<Turn>)
    requires { 1 ≤ turn_rooms.turn_room turns.old }
    ensures turns { (l : List one_way.Turn) → is_some_and turn (λ t. list_any (λ u. u.made == t.made) l) ≡ false
        → turn_table.TurnsAre turns.old l → turn_table.TurnsAre turns.new (l ++ option_to_list turn) }
    ensures uses { turn_rooms.Uses turns.old turns.new 1 }
{
    if let Some(turn) = turn {
        turns.push(turn);
    }
}

// The buffer that is handed over by reading these.
fn handed_by(taken: &[Work]) -> Option<u64>
    ensures { result ≡ first_of (map (λ w. works.hands_out w.kind) taken.now) }
{
    for work in taken {
        let buffer = hands_out(work.kind);
        if buffer.is_some() {
            return buffer;
        }
    }
    None
}

pub(crate) fn hand_out_taken(turns: &mut TurnTable, taken: &[Work])
    ensures turns { turn_table.Makes turns.old turns.new
        (λ l. handed_turns (first_of (map (λ w. works.hands_out w.kind) taken.now)) l) }
    ensures uses { turn_rooms.Uses turns.old turns.new 0 }
{
    if let Some(made) = handed_by(taken) {
        turns.hand_out(made);
    }
}

pub(crate) fn remove_turns_on(turns: &mut TurnTable, todo: &WorkTable, list: TodoList)
    ensures turns { (works : List declared.Work) → todo_table.WorksAre todo.now works → turn_table.Makes turns.old turns.new
        (λ l. filter (λ t. not (exits.is_lost_with works list t.made)) l) }
    ensures uses { turn_rooms.Uses turns.old turns.new 0 }
{
    for work in todo.works_on(list) {
        if let Some(made) = hands_out(work.kind) {
            turns.remove(made);
        }
    }
}

impl CallTable {
    ghost use Rattle.bd_space.specs.{declared.space.Buffer.{Buffer}, Space.{Space}, Delivery.{add_buffer}};
    ghost use Rattle.bd_space.specs.Freeing.{without_buffer};
    ghost use Rattle.bd_ways.specs.Tables.{Makes, MakesAt};
    ghost use Rattle.bd_calls.specs.Stands.{StandsFor};
    ghost use Rattle.bd_calls.specs.{Told.{KeepsTold, ReachesFew}, Room.{Uses, UsesNothing, nothing, turn_room, work_room}};

    /// The one-way call of a new buffer comes in, if it is one.
    #[inline(always)]
    pub fn add_turn(&mut self, turn: Option<Turn>)
        requires { 1 ≤ turn_room self.old }
        ensures stands { (s : Space) (b : Buffer) → StandsFor self.old s → turn ≡ spec.turn_of b
            → All (λ c. c.made < b.made) s.buffers → StandsFor self.new (add_buffer s b) }
        ensures uses { Uses self.old self.new (record nothing { turns = 1 }) }
        ensures told { KeepsTold self.old self.new }
        ensures few { ReachesFew 0 self.old self.new }
    {
        self.sure_room = self.sure_room.saturating_sub(1);
        push_turn(&mut self.turns, turn);
    }

    /// The one-way call of a freed buffer goes, if it is one.
    pub fn remove_turn(&mut self, made: u64)
        ensures stands { Makes (StandsFor self.old) (StandsFor self.new) (λ s. without_buffer s made) }
        ensures uses { UsesNothing self.old self.new }
        ensures told { KeepsTold self.old self.new }
        ensures few { ReachesFew 0 self.old self.new }
    {
        self.turns.remove(made);
    }

    /// The oldest one-way call on an object becomes due, made at this place, unless somebody was told of it before.
    #[inline(always)]
    pub fn ripen_on(&mut self, place: u64, object: Identity)
        requires { 1 ≤ work_room self.old }
        ensures stands { MakesAt place (StandsFor self.old) (StandsFor self.new) (local.ripen_of object) }
        ensures uses { Uses self.old self.new (record nothing { works = 1 }) }
        ensures told { KeepsTold self.old self.new }
        ensures few { ReachesFew 1 self.old self.new }
    {
        if let Some(turn) = self.turns.oldest_on(object) {
            if is_untold(&self.todo, turn) {
                let list = TodoList::OfProcess(turn.receiver);
                self.owe(place, list, WorkKind::Call(turn.made));
            }
        }
    }
}
