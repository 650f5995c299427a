//! What C is told of the todo lists that steps have filled or emptied.
ghost use Rattle.std.specs.Prelude.{◌≡◌, false};
ghost use Rattle.bd_c.specs.{Behind.{Of, Over, IsLive, live_of}, Status.{Reports}, Misuse.{IsMisuse}};
ghost use Rattle.bd_c.specs.{SpaceTold.{Finds}, LiveReached.{Asks, list_at, list_told, lists_count}};

use crate::handles::Handle;
use crate::live::OwnedLive;
use crate::status::Status;
use bd_space::TodoList;

/// A todo list that was filled or emptied.
#[repr(C)]
#[derive(Clone, Copy)]
pub struct ListTold {
    /// 0 that of a seat's thread, 1 that of a process, 2 any list at all.
    pub kind: u32,
    /// The seat whose thread's list it is, or the process whose list it is, by the place of its Open; 0 of any list.
    pub number: u64,
}

// Any list at all.
const ANY: ListTold = ListTold { kind: 2, number: 0 };

impl ListTold {
    fn of(list: TodoList) -> ListTold
        ensures { result ≡ list_told list }
    {
        match list {
            TodoList::OfThread(seat) => ListTold {
                kind: 0,
                number: u64::from(seat),
            },
            TodoList::OfProcess(number) => ListTold { kind: 1, number },
        }
    }
}

impl OwnedLive {
    // How many lists are told.
    fn count_lists(&self) -> usize
        ensures { result ≡ lists_count self.now }
    {
        if self.whole { self.reached.len() } else { 1 }
    }

    /// Lists the todo lists that were filled or emptied since this was last called.
    fn ask_reached(&mut self, count: &mut usize) -> Status
        ensures { Asks self.old self.new result count.old count.new }
    {
        match self.bridge.engine.live.tell_reached(&mut self.spare_lists) {
            Ok(whole) => {
                std::mem::swap(&mut self.reached, &mut self.spare_lists);
                self.whole = whole;
                *count = self.count_lists();
                Status::Done
            }
            Err(_) => Status::NoMemory,
        }
    }

    // The list of an index; where the lists aren't all, any list alone.
    fn list_at(&self, index: usize) -> Option<ListTold>
        ensures { result ≡ list_at self.now index }
    {
        if self.whole {
            match self.reached.get(index) {
                Some(list) => Some(ListTold::of(*list)),
                None => None,
            }
        } else if index == 0 {
            Some(ANY)
        } else {
            None
        }
    }

    fn tell_list(&self, index: usize, told: &mut ListTold) -> bool
        ensures { Finds (list_at self.now index) told.old told.new result }
    {
        match self.list_at(index) {
            Some(list) => {
                *told = list;
                true
            }
            None => false,
        }
    }
}

/// Asks which todo lists were filled or emptied since this was last called, and tells how many they are.
#[unsafe(no_mangle)]
pub extern "C" fn hullpippin_live_ask_reached(live: &mut Handle, count: &mut usize) -> u32
    ensures asks { IsLive live.old.held → Reports result (λ s. Over live_of live.old.held live.new.held (λ x y.
        Asks x y s count.old count.new)) }
    ensures misuse { (IsLive live.old.held → ⊥) → IsMisuse result live.old.held live.new.held
        × (count.new ≡ count.old) }
{
    match live.engine() {
        Some(engine) => engine.ask_reached(count).number(),
        None => Status::Misuse.number(),
    }
}

/// The list of an index among those that were found the last time.
#[unsafe(no_mangle)]
pub extern "C" fn hullpippin_live_reached(
    live: &mut Handle,
    index: usize,
    told: &mut ListTold,
) -> bool
    ensures same { live.new.held ≡ live.old.held }
    ensures finds { IsLive live.old.held
        → Of live_of live.old.held (λ x. Finds (list_at x index) told.old told.new result) }
    ensures misuse { (IsLive live.old.held → ⊥) → (result ≡ false) × (told.new ≡ told.old) }
{
    match live.engine() {
        Some(engine) => engine.tell_list(index, told),
        None => false,
    }
}
