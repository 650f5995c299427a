//! What the threads of a process have sent, as C has it told.
ghost use Rattle.std.specs.{Prelude.{◌≡◌, Some, None, IfOk, IfErr, MatchOption, length}, Borrow.{sem}};
ghost use Rattle.bd_sendings.specs.contracts.sendings.Sendings.{the_row as sendings_row};
ghost use Rattle.bd_c.specs.declared.held.Held.TheVariants.{Sendings as held_sendings};
ghost use Rattle.bd_c.specs.declared.status.Status.TheVariants.{NoMemory};
ghost use Rattle.bd_c.specs.{Behind.{Of, IsSendings, sendings_of}, Lending.{LendsAs}};
ghost use Rattle.bd_c.specs.Sendings.{sending_given, KnowsNothing, NotesParcel, EndsThread, TellsSender, TellsSenderFor};

use crate::handles::Handle;
use crate::held::Held;
use crate::opening::boxed;
use crate::status::Status;
use bd_sendings::{Sending, Sendings};
use std::alloc::Global;

/// A call or reply that was taken.
#[repr(C)]
#[derive(Clone, Copy)]
pub struct SendingInC {
    /// The place of its step.
    pub step: u64,
    /// The thread that sends it.
    pub sender: u32,
    /// The process that it goes to. 0: it isn't known.
    pub receiver: u32,
    /// How often that one has let go of buffers with objects.
    pub let_go: u32,
}

impl SendingInC {
    fn given(&self) -> Sending
        ensures { result ≡ sending_given self.now }
    {
        Sending {
            sender: self.sender,
            step: self.step,
            receiver: self.receiver,
            let_go: self.let_go,
        }
    }
}

impl Handle {
    /// What threads have sent that is behind the handle, if it is for such.
    pub(crate) fn sendings(&mut self) -> Option<&mut Sendings>
        ensures* lends { sem 𝓛 (LendsAs sendings_row held_sendings self.entry result) }
        ensures sendings { MatchOption result (IsSendings self.old.held → ⊥) (λ r. self.old.held ≡ Some (held_sendings r.now)) }
    {
        match self.held()? {
            Held::Sendings(sendings) => Some(sendings),
            _ => None,
        }
    }
}

/// Nothing that was sent, in a box.
pub(crate) fn open_sendings(alloc: Global) -> Result<Box<Held>, Status>
    ensures ok { IfOk result (λ b. Of sendings_of (Some b.value) KnowsNothing) }
    ensures refused { IfErr result (λ s. s ≡ NoMemory) }
{
    match Sendings::new(alloc) {
        Ok(sendings) => boxed(alloc, Held::Sendings(sendings)),
        Err(_) => Err(Status::NoMemory),
    }
}

/// A parcel's objects are sent.
pub(crate) fn note_parcel(
    sendings: &mut Sendings,
    sending: &SendingInC,
    body: &[u8],
    offsets: &[u8],
)
    ensures { NotesParcel sendings.old sendings.new (sending_given sending.now) body.now offsets.now }
{
    let sending = sending.given();
    sendings.note(&sending, body, offsets);
}

/// Forgets what a thread has sent: whether nothing is left.
pub(crate) fn end_thread(sendings: &mut Sendings, thread: u32) -> bool
    ensures { EndsThread sendings.old sendings.new thread result }
{
    sendings.end(thread);
    sendings.count() == 0
}

/// Tells who has sent the object at a place, of which that thread is told.
pub(crate) fn tell_sender(sendings: &Sendings, thread: u32, index: usize, sender: &mut u32) -> bool
    ensures { TellsSenderFor sendings.now thread index sender.old sender.new result }
{
    match sendings.sender_for(thread, index) {
        Some(found) => {
            *sender = found;
            true
        }
        None => false,
    }
}
