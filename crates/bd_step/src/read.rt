//! The step that reads.

ghost use Rattle.std.specs.Prelude.{ℕ, List, ◌≡◌, ◌+◌, ◌-◌, ◌*◌, ◌≤◌, ◌++◌, ◌∷◌, [], map, Some, length, option_map, IfOk, IfSome, OnOk, OnErr, nat_lt};
ghost use Rattle.std.specs.List.{filter_map};
ghost use Rattle.bd_uapi.specs.declared.command.Return.TheVariants.{Noop};
ghost use Rattle.bd_codec.specs.Spelling.{return_bytes};
ghost use Rattle.std.specs.Option.{is_none};
ghost use Rattle.bd_space.specs.{Space.{Space}, Seats.{thread_in}, Words.{first_of}};
ghost use Rattle.bd_space.specs.Todo as todo;
ghost use Rattle.bd_space.specs.ReadItems as spec;
ghost use Rattle.bd_space.specs.declared.step.StepAnswer.TheVariants as gave;
ghost use Rattle.bd_space.specs.Returns as returns;
ghost use Rattle.bd_ways.specs.Tables.{TellsWhere};
ghost use Rattle.bd_buffers.specs.WindowsStand.{made_of_buffer};
ghost use Rattle.bd_objects.specs.Room.{reference_room};
ghost use Rattle.bd_calls.specs.Room.{work_room};
ghost use Rattle.bd_step.specs.Stands.{Before, Within, TellsBefore, TellsWithin, UsesNothing, KeepsTold};
ghost use Rattle.bd_step.specs.declared.answer.Plain as words;
ghost use Rattle.bd_step.specs.{Meets.{Meets, IsBy, IsKept, IsStepWritten}, Plain.{IsGot, answer_of}, Taking.{AreTaken, IsReading}};

use crate::answer::{Brief, Plain, written};
use crate::keep::Keeps;
use crate::step_error::StepError;
use crate::tables::{NOTHING, Tables};
use crate::touched::in_order;
use bd_buffers::Lent;
use bd_objects::Room;
use bd_space::{Actor, Bytes, Identity, StepAnswer, Thread, TodoList, Work, WorkKind};
use bd_todo::hands_out;
use bd_uapi::Fault;
use bd_uapi::codes::BR_NOOP;
use std::alloc::{AllocError, Global};
use std::mem::replace;

// Nothing is read after it.
fn ends_read(kind: WorkKind) -> bool
    ensures { result ≡ spec.ends_read kind }
{
    matches!(
        kind,
        WorkKind::Call(_) | WorkKind::Reply(_) | WorkKind::Death(_)
    )
}

// The buffer that is handed over by reading these.
fn handed_by(works: &[Work]) -> Option<u64>
    ensures { result ≡ first_of (map (λ w. todo.hands_out w.kind) works.now) }
{
    for work in works {
        let buffer = hands_out(work.kind);
        if buffer.is_some() {
            return buffer;
        }
    }
    None
}

fn notice_of(kind: WorkKind) -> Option<Identity>
    ensures { result ≡ todo.notice_of kind }
{
    match kind {
        WorkKind::Notice(o) => Some(o),
        _ => None,
    }
}

// The objects of whose notices these are. Mostly there is none.
fn noticed(alloc: Global, works: &[Work]) -> Result<Vec<Identity>, AllocError>
    ensures { IfOk result (λ os. os.items ≡ filter_map (λ w. todo.notice_of w.kind) works.now) }
{
    let mut objects = Vec::new(alloc);
    for work in works {
        if let Some(o) = notice_of(work.kind) {
            objects.push(o)?;
        }
    }
    Ok(objects)
}

// Where the buffer was made.
fn made_of(buffer: &Option<Lent<'_>>) -> Option<u64>
    ensures { result ≡ option_map made_of_buffer buffer.now }
{
    match buffer {
        Some(b) => Some(b.made()),
        None => None,
    }
}

// The memory of these bytes. None is left in it.
#[inline(always)]
fn take_memory(alloc: Global, bytes: &mut Bytes) -> Vec<u8>
    ensures { result.items ≡ [] }
{
    let mut memory = replace(bytes, Bytes::new(Vec::new(alloc))).into_vec();
    memory.clear();
    memory
}

// Memory for the returns' bytes: that of the answer before, if it has some.
#[inline(always)]
fn take_stream(alloc: Global, answer: &mut StepAnswer) -> Vec<u8>
    ensures { result.items ≡ [] }
{
    match answer {
        StepAnswer::Got { stream, .. } => take_memory(alloc, stream),
        _ => Vec::new(alloc),
    }
}

// Whatever was answered before, what is read can be written there.
#[inline(always)]
fn make_place(alloc: Global, answer: &mut StepAnswer)
    ensures { IsGot answer.new }
{
    match answer {
        StepAnswer::Got { .. } => {}
        _ => put_place(alloc, answer),
    }
}

#[inline(never)]
fn put_place(alloc: Global, answer: &mut StepAnswer)
    ensures { IsGot answer.new }
{
    *answer = StepAnswer::Got {
        stream: Bytes::new(Vec::new(alloc)),
        bytes: Bytes::new(Vec::new(alloc)),
        offsets: Bytes::new(Vec::new(alloc)),
    };
}

// Puts a copy of these bytes there, in the memory that is there. Most offsets are none, and copying none costs as much as copying some.
#[inline(always)]
fn put(alloc: Global, to: &mut Bytes, bytes: &[u8]) -> Result<(), AllocError>
    ensures { OnOk result (to.new ≡ bytes.now) }
{
    let mut copy = take_memory(alloc, to);
    if !bytes.is_empty() {
        copy.extend_from_slice(bytes)?;
    }
    *to = Bytes::new(copy);
    Ok(())
}

// Puts copies there of the data and offsets that are handed over.
#[inline(always)]
fn put_buffer(
    alloc: Global,
    buffer: Option<Lent<'_>>,
    bytes: &mut Bytes,
    offsets: &mut Bytes,
) -> Result<(), AllocError>
    ensures { OnOk result ((stream : List ℕ) → gave.Got stream bytes.new offsets.new ≡ spec.got stream buffer.entry) }
{
    match buffer {
        Some(b) => {
            put(alloc, bytes, b.bytes())?;
            put(alloc, offsets, b.offsets())
        }
        None => {
            put(alloc, bytes, &[])?;
            put(alloc, offsets, &[])
        }
    }
}

// Writes the answer of a read, in the memory of the answer before: the returns' bytes, and copies of what is handed over.
#[inline(always)]
fn write_got(
    alloc: Global,
    buffer: Option<Lent<'_>>,
    returns: Vec<u8>,
    answer: &mut StepAnswer,
) -> Result<(), AllocError>
    ensures answer { OnOk result (answer.new ≡ spec.got returns.items buffer.entry) }
    ensures got { OnOk result (IsGot answer.new) }
{
    make_place(alloc, answer);
    let StepAnswer::Got {
        stream,
        bytes,
        offsets,
    } = answer
    else {
        unreachable!()
    };
    *stream = Bytes::new(returns);
    put_buffer(alloc, buffer, bytes, offsets)
}

// What a reading of one work item mostly has: the Noop and the longest return.
const LONGEST_OF_ONE: usize = 4 + 68;

// The bytes of a reading to which nothing is taken yet.
#[inline(always)]
fn begin(stream: &mut Vec<u8>) -> Result<(), AllocError>
    requires { stream.old.items ≡ [] }
    ensures { OnOk result (stream.new.items ≡ return_bytes Noop) }
{
    stream.reserve(LONGEST_OF_ONE)?;
    stream.extend_from_slice(&BR_NOOP.to_le_bytes())
}

// Fewer bytes are left than the longest return has.
fn is_full(stream: &Vec<u8>, limit: u32) -> bool
    ensures { result ≡ nat_lt (limit - length stream.now.items) 68 }
{
    (limit as usize).saturating_sub(stream.len()) < 68
}

impl Tables {
    // The list that a live thread reads, if anything is on it.
    fn list_to_read(&self, thread: &Thread) -> Option<TodoList>
        ensures some { IfSome result
            (λ list. (s : Space) → Before self.now s
            → todo.list_to_read s thread.now ≡ todo.work_on s.todo (Some list)) }
        ensures none { TellsWhere (Before self.now) (λ s. thread_in s.threads thread.now.seat ≡ Some thread.now)
            (is_none result) (λ s. spec.none_due (todo.list_to_read s thread.now)) }
    {
        match self.calls.reads(thread) {
            // A thread reads its own list where something is there.
            Some(TodoList::OfThread(seat)) => Some(TodoList::OfThread(seat)),
            // What is kept of the seat tells that of its process's list: it isn't looked up for it.
            Some(list) if self.calls.is_ready(thread.seat) => Some(list),
            _ => None,
        }
    }

    // One work item more is taken.
    fn select_one(
        &self,
        work: Work,
        works: &mut Vec<Work>,
        stream: &mut Vec<u8>,
    ) -> Result<(), AllocError>
        ensures works { OnOk result (works.new.items ≡ works.old.items ++ work ∷ []) }
        ensures stream { OnOk result
            (TellsBefore self.now stream.new.items (λ s. stream.old.items ++ returns.bytes_read s work)) }
    {
        works.push(work)?;
        self.append_work(work.kind, stream)
    }

    // What a read takes off a list: item after item, while at least 68 bytes are left and none ends the read. They are put where
    // the reader keeps them: a work item is long, and isn't moved twice.
    fn select(
        &self,
        list: TodoList,
        limit: u32,
        works: &mut Vec<Work>,
        stream: &mut Vec<u8>,
    ) -> Result<(), AllocError>
        requires none { works.old.items ≡ [] }
        requires begun { stream.old.items ≡ return_bytes Noop }
        ensures { OnOk result
            ((s : Space) → Before self.now s
            → AreTaken s limit (todo.work_on s.todo (Some list)) works.new.items stream.new.items) }
    {
        for work in self.calls.works_on(list) {
            if is_full(stream, limit) {
                return Ok(());
            }
            self.select_one(work, works, stream)?;
            if ends_read(work.kind) {
                return Ok(());
            }
        }
        Ok(())
    }

    // The buffer that is handed over by reading these.
    #[inline(always)]
    fn buffer_taken(&self, works: &[Work]) -> Option<Lent<'_>>
        ensures { TellsWithin self.now result (λ s. spec.buffer_taken s works.now) }
    {
        match handed_by(works) {
            Some(made) => self.windows.buffer(made),
            None => None,
        }
    }

    // Makes room for the reading of so many work items, and for what follows at so many objects.
    fn reserve_read(&mut self, works: usize, touched: usize) -> Result<(), AllocError>
        ensures stands { IsKept self.old self.new }
        ensures references { OnOk result (2 * works ≤ reference_room self.new.objects) }
        ensures works { OnOk result (touched ≤ work_room self.new.calls) }
        ensures told { KeepsTold self.old self.new }
    {
        let references = works.checked_mul(2).ok_or(AllocError)?;
        self.reserve(
            Room {
                references,
                ..NOTHING
            },
            touched,
        )
    }

    // The thread of a seat has read these work items, by which the buffer made there is handed over.
    #[inline(always)]
    fn read_by(&mut self, seat: u32, works: &[Work], made: Option<u64>)
        requires { 2 * length works.now ≤ reference_room self.old.objects }
        ensures stands { (s : Space) → Within self.old s → made ≡ option_map made_of_buffer (spec.buffer_taken s works.now)
            → Within self.new (spec.read_by s seat works.now) }
        ensures uses { UsesNothing self.old self.new }
        ensures told { KeepsTold self.old self.new }
    {
        self.objects.read_by(self.steps, works);
        self.calls.read_by(seat, works);
        self.windows.hand_out(made);
    }

    // A thread reads the list that is its to read. The answer is kept before anything changes.
    fn read_list<K: Keeps>(
        &mut self,
        thread: &Thread,
        list: TodoList,
        limit: u32,
        answer: &mut StepAnswer,
        keep: &mut K,
    ) -> Result<(), AllocError>
        ensures ok { OnOk result
            (Meets self.old self.new (IsReading thread.now list)
            (λ s. spec.read_taking s thread.now.seat (spec.taken s (limit - 4) (todo.work_on s.todo (Some list))))
            answer.new) }
        ensures got { OnOk result (IsGot answer.new) }
        ensures kept { OnOk result (K.kept keep.new answer.new) }
        ensures rest { K.rest keep.new ≡ K.rest keep.old }
        ensures err { OnErr result (IsKept self.old self.new) }
        ensures told { KeepsTold self.old self.new }
    {
        let mut works = self.take_works();
        let mut stream = take_stream(self.alloc, answer);
        begin(&mut stream)?;
        self.select(list, limit, &mut works, &mut stream)?;
        let buffer = self.buffer_taken(works.as_slice());
        let made = made_of(&buffer);
        write_got(self.alloc, buffer, stream, answer)?;
        keep.keep(answer)?;
        let touched = in_order(noticed(self.alloc, works.as_slice())?);
        self.reserve_read(works.len(), touched.len())?;
        self.read_by(thread.seat, works.as_slice(), made);
        self.follow_objects(touched.as_slice());
        self.keep_works(works);
        Ok(())
    }

    /// The step that reads.
    pub(crate) fn read<K: Keeps>(
        &mut self,
        actor: Actor,
        limit: u32,
        answer: &mut StepAnswer,
        keep: &mut K,
    ) -> Result<Brief, StepError>
        requires { (x : words.Plain) → K.kept keep.old (answer_of x) }
        ensures step { IsStepWritten self.old self.new (K.kept keep.new) (IsBy actor) (λ s. spec.read_step s actor limit)
            answer.new result }
        ensures rest { K.rest keep.new ≡ K.rest keep.old }
        ensures told { KeepsTold self.old self.new }
    {
        if limit < 72 {
            return written(Ok(Plain::Refused(Fault::ReadTooSmall)), answer);
        }
        let Some(list) = self.list_to_read(&actor.thread) else {
            return written(Ok(Plain::Refused(Fault::Again)), answer);
        };
        match self.read_list(&actor.thread, list, limit, answer, keep) {
            Ok(()) => Ok(Brief::Got),
            Err(AllocError) => Err(StepError::NoMemory),
        }
    }
}
