//! What C calls of a live engine: one handle, with which all seats' steps are made.
ghost use Rattle.std.specs.Prelude.{◌≡◌, [], None};
ghost use Rattle.bd_space.specs.Histories.{history_of};
ghost use Rattle.bd_engine.specs.Begun.{refusals};
ghost use Rattle.bd_space.specs.declared.step.Step.TheVariants.{Open, Attach, SetManager, SetSpam, Read, ExitThread, ExitProcess};
ghost use Rattle.bd_c.specs.{Status.{Reports}, Misuse.{IsMisuse}, Behind.{IsThere, IsLive}, Flags.{ByFlag}, Lives.{LiveOpensAt, StepsAt}};
ghost use Rattle.bd_c.specs.LiveCommands.{Commands};

use crate::answers::Told;
use crate::handles::Handle;
use crate::live_commands::command_of;
use crate::lives::{open_live, open_live_at};
use crate::opening::put_made;
use crate::requests::flag_of;
use crate::status::Status;
use bd_space::Step;
use std::alloc::Global;

/// Makes a live engine for so many seats, 1 to 65536. The handle has to have nothing.
#[tactic(auto, using(crate::proofs::Behind::none_there))]
#[unsafe(no_mangle)]
pub extern "C" fn hullpippin_live_new(alloc: Global, seats: u32, live: &mut Handle) -> u32
    ensures begins { live.old.held ≡ None → Reports result (LiveOpensAt (history_of seats []) 0 live.new.held) }
    ensures misuse { IsThere live.old.held → IsMisuse result live.old.held live.new.held }
{
    if live.is_there() {
        return Status::Misuse.number();
    }
    put_made(live, open_live(alloc, seats, 0))
}

/// Makes one that is as after so many refused steps, for tests of what is far behind the first: hullpippin.h hasn't got it.
#[tactic(auto, using(crate::proofs::Behind::none_there))]
#[unsafe(no_mangle)]
pub extern "C" fn hullpippin_live_begun_at(
    alloc: Global,
    seats: u32,
    steps: u64,
    live: &mut Handle,
) -> u32
    ensures begins { live.old.held ≡ None → Reports result (LiveOpensAt (refusals seats steps) 0 live.new.held) }
    ensures misuse { IsThere live.old.held → IsMisuse result live.old.held live.new.held }
{
    if live.is_there() {
        return Status::Misuse.number();
    }
    put_made(live, open_live_at(alloc, seats, steps, 0))
}

// Makes a step.
fn make(live: &mut Handle, seat: u32, step: Step, told: &mut Told) -> u32
    ensures steps { IsLive live.old.held → Reports result (StepsAt live.old.held live.new.held seat step told.old told.new) }
    ensures misuse { (IsLive live.old.held → ⊥) → IsMisuse result live.old.held live.new.held × (told.new ≡ told.old) }
{
    match live.engine() {
        Some(engine) => engine.step(seat, step, told).number(),
        None => Status::Misuse.number(),
    }
}

/// Opens a process with one thread, the seat's.
#[unsafe(no_mangle)]
pub extern "C" fn hullpippin_live_open(
    live: &mut Handle,
    seat: u32,
    pid: u32,
    euid: u32,
    window: u32,
    told: &mut Told,
) -> u32
    ensures steps { IsLive live.old.held → Reports result (StepsAt live.old.held live.new.held seat (Open pid euid window) told.old told.new) }
    ensures misuse { (IsLive live.old.held → ⊥) → IsMisuse result live.old.held live.new.held × (told.new ≡ told.old) }
{
    make(live, seat, Step::Open { pid, euid, window }, told)
}

/// Makes the seat a further thread of a live process.
#[unsafe(no_mangle)]
pub extern "C" fn hullpippin_live_attach(
    live: &mut Handle,
    seat: u32,
    pid: u32,
    told: &mut Told,
) -> u32
    ensures steps { IsLive live.old.held → Reports result (StepsAt live.old.held live.new.held seat (Attach pid) told.old told.new) }
    ensures misuse { (IsLive live.old.held → ⊥) → IsMisuse result live.old.held live.new.held × (told.new ≡ told.old) }
{
    make(live, seat, Step::Attach { pid }, told)
}

/// Makes the seat's process the context manager.
#[unsafe(no_mangle)]
pub extern "C" fn hullpippin_live_manager(live: &mut Handle, seat: u32, told: &mut Told) -> u32
    ensures steps { IsLive live.old.held → Reports result (StepsAt live.old.held live.new.held seat SetManager told.old told.new) }
    ensures misuse { (IsLive live.old.held → ⊥) → IsMisuse result live.old.held live.new.held × (told.new ≡ told.old) }
{
    make(live, seat, Step::SetManager, told)
}

/// Has the seat's process told of its own one-way flooding where it is 1, and no longer where it is 0.
#[tactic(auto, using(crate::proofs::Answering::flag_refused, crate::proofs::Answering::flag_steps))]
#[unsafe(no_mangle)]
pub extern "C" fn hullpippin_live_set_spam(
    live: &mut Handle,
    seat: u32,
    on: u32,
    told: &mut Told,
) -> u32
    ensures steps { IsLive live.old.held → Reports result (ByFlag on (λ on. StepsAt live.old.held live.new.held seat (SetSpam on))
        live.old.held live.new.held told.old told.new) }
    ensures misuse { (IsLive live.old.held → ⊥) → IsMisuse result live.old.held live.new.held × (told.new ≡ told.old) }
{
    let Some(engine) = live.engine() else {
        return Status::Misuse.number();
    };
    match flag_of(on) {
        Ok(on) => engine.step(seat, Step::SetSpam { on }, told).number(),
        Err(status) => status.number(),
    }
}

/// Runs one command of the seat. What is given as its parcel is looked at with a transaction or reply alone.
#[tactic(auto, using(crate::proofs::Answering::no_command, crate::proofs::Answering::commands))]
#[unsafe(no_mangle)]
pub extern "C" fn hullpippin_live_command(
    alloc: Global,
    live: &mut Handle,
    seat: u32,
    command: &[u8],
    bytes: &[u8],
    offsets: &[u8],
    told: &mut Told,
) -> u32
    ensures commands { IsLive live.old.held → Reports result (λ s.
        Commands live.old.held live.new.held seat command.now bytes.now offsets.now s told.old told.new) }
    ensures misuse { (IsLive live.old.held → ⊥) → IsMisuse result live.old.held live.new.held × (told.new ≡ told.old) }
{
    let Some(engine) = live.engine() else {
        return Status::Misuse.number();
    };
    match command_of(command) {
        Some(command) => engine
            .command(alloc, seat, command, bytes, offsets, told)
            .number(),
        None => Status::NoCommand.number(),
    }
}

/// Reads returns, whose bytes stay in the latest entry.
#[unsafe(no_mangle)]
pub extern "C" fn hullpippin_live_read(
    live: &mut Handle,
    seat: u32,
    limit: u32,
    told: &mut Told,
) -> u32
    ensures steps { IsLive live.old.held → Reports result (StepsAt live.old.held live.new.held seat (Read limit) told.old told.new) }
    ensures misuse { (IsLive live.old.held → ⊥) → IsMisuse result live.old.held live.new.held × (told.new ≡ told.old) }
{
    make(live, seat, Step::Read { limit }, told)
}

/// Ends the seat's thread.
#[unsafe(no_mangle)]
pub extern "C" fn hullpippin_live_exit_thread(live: &mut Handle, seat: u32, told: &mut Told) -> u32
    ensures steps { IsLive live.old.held → Reports result (StepsAt live.old.held live.new.held seat ExitThread told.old told.new) }
    ensures misuse { (IsLive live.old.held → ⊥) → IsMisuse result live.old.held live.new.held × (told.new ≡ told.old) }
{
    make(live, seat, Step::ExitThread, told)
}

/// Ends the seat's process with all its threads.
#[unsafe(no_mangle)]
pub extern "C" fn hullpippin_live_exit_process(live: &mut Handle, seat: u32, told: &mut Told) -> u32
    ensures steps { IsLive live.old.held → Reports result (StepsAt live.old.held live.new.held seat ExitProcess told.old told.new) }
    ensures misuse { (IsLive live.old.held → ⊥) → IsMisuse result live.old.held live.new.held × (told.new ≡ told.old) }
{
    make(live, seat, Step::ExitProcess, told)
}
