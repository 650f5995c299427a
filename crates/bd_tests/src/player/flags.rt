//! The desk of two flags: a call sets its seat's flag and waits for the other's. So two seats end only if their lines
//! run side by side.

ghost use Rattle.std.specs.Prelude.{◌≡◌, All, IfOk};

use crate::same::{holds, same};
use bd_driver::{Desk, Driver, Outcome, Page, Seat, Served};
use bd_player::{DONE, Printer, laid, play_at, play_lines};
use bd_script::Script;
use bd_space::Request;
use std::alloc::Global;
use std::sync::atomic::{AtomicBool, Ordering};
use std::test::Fail;

// More reads than the other thread needs to start.
const READS: u32 = 100_000_000;

const FEW: u32 = 1000;

const SCRIPT: &str = "\
seats 2
0 open 1 0 4096
1 open 2 0 4096
";

// A driver with two flags round it.
#[derive(Drop)]
struct TwoFlags {
    driver: Driver,
    first: AtomicBool,
    second: AtomicBool,
    used_up: AtomicBool,
    // How often a call reads the other seat's flag.
    reads: u32,
}

impl TwoFlags {
    fn new(driver: Driver, reads: u32) -> TwoFlags
        ensures { result.driver ≡ driver }
    {
        TwoFlags {
            driver,
            first: AtomicBool::new(false),
            second: AtomicBool::new(false),
            used_up: AtomicBool::new(false),
            reads,
        }
    }

    // The flag of the seat that asks for this, and the other's.
    fn flags_of(&self, request: &Request) -> (&AtomicBool, &AtomicBool) {
        match request {
            Request::Open { pid: 1, .. } => (&self.first, &self.second),
            _ => (&self.second, &self.first),
        }
    }

    // Sets the own flag, and reads the other until it is set or the reads are used up.
    fn meet(&self, request: &Request) {
        let (own, other) = self.flags_of(request);
        own.store(true, Ordering::SeqCst);
        for _ in 0..self.reads {
            if other.load(Ordering::SeqCst) {
                return;
            }
        }
        self.used_up.store(true, Ordering::SeqCst);
    }
}

impl Desk for TwoFlags {
    ghost table = { λ d. d.driver.table };

    ghost seats = { λ d. d.driver.seats };

    fn call(&self, seat: &mut Seat, request: Request) -> Outcome {
        self.meet(&request);
        self.driver.call(seat, request)
    }

    fn look(&self, seat: &mut Seat) -> Page {
        self.driver.look(seat)
    }

    fn post(&self, seat: &mut Seat, request: Request) {
        self.driver.post(seat, request)
    }

    fn serve(&self, seat: &mut Seat) -> Served {
        self.driver.serve(seat)
    }

    fn collect(&self, seat: &mut Seat) -> Outcome {
        self.driver.collect(seat)
    }

    fn withdraw(&self, seat: &mut Seat) -> Outcome {
        self.driver.withdraw(seat)
    }
}

// A desk, its seats, and the script.
fn two_flags(alloc: Global, reads: u32) -> Result<(TwoFlags, Vec<Seat>, Script), Fail>
    ensures { IfOk result (λ r. All (λ s. s.table ≡ r.0.driver.table) r.1.items) }
{
    let (driver, seats, script) = laid(alloc, &mut SCRIPT.as_bytes())?;
    Ok((TwoFlags::new(driver, reads), seats, script))
}

#[test]
fn threads_meet(rt: HostRuntime) -> Result<(), Fail> {
    let (desk, seats, script) = two_flags(rt.alloc(), READS)?;
    let mut out = Vec::new(rt.alloc());
    let mut err = Vec::new(rt.alloc());
    let (_, status) = play_at(
        &rt,
        rt.alloc(),
        &desk,
        seats,
        script,
        READS,
        &mut out,
        &mut err,
    )?;
    let text = str::from_utf8(out.as_slice())?;
    let (one, other) = (
        "2: opened 0 1\n3: opened 1 2\n",
        "2: opened 1 2\n3: opened 0 1\n",
    );
    holds(&rt, "the lines", text == one || text == other);
    holds(&rt, "the status", status == DONE && err.is_empty());
    holds(&rt, "they met", !desk.used_up.load(Ordering::SeqCst));
    Ok(())
}

// By turns on one thread the first seat waits for a flag that is only set after it.
#[test]
fn one_thread_uses_its_reads_up(rt: HostRuntime) -> Result<(), Fail> {
    let (desk, mut seats, script) = two_flags(rt.alloc(), FEW)?;
    let mut out = Vec::new(rt.alloc());
    let mut printer = Printer::new(&mut out);
    play_lines(&desk, &mut seats, script.lines, 1, &mut printer);
    let status = printer.into_status();
    let text = str::from_utf8(out.as_slice())?;
    same(&rt, "the lines", text, "2: opened 0 1\n3: opened 1 2\n");
    same(&rt, "the status", status, DONE);
    holds(&rt, "used up", desk.used_up.load(Ordering::SeqCst));
    Ok(())
}
