//! `bplay`: plays scripts against a driver, and judges journals.
#![tactic(auto)]

mod arguments;
mod asking;
mod commands;
mod cuts;
mod draft;
mod files;
mod hints;
mod inquiries;
mod output;
mod progress;
mod script_help;
mod sources;

use arguments::{Order, Refused, order_of};
use asking::ask;
use bd_player::{DONE, ProgramFault, after_writing, tell};
use cuts::{check_cut_file, mend_file};
use files::{check_file, run_file};
use hints::print_hint;
use output::Output;
use script_help::SCRIPT_HELP;
use std::alloc::Global;
use std::io::{BufWriter, Eprint, Write};
use std::process::ExitCode;
use std::rt::{Files, Runtime};
use std::sync::Wait;
use std::thread::Threads;
use std::time::Clock;
use std::{env, io};

// The status where this came of it, which is told.
fn ended<E: Write>(came: Result<(), ProgramFault>, err: &mut E) -> u8 {
    match came {
        Ok(()) => DONE,
        Err(fault) => tell(fault, err),
    }
}

// Does what the words ask for.
fn obey<H, W: Write + Drop, E: Write>(
    rt: &H,
    order: Order<'_>,
    out: &mut Output<W>,
    err: &mut E,
) -> u8
where
    H: AllocGlobal + Files + Input + Clock + Eprint + Threads + Wait + Sync,
{
    let status = match order {
        Order::Run(run) => run_file(rt, run, out, err),
        Order::Check(check) => check_file(rt, check, out, err),
        Order::CheckCut(check) => check_cut_file(rt, check, out, err),
        Order::Mend(mend) => mend_file(rt, mend, out, err),
        Order::Ask(inquiry) => ask(rt, inquiry, out, err),
        Order::Script => after_writing(write!(out, "{SCRIPT_HELP}"), DONE),
    };
    status.max(ended(out.end(), err))
}

// The words that the program was started with. That there is no memory for them is another fault than that they can't be had.
fn words<H: Runtime<A = Global>>(rt: &H) -> Result<Vec<String>, ProgramFault> {
    match env::args(rt) {
        Ok(args) => args
            .collect::<Vec<String>>(rt.alloc())
            .map_err(|_| ProgramFault::Memory),
        Err(error) => Err(ProgramFault::Arguments.or_memory(&error)),
    }
}

// The status where there is no order: what is amiss is told, or help is printed.
fn refuse<H: Runtime<A = Global>, E: Write>(
    rt: &H,
    refused: Refused,
    words: &[String],
    err: &mut E,
) -> u8 {
    match refused {
        Refused::Fault(fault) => {
            let status = tell(fault, err);
            print_hint(words, err);
            status
        }
        Refused::Help(help) => ended(help.print(rt).map_err(|_| ProgramFault::Output), err),
    }
}

// Does what was ordered, and prints to standard output.
fn print<H: Runtime<A = Global> + Threads + Wait + Sync, E: Write>(
    rt: &H,
    order: Order<'_>,
    err: &mut E,
) -> u8 {
    match BufWriter::new(rt.alloc(), io::writer(rt)) {
        Ok(out) => obey(rt, order, &mut Output::new(out), err),
        Err(_) => tell(ProgramFault::Memory, err),
    }
}

fn run<H: Runtime<A = Global> + Threads + Wait + Sync, E: Write>(rt: &H, err: &mut E) -> u8 {
    let words = match words(rt) {
        Ok(words) => words,
        Err(fault) => return tell(fault, err),
    };
    match order_of(rt.alloc(), words.as_slice()) {
        Ok(order) => print(rt, order, err),
        Err(refused) => refuse(rt, refused, words.as_slice(), err),
    }
}

fn main(rt: HostRuntime) -> ExitCode {
    let mut err = rt.stderr();
    ExitCode::from(run(&rt, &mut err))
}
