//! The program's words.

ghost use Rattle.std.specs.Prelude.{◌<◌, ◌≢◌, length, codes, IfSome, IsOkAnd, IsSome, None};
ghost use Rattle.clap.specs.Matches.{first_value, found_of};
ghost use Rattle.bd_play.specs.Orders.{IsManner, PlaysFound, PlaysInput};

use crate::commands::Making;
use crate::cuts::Mend;
use crate::inquiries::{Inquiry, inquiry_in, progress_arg, source_in, with_inquiries};
use crate::script_help::SCRIPT_HELP;
use crate::sources::Source;
use bd_player::{Manner, ProgramFault};
use clap::error::ErrorKind;
use clap::{Arg, ArgAction, ArgMatches, Error, value_parser};
use std::alloc::{AllocError, Global};

/// The turns of a line where none are given.
const TURNS: u32 = 100_000_000;

// By which kit a program was proved, and whether it was, only a note beside its file can tell.
const VERSION: &str = "2.0.0";

const ABOUT: &str = "Plays scripts against a driver of Binder transactions, and judges journals";

const PROGRAM_HELP: &str = "\
With no words at all a script is played from standard input.

A script has one line a request: the first says how many seats there are, each other line names a seat and what it
does. A seat opens a process (pid 100, euid 1000, a window of 4096 bytes), becomes the context manager and enters the
loop; another makes a one_way call with code 7 and the bytes 6869 to handle 0, and both read:

    seats 2
    0 open 100 1000 4096
    0 manager
    0 enter
    1 open 200 2000 4096
    1 tx 0 7 1 6869 -
    1 read 256
    0 read 256

What happened in a run can be asked for afterwards, where its journal was written:

    bplay run script --journal journal
    bplay check journal                 whether it is a history
    bplay chain journal 200 1           who gave the process with pid 200 what its handle 1 names

Another program shows all that a journal has: hullpippin show journal.

Statuses: 0 done, or lawful; 1 a fault, or unlawful; 2 turns used up; 3 memory refused.";

const RUN_HELP: &str = "\
A script has one line a request: the first says how many seats there are, each other line names a seat and what it
does. Here seat 0 opens a process and becomes the context manager:

    seats 1
    0 open 100 1000 4096
    0 manager

Each line that runs prints its number and what came of it, here `2: opened 0 1` and `3: set 1 2`: the manager was set
by the steps of the history from 1 up to and without 2. A refusal says which: `stop X1`, a note `0:N1`, `refused F12`.
A try that finds the driver taken, and a look of an `await` that doesn't pass, is one turn.

Statuses: 0 all lines are done; 1 a fault, told on standard error; 2 turns used up; 3 memory refused.";

const CHECK_HELP: &str = "\
A journal is the history of a run, which `bplay run script --journal journal` writes. Then `bplay check journal` prints
`lawful N`, where all N entries are a history, or `unlawful K` with the place of the first entry that doesn't follow
from those before, from 0.

With `--cut` a journal is judged that broke off, or is still being written: the entries that are whole, whatever count
its heading has. Then it prints `lawful N, then B bytes of no entry`.

Statuses: 0 lawful; 1 unlawful, or a fault, told on standard error; 3 memory refused.";

const MEND_HELP: &str = "\
A journal that broke off has whole entries, and perhaps the beginning of one more. `bplay mend journal out` writes the
journal of those that are whole, and prints `mended N, then B bytes of no entry`. It doesn't judge them.

Statuses: 0 done; 1 a fault, told on standard error; 3 memory refused.";

/// A run of a script.
#[derive(Clone, Copy)]
pub struct Run<'a> {
    /// The script's file.
    pub file: &'a str,
    /// How it is played.
    pub manner: Manner,
    /// Where the journal of the run is to stand, if it is written.
    pub journal: Option<&'a str>,
    /// Whether it is told how far it is.
    pub progress: bool,
}

/// What the words ask for.
#[derive(Clone, Copy)]
pub enum Order<'a> {
    /// Plays a script.
    Run(Run<'a>),
    /// Judges a journal.
    Check(Source<'a>),
    /// Judges what is whole of a journal that was cut off.
    CheckCut(Source<'a>),
    /// Writes the journal of what is whole of another.
    Mend(Mend<'a>),
    /// Answers a question about a journal.
    Ask(Inquiry<'a>),
    /// Tells what scripts are.
    Script,
}

/// Why there is no order.
#[derive(Drop)]
pub enum Refused {
    /// The words make no sense, or memory was refused.
    Fault(ProgramFault),
    /// Help or the version was asked for.
    Help(Error),
}

impl From<AllocError> for Refused {
    fn from(_e: AllocError) -> Refused {
        Refused::Fault(ProgramFault::Memory)
    }
}

// The file that a command reads.
fn file_arg<'a>(alloc: Global, help: &'a str) -> Arg<'a> {
    Arg::new(alloc, "file")
        .value_name("FILE")
        .required(true)
        .help(help)
}

fn run_command<'a>(alloc: Global) -> Making<'a> {
    Making::new(alloc, "run", "Plays a script", RUN_HELP)
        .arg(file_arg(alloc, "The script, or - for standard input"))
        .arg(
            Arg::new(alloc, "threads")
                .long("threads")
                .action(ArgAction::SetTrue)
                .help("Run each seat's lines on a thread of their own, and print seat by seat"),
        )
        .arg(
            Arg::new(alloc, "turns")
                .long("turns")
                .value_name("N")
                .value_parser(value_parser!(u32).range(1..))
                .help("How many turns a line has, 1 to 4294967295 [default: 100000000]"),
        )
        .arg(
            Arg::new(alloc, "journal")
                .long("journal")
                .value_name("OUT")
                .help("Write the journal of the run here"),
        )
        .arg(progress_arg(alloc))
}

fn check_command<'a>(alloc: Global) -> Making<'a> {
    Making::new(alloc, "check", "Judges a journal", CHECK_HELP)
        .arg(file_arg(alloc, "The journal, or - for standard input"))
        .arg(
            Arg::new(alloc, "cut")
                .long("cut")
                .action(ArgAction::SetTrue)
                .help("Judge what is whole of a journal that was cut off"),
        )
        .arg(progress_arg(alloc))
}

fn mend_command<'a>(alloc: Global) -> Making<'a> {
    let about = "Writes the journal of what is whole of one that was cut off";
    Making::new(alloc, "mend", about, MEND_HELP)
        .arg(file_arg(
            alloc,
            "The journal that was cut off, or - for standard input",
        ))
        .arg(
            Arg::new(alloc, "out")
                .value_name("OUT")
                .required(true)
                .help("Where the journal is to stand"),
        )
}

fn script_command<'a>(alloc: Global) -> Making<'a> {
    let about = "Tells the words of a script, and what a run prints";
    Making::new(alloc, "script", about, SCRIPT_HELP)
}

// The program as `clap` is told of it, with all its commands.
fn program<'a>(alloc: Global) -> Making<'a> {
    let program = Making::program(alloc, "bplay", VERSION, ABOUT, PROGRAM_HELP)
        .command(run_command(alloc))
        .command(check_command(alloc))
        .command(mend_command(alloc));
    with_inquiries(alloc, program).command(script_command(alloc))
}

fn matches_of<'a>(alloc: Global, words: &'a [String]) -> Result<ArgMatches<'a>, Error> {
    program(alloc).made()?.try_get_matches_from(words)
}

// In which manner a script is to be played.
fn manner_in(matches: &ArgMatches<'_>) -> Manner
    ensures { IsManner (found_of matches.now) result }
{
    Manner {
        threads: matches.get_flag("threads"),
        turns: matches.get_one::<u32>("turns").unwrap_or(TURNS),
    }
}

// To play the script that was found.
fn run_order<'a>(matches: &ArgMatches<'a>) -> Option<Order<'a>>
    ensures plays { IfSome result (PlaysFound (found_of matches.now)) }
    ensures found { first_value (found_of matches.now) (codes "file") ≢ None → IsSome result }
{
    Some(Order::Run(Run {
        file: matches.get_str("file")?,
        manner: manner_in(matches),
        journal: matches.get_str("journal"),
        progress: matches.get_flag("progress"),
    }))
}

// To judge the journal, or what is whole of it.
fn check_order<'a>(matches: &ArgMatches<'a>, source: Source<'a>) -> Order<'a> {
    if matches.get_flag("cut") {
        Order::CheckCut(source)
    } else {
        Order::Check(source)
    }
}

fn mend_in<'a>(matches: &ArgMatches<'a>) -> Option<Mend<'a>> {
    Some(Mend {
        file: matches.get_str("file")?,
        place: matches.get_str("out")?,
    })
}

fn order_in<'a>(matches: &ArgMatches<'a>) -> Option<Order<'a>> {
    let (name, inner) = matches.subcommand()?;
    match name {
        "run" => run_order(inner),
        "check" => Some(check_order(inner, source_in(inner)?)),
        "mend" => Some(Order::Mend(mend_in(inner)?)),
        "script" => Some(Order::Script),
        _ => Some(Order::Ask(inquiry_in(name, inner)?)),
    }
}

fn refusal(error: Error) -> Refused {
    match error.kind() {
        ErrorKind::DisplayHelp | ErrorKind::DisplayVersion => Refused::Help(error),
        ErrorKind::OutOfMemory => Refused::Fault(ProgramFault::Memory),
        _ => Refused::Fault(ProgramFault::Arguments),
    }
}

/// What the words ask for, the program's name first. With no other word it is to play standard input.
pub fn order_of<'a>(alloc: Global, words: &'a [String]) -> Result<Order<'a>, Refused>
    ensures { length words.now < 2 → IsOkAnd result PlaysInput }
{
    if words.len() < 2 {
        let manner = Manner {
            threads: false,
            turns: TURNS,
        };
        return Ok(Order::Run(Run {
            file: "-",
            manner,
            journal: None,
            progress: false,
        }));
    }
    match matches_of(alloc, words) {
        Ok(matches) => order_in(&matches).ok_or(Refused::Fault(ProgramFault::Arguments)),
        Err(error) => Err(refusal(error)),
    }
}
