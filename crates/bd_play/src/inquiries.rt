//! The words of questions about a journal.

ghost use Rattle.std.specs.Prelude.{◌≢◌, IfSome, IsSome, None, codes};
ghost use Rattle.clap.specs.Matches.{first_value, found_of};
ghost use Rattle.bd_play.specs.Inquiries.{AsksBy, AsksFound, AskedBy, AsksTurns, HasChain, HasNumber, HasQuestion, IsNumberAt, IsObject, IsSourceFound};

use crate::commands::Making;
use crate::sources::Source;
use bd_player::Question;
use clap::{Arg, ArgAction, ArgMatches, value_parser};
use std::alloc::Global;

/// A question, and the journal that it is about.
#[derive(Clone, Copy)]
pub struct Inquiry<'a> {
    /// The journal that is read for it.
    pub source: Source<'a>,
    /// What is asked of its history.
    pub question: Question,
}

const CHAIN_HELP: &str = "\
First comes the object that the handle names, with the pid of its owner. Each further line is a gift: its place in the
history, who gave the object and who had a handle for it from then on. The first giver is the owner; the last receiver is
the process that is asked about. The context manager's object may be asked for by 0.

    bplay run script --journal journal
    bplay chain journal 100 1
    object 4.0 of pid 200
    4: pid 200 gave it to pid 100

Statuses: 0 there is such a handle; 1 there is none, the journal is unlawful, or a fault; 3 memory refused.";

const CALL_HELP: &str = "\
It prints the call and the read, each as a line: its place, the seat, the pid of its process, what it did and what came
back. Returns that were read stand below, one a line.

    bplay call-of-reply journal 8

Statuses: 0 there is such a call; 1 that entry read no reply, the journal is unlawful, or a fault; 3 memory refused.";

const TURNS_HELP: &str = "\
Each line is a call: the places where it was made, where it was read, and where its buffer ended.

    bplay turns journal 1.0
    made 4 handed 7 ended 9
    made 5 handed 10 ended -";

// The journal that a command reads.
fn journal_arg<'a>(alloc: Global) -> Arg<'a> {
    Arg::new(alloc, "file")
        .value_name("JOURNAL")
        .required(true)
        .help("The journal, or - for standard input")
}

/// Whether it is told how far a command is.
pub fn progress_arg<'a>(alloc: Global) -> Arg<'a> {
    Arg::new(alloc, "progress")
        .long("progress")
        .action(ArgAction::SetTrue)
        .help("Tell on standard error how much of it is done, and how much a second")
}

// A number that has to be given.
fn number_arg<'a>(alloc: Global, name: &'a str, value: &'a str, help: &'a str) -> Arg<'a> {
    Arg::new(alloc, name)
        .value_name(value)
        .value_parser(value_parser!(u32))
        .required(true)
        .help(help)
}

fn chain_command<'a>(alloc: Global) -> Making<'a> {
    Making::new(
        alloc,
        "chain",
        "Tells how a process came to a handle: who gave the object to whom",
        CHAIN_HELP,
    )
    .arg(journal_arg(alloc))
    .arg(number_arg(alloc, "pid", "PID", "The process"))
    .arg(number_arg(alloc, "handle", "HANDLE", "Its handle"))
    .arg(progress_arg(alloc))
}

fn call_command<'a>(alloc: Global) -> Making<'a> {
    Making::new(
        alloc,
        "call-of-reply",
        "Tells which call a reply answers",
        CALL_HELP,
    )
    .arg(journal_arg(alloc))
    .arg(number_arg(
        alloc,
        "place",
        "K",
        "The place of the read that handed out the reply",
    ))
    .arg(progress_arg(alloc))
}

fn turns_command<'a>(alloc: Global) -> Making<'a> {
    Making::new(
        alloc,
        "turns",
        "Tells the one-way calls on an object, in the order in which they were made",
        TURNS_HELP,
    )
    .arg(journal_arg(alloc))
    .arg(
        Arg::new(alloc, "object")
            .value_name("PLACE.INDEX")
            .required(true)
            .help("The object: the place of the step that made it, and its number there"),
    )
    .arg(progress_arg(alloc))
}

/// A command that has those of the questions too.
pub fn with_inquiries<'a>(alloc: Global, command: Making<'a>) -> Making<'a> {
    command
        .command(chain_command(alloc))
        .command(call_command(alloc))
        .command(turns_command(alloc))
}

// The one-way calls on the object that a text names.
fn turns_on(text: &str) -> Option<Question>
    ensures asks { IfSome result (AsksTurns text.now) }
    ensures found { IsObject text.now → IsSome result }
{
    let (place, index) = text.split_once('.')?;
    Some(Question::Turns {
        place: place.parse::<u32>().ok()?,
        index: index.parse::<u32>().ok()?,
    })
}

// The number that was given by a name, if one was.
fn number_in(matches: &ArgMatches<'_>, name: &str) -> Option<u32>
    ensures number { IfSome result (IsNumberAt (found_of matches.now) name.now) }
    ensures found { HasNumber (found_of matches.now) name.now → IsSome result }
{
    matches.get_one::<u32>(name)
}

// How the process with the pid that was found came to the handle that was found.
fn chain_in(matches: &ArgMatches<'_>) -> Option<Question>
    ensures asks { IfSome result (AskedBy (found_of matches.now)) }
    ensures found { HasChain (found_of matches.now) → IsSome result }
{
    Some(Question::Chain {
        pid: number_in(matches, "pid")?,
        handle: number_in(matches, "handle")?,
    })
}

// What is asked by the command of this name, if it is one of a question.
fn question_in(name: &str, matches: &ArgMatches<'_>) -> Option<Question>
    ensures asks { IfSome result (AsksBy name.now (found_of matches.now)) }
    ensures found { HasQuestion name.now (found_of matches.now) → IsSome result }
{
    match name {
        "chain" => chain_in(matches),
        "call-of-reply" => Some(Question::CallOfReply {
            place: number_in(matches, "place")?,
        }),
        "turns" => turns_on(matches.get_str("object")?),
        _ => None,
    }
}

/// The journal that was found.
pub fn source_in<'a>(matches: &ArgMatches<'a>) -> Option<Source<'a>>
    ensures source { IfSome result (IsSourceFound (found_of matches.now)) }
    ensures found { first_value (found_of matches.now) (codes "file") ≢ None → IsSome result }
{
    Some(Source {
        file: matches.get_str("file")?,
        progress: matches.get_flag("progress"),
    })
}

/// The question that was found, and its journal.
pub fn inquiry_in<'a>(name: &str, matches: &ArgMatches<'a>) -> Option<Inquiry<'a>>
    ensures source { IfSome result (AsksFound (found_of matches.now)) }
    ensures asks { IfSome result (λ i. AsksBy name.now (found_of matches.now) i.question) }
    ensures found { first_value (found_of matches.now) (codes "file") ≢ None → HasQuestion name.now (found_of matches.now) → IsSome result }
{
    Some(Inquiry {
        source: source_in(matches)?,
        question: question_in(name, matches)?,
    })
}
