//! Commands of clap, as they are made.

use clap::{Arg, Command, Error};
use std::alloc::Global;

/// A command that is being made, or why it can't be. What is added then is let go of, so that no addition has to look.
pub struct Making<'a>(Result<Command<'a>, Error>);

impl<'a> Making<'a> {
    /// A command of this name, what it does, and the end of its help.
    pub fn new(alloc: Global, name: &'a str, about: &'a str, help: &'a str) -> Making<'a> {
        Making(Ok(Command::new(alloc, name).about(about).after_help(help)))
    }

    /// The program of this name, of which a command has to be given.
    pub fn program(
        alloc: Global,
        name: &'a str,
        version: &'a str,
        about: &'a str,
        help: &'a str,
    ) -> Making<'a> {
        match Command::new(alloc, name).bin_name(name) {
            Ok(program) => Making(Ok(
                program
                    .version(version)
                    .about(about)
                    .after_help(help)
                    .subcommand_required(true),
            )),
            Err(error) => Making(Err(Error::from(error))),
        }
    }

    /// Adds an argument, unless something failed before.
    pub fn arg(self, arg: Arg<'a>) -> Making<'a> {
        let Making(made) = self;
        Making(with_arg(made, arg))
    }

    /// Adds a command below it, unless something failed before.
    pub fn command(self, below: Making<'a>) -> Making<'a> {
        let (Making(made), Making(below)) = (self, below);
        match below {
            Ok(below) => Making(with_command(made, below)),
            Err(error) => Making(Err(error)),
        }
    }

    /// The command, or what failed first.
    pub fn made(self) -> Result<Command<'a>, Error> {
        let Making(made) = self;
        made
    }
}

fn with_arg<'a>(made: Result<Command<'a>, Error>, arg: Arg<'a>) -> Result<Command<'a>, Error> {
    match made {
        Ok(command) => Ok(command.arg(arg)?),
        Err(error) => Err(error),
    }
}

fn with_command<'a>(
    made: Result<Command<'a>, Error>,
    below: Command<'a>,
) -> Result<Command<'a>, Error> {
    match made {
        Ok(command) => Ok(command.subcommand(below)?),
        Err(error) => Err(error),
    }
}
