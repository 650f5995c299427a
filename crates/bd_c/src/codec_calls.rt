//! What C calls to read and to spell commands and returns.
ghost use Rattle.std.specs.Prelude.{◌≡◌, ℕ, Some};
ghost use Rattle.bd_uapi.specs.declared.command.{Command.{Command}, Return.{Return}};
ghost use Rattle.bd_codec.specs.{Spelling.{command_bytes, return_bytes}, Reading.{command_at, return_at}};
ghost use Rattle.bd_c.specs.Spelled.{command_told, command_given, return_told, return_given, TellsRead, Spells};

use crate::parts::fill;
use crate::spelled::{CommandInC, ReturnInC};
use bd_codec::{read_command, read_return, spell_command, spell_return};
use bd_journal::fault_number;

/// Reads the command at the head of a stream. Answers 0, or the number of the fault by which none is there.
#[unsafe(no_mangle)]
pub extern "C" fn hullpippin_next_command(stream: &[u8], told: &mut CommandInC) -> u32
    ensures { TellsRead command_told (command_at stream.now) told.old told.new result }
{
    match read_command(stream) {
        Ok((command, size)) => {
            *told = CommandInC::of(&command, size);
            0
        }
        Err(fault) => fault_number(fault) as u32,
    }
}

/// Reads the return at the head of a stream. Answers 0, or the number of the fault by which none is there.
#[unsafe(no_mangle)]
pub extern "C" fn hullpippin_next_return(stream: &[u8], told: &mut ReturnInC) -> u32
    ensures { TellsRead return_told (return_at stream.now) told.old told.new result }
{
    match read_return(stream) {
        Ok((found, size)) => {
            *told = ReturnInC::of(&found, size);
            0
        }
        Err(fault) => fault_number(fault) as u32,
    }
}

/// Copies a command's bytes, if all of them fit. Answers how many they are, 0 where no command has this code.
#[tactic(auto, using(crate::proofs::GivenAgain::command_again))]
#[unsafe(no_mangle)]
pub extern "C" fn hullpippin_spell_command(command: &CommandInC, out: &mut [u8]) -> usize
    ensures spells { Spells command_bytes (command_given command.now) out.old out.new result }
    // What is told of a command gives it again.
    ensures again { (c : Command) (size : ℕ) → command_given (command_told c size) ≡ Some c }
{
    match command.given() {
        Some(command) => fill(out, spell_command(&command).as_slice()),
        None => 0,
    }
}

/// Copies a return's bytes, if all of them fit. Answers how many they are, 0 where no return has this code.
#[tactic(auto, using(crate::proofs::GivenAgain::return_again))]
#[unsafe(no_mangle)]
pub extern "C" fn hullpippin_spell_return(given: &ReturnInC, out: &mut [u8]) -> usize
    ensures spells { Spells return_bytes (return_given given.now) out.old out.new result }
    // What is told of a return gives it again.
    ensures again { (r : Return) (size : ℕ) → return_given (return_told r size) ≡ Some r }
{
    match given.given() {
        Some(found) => fill(out, spell_return(&found).as_slice()),
        None => 0,
    }
}
