// The exchange on the command line, as one function: tickets and settlements are files that are named by arguments. What it says rests on
// the proved libraries beneath; the functions here are proved safe, and held to the stored output of the program `exchange`. Answers go
// to standard output, and all else goes to standard error.
#![tactic(auto)]

mod account; // account.rt: what a settlement brings everybody
mod drawing; // drawing.rt: a ticket from a seed
mod files_in; // files_in.rt: the files that a command reads
mod lines; // lines.rt: the line of a number of a text
mod marking; // marking.rt: settlements marked
mod packing; // packing.rt: documents as text, and back
mod refusals; // refusals.rt: what is said of a refusal
mod sheet; // sheet.rt: a ticket settled
mod window_files; // window_files.rt: a ticket for everybody's windows

use commands::{Asked, Command, Status, asked_for, command_of, fits};
use files::Told;

fn run_command(rt: &HostRuntime, command: Command, asked: Asked) -> Result<Status, Told> {
    match command {
        Command::Sheet => sheet::sheet(rt, asked),
        Command::Settle => sheet::settle(rt, asked),
        Command::Mark => marking::mark(rt, asked),
        Command::Account => account::account(rt, asked),
        Command::Unpack => packing::unpack(rt, asked),
        Command::Pack => packing::pack(rt, asked),
        Command::Draw => drawing::draw(rt, asked),
        Command::Windows => window_files::windows(rt, asked),
        Command::Desk => sheet::desk(rt, asked),
        _ => Err(Told),
    }
}

// A command with its arguments.
fn run_asked(rt: &HostRuntime, command: Command, asked: Asked) -> Result<Status, Told> {
    if asked.help {
        return commands::help_for(rt, command);
    }
    fits(rt, command, asked)?;
    run_command(rt, command, asked)
}

// Runs the command that the program's arguments name.
pub fn exchange_run(rt: &HostRuntime) -> Status {
    let word = files_in::word_at(rt, 1);
    let command = command_of(word.bytes());
    let status = match command {
        Command::Unknown => Err(commands::no_command(rt, word.bytes())),
        Command::Help => commands::help(rt),
        Command::Version => commands::version(rt),
        _ => run_asked(rt, command, asked_for(rt, command)),
    };
    status.unwrap_or(Status::Failed)
}
