// Commands, options and operands: the arguments that are no options. A command's own word is argument 1.
ghost use Rattle.std.specs.Prelude.{◌≤◌, length};

use crate::arguments::argument;
use files::{Text, Told, message};
use std::env::FillError;
use std::io::Write;
use std::rt::Env;
use std::{fmt, io};

#[derive(Clone, Copy, Debug, PartialEq, Eq)]
pub enum Command {
    Sheet,
    Settle,
    Mark,
    Account,
    Unpack,
    Pack,
    Draw,
    Windows,
    Desk,
    Help,
    Version,
    Unknown,
}

pub fn command_of(word: &[u8]) -> Command {
    match word {
        b"sheet" => Command::Sheet,
        b"settle" => Command::Settle,
        b"mark" => Command::Mark,
        b"account" => Command::Account,
        b"unpack" => Command::Unpack,
        b"pack" => Command::Pack,
        b"draw" => Command::Draw,
        b"windows" => Command::Windows,
        b"desk" => Command::Desk,
        b"help" | b"--help" => Command::Help,
        b"--version" => Command::Version,
        _ => Command::Unknown,
    }
}

pub(crate) fn command_name(command: Command) -> &'static str {
    match command {
        Command::Sheet => "sheet",
        Command::Settle => "settle",
        Command::Mark => "mark",
        Command::Account => "account",
        Command::Unpack => "unpack",
        Command::Pack => "pack",
        Command::Draw => "draw",
        Command::Windows => "windows",
        Command::Desk => "desk",
        Command::Help | Command::Version | Command::Unknown => "help",
    }
}

// What is asked of a command. Each flag is an option or a dash that may or may not stand among the arguments.
#[derive(Clone, Copy)]
pub struct Asked {
    pub command: Command,
    pub table: bool,
    pub json: bool,
    pub all: bool,
    pub model: bool,
    pub help: bool,
    pub names: Option<usize>, // the argument that names the file of names
    pub operands: usize,
    dashes: usize, // how many files are to be read from standard input
    wrong: Option<usize>, // the first argument that is no option of the command
    long: bool, // whether an argument is too long for a name
    ended: bool, // whether options have ended
    awaiting: bool, // whether the next argument is the value of an option
}

fn nothing(command: Command) -> Asked {
    Asked {
        command,
        table: false,
        json: false,
        all: false,
        model: false,
        help: false,
        names: None,
        operands: 0,
        dashes: 0,
        wrong: None,
        long: false,
        ended: false,
        awaiting: false,
    }
}

#[derive(Clone, Copy, Debug, PartialEq, Eq)]
enum Choice {
    Table,
    Names,
    Json,
    All,
    Model,
    Help,
}

fn choice_of(word: &[u8]) -> Option<Choice> {
    match word {
        b"--table" => Some(Choice::Table),
        b"--names" => Some(Choice::Names),
        b"--json" => Some(Choice::Json),
        b"--all" => Some(Choice::All),
        b"--model" => Some(Choice::Model),
        b"--help" => Some(Choice::Help),
        _ => None,
    }
}

fn takes(command: Command, choice: Choice) -> bool {
    match (command, choice) {
        (_, Choice::Help) => true,
        (Command::Sheet, Choice::Table | Choice::Names | Choice::Json) => true,
        (Command::Mark, Choice::Json | Choice::All | Choice::Model) => true,
        (Command::Unpack, Choice::Json) => true,
        _ => false,
    }
}

// How many operands of a command are files that it reads. They come first.
fn read_operands(command: Command) -> usize {
    match command {
        Command::Mark => usize::MAX,
        Command::Account | Command::Windows => 2,
        Command::Draw => 0,
        _ => 1,
    }
}

impl Asked {
    fn choose(&mut self, choice: Choice) {
        match choice {
            Choice::Table => self.table = true,
            Choice::Names => self.awaiting = true,
            Choice::Json => self.json = true,
            Choice::All => self.all = true,
            Choice::Model => self.model = true,
            Choice::Help => self.help = true,
        }
    }

    // A file to be read, if it is standard input.
    fn count_dash(&mut self, word: &[u8]) {
        if files::is_dash(word) {
            self.dashes = self.dashes.saturating_add(1);
        }
    }

    fn take_option(&mut self, word: &[u8], argument: usize) {
        match choice_of(word) {
            Some(choice) if takes(self.command, choice) => self.choose(choice),
            _ => self.wrong = self.wrong.or(Some(argument)),
        }
    }

    fn take_operand(&mut self, word: &[u8]) {
        if self.operands < read_operands(self.command) {
            self.count_dash(word);
        }
        self.operands = self.operands.saturating_add(1);
    }

    fn take(&mut self, word: &[u8], argument: usize) {
        if self.awaiting {
            self.awaiting = false;
            self.names = Some(argument);
            self.count_dash(word);
        } else if self.ended || !is_option(word) {
            self.take_operand(word);
        } else if word == b"--".as_slice() {
            self.ended = true;
        } else {
            self.take_option(word, argument);
        }
    }
}

fn is_option(word: &[u8]) -> bool {
    1 < word.len() && word.starts_with(b"-".as_slice())
}

// What the arguments after a command's word ask of it, up to the argument that is a given operand, and which that is. Operands count
// from 0.
fn walk(rt: &HostRuntime, command: Command, place: usize) -> (Asked, Option<usize>) {
    let mut word = [0u8; 4096];
    let mut asked = nothing(command);
    for k in 2..usize::MAX {
        match rt.arg(k, &mut word) {
            Ok(length) => asked.take(ascii::front(&word, length), k),
            Err(FillError::TooLong) => {
                asked.long = true;
                asked.take(b"", k);
            }
            Err(FillError::NotPresent) => return (asked, None),
        }
        if place < asked.operands {
            return (asked, Some(k));
        }
    }
    (asked, None)
}

// What the arguments after a command's word ask of it.
pub fn asked_for(rt: &HostRuntime, command: Command) -> Asked {
    walk(rt, command, usize::MAX).0
}

// Puts an operand at the front of a buffer, and returns its length: 0 where it is missing.
pub fn operand(rt: &HostRuntime, asked: Asked, place: usize, name: &mut [u8]) -> usize
    ensures { result ≤ length name.new }
{
    match walk(rt, asked.command, place).1 {
        Some(found) => argument(rt, found, name),
        None => 0,
    }
}

// What is wrong with the use of a command, and what names its help.
#[derive(Clone, Copy)]
struct Usage {
    words: &'static str,
    command: Command,
}

impl fmt::Display for Usage {
    fn fmt<W: fmt::Write>(&self, f: &mut fmt::Formatter<W>) -> fmt::Result {
        write!(
            f,
            "{}; see exchange {} --help",
            self.words,
            command_name(self.command)
        )
    }
}

// The same of a word that is no option.
#[derive(Clone, Copy)]
struct NoOption<'a> {
    word: &'a [u8],
    command: Command,
}

impl<'a> Text for NoOption<'a> {
    fn write<W: Write>(&self, out: &mut W) -> io::Result<()> {
        out.write_all(b"no option `")?;
        out.write_all(self.word)?;
        write!(out, "`; see exchange {} --help", command_name(self.command))
    }
}

fn complain(rt: &HostRuntime, words: &'static str, command: Command) -> Told {
    message(rt, &Usage { words, command });
    Told
}

fn no_option(rt: &HostRuntime, command: Command, place: usize) -> Told {
    let mut bytes = [0u8; 4096];
    let length = argument(rt, place, &mut bytes);
    let word = &bytes[..length];
    message(rt, &NoOption { word, command });
    Told
}

fn least_operands(command: Command) -> usize {
    match command {
        Command::Sheet | Command::Unpack | Command::Desk => 1,
        Command::Windows => 3,
        Command::Draw => 4,
        _ => 2,
    }
}

fn needs(command: Command) -> &'static str {
    match command {
        Command::Sheet => "sheet needs a ticket",
        Command::Settle => "settle needs a ticket and a name for the settlement",
        Command::Mark => "mark needs a ticket and a settlement",
        Command::Account => "account needs a ticket and a settlement",
        Command::Unpack => "unpack needs a ticket or a settlement",
        Command::Pack => "pack needs a text and a name for the file",
        Command::Draw =>
            "draw needs a seed, how many growers and pilots, and a name for the ticket",
        Command::Windows => "windows needs a ticket, windows and a name for the new ticket",
        _ => "desk needs a ticket",
    }
}

// Whether a command can do what is asked. If not, it is told why. Standard input is read once at most, and the desk has its calls from
// there.
pub fn fits(rt: &HostRuntime, command: Command, asked: Asked) -> Result<(), Told> {
    if asked.long {
        message(rt, &"an argument of more than 4096 bytes");
        return Err(Told);
    }
    if let Some(place) = asked.wrong {
        return Err(no_option(rt, command, place));
    }
    if asked.awaiting {
        return Err(complain(rt, "--names needs a file", command));
    }
    if asked.operands < least_operands(command) {
        return Err(complain(rt, needs(command), command));
    }
    if least_operands(command) < asked.operands && command != Command::Mark {
        return Err(complain(rt, "too many arguments", command));
    }
    if 0 < asked.dashes && command == Command::Desk {
        return Err(complain(rt, "the calls come from standard input", command));
    }
    if 1 < asked.dashes {
        return Err(complain(rt, "standard input can be read only once", command));
    }
    Ok(())
}
