// What the program says of itself: what each command does, and the version.
use crate::asked::{Command, command_of};
use crate::status::Status;
use files::{Told, print};

const ALL: &str = "The hours exchange: tickets, settlements, and what they mean.\n\
    \n\
    \x20 exchange sheet [--table] [--names NAMES] [--json] TICKET\n\
    \x20 exchange settle TICKET SETTLEMENT\n\
    \x20 exchange mark [--all] [--model] [--json] TICKET SETTLEMENT..\n\
    \x20 exchange account TICKET SETTLEMENT\n\
    \x20 exchange unpack [--json] FILE\n\
    \x20 exchange pack TEXT FILE\n\
    \x20 exchange draw SEED N M TICKET\n\
    \x20 exchange windows TICKET WINDOWS NEW_TICKET\n\
    \x20 exchange desk TICKET\n\
    \x20 exchange help [COMMAND]\n\
    \x20 exchange --version\n\
    \n\
    exchange help COMMAND says what a command does. A file named - is standard input, or\n\
    standard output where it is written; -- ends the options. The exit status is 0 if all\n\
    is sound or done, 1 if a settlement is not sound, 2 if something is refused or fails.\n";

const SHEET: &str = "exchange sheet [--table] [--names NAMES] [--json] TICKET\n\
    \n\
    Settles a ticket and prints the sheet: who flies how much, and for how much.\n\
    \n\
    \x20 --table        headings, aligned columns, and a line for each party with totals\n\
    \x20 --names NAMES  names for the table, a line each: growers first, then pilots\n\
    \x20 --json         an object in place of the sheet\n\
    \n\
    \x20 exchange sheet examples/week.ticket\n";

const SETTLE: &str = "exchange settle TICKET SETTLEMENT\n\
    \n\
    Settles a ticket and writes the settlement, which is sound, to a file.\n\
    \n\
    \x20 exchange settle examples/week.ticket week.settlement\n";

const MARK: &str = "exchange mark [--all] [--model] [--json] TICKET SETTLEMENT..\n\
    \n\
    Says whether settlements of a ticket are sound, and if not, the first fault. Of a\n\
    single settlement it is said in words too, and a sound one follows to compare.\n\
    \n\
    \x20 --all    every fault, a line each\n\
    \x20 --model  a sound settlement after all others\n\
    \x20 --json   an object a line\n\
    \n\
    The exit status is 0 if all are sound, 1 if one is not, 2 if one is refused.\n\
    \n\
    \x20 exchange mark examples/week.ticket examples/week-sound.settlement\n";

const ACCOUNT: &str = "exchange account TICKET SETTLEMENT\n\
    \n\
    Prints what a sound settlement brings everybody, in euros, and the commissions.\n\
    The exit status is 1 if the settlement is not sound.\n\
    \n\
    \x20 exchange account examples/week.ticket examples/week-sound.settlement\n";

const UNPACK: &str = "exchange unpack [--json] FILE\n\
    \n\
    Prints a ticket or a settlement as text, with words. exchange pack reads it back.\n\
    \n\
    \x20 --json  an object in place of the text\n\
    \n\
    \x20 exchange unpack examples/two_pilots.ticket\n";

const PACK: &str = "exchange pack TEXT FILE\n\
    \n\
    Writes the ticket or the settlement of a text to a file. The text is as exchange\n\
    unpack prints it, or a plain list of its numbers; # begins a comment.\n\
    \n\
    \x20 exchange pack examples/two_pilots.list two_pilots.ticket\n";

const DRAW: &str = "exchange draw SEED N M TICKET\n\
    \n\
    Draws a ticket of N growers and M pilots from a seed of 0 to 65535, to a file.\n\
    \n\
    \x20 exchange draw 7 2 2 drawn.ticket\n";

const WINDOWS: &str = "exchange windows TICKET WINDOWS NEW_TICKET\n\
    \n\
    Writes a new ticket, in which no pair has more hours than the windows of both have\n\
    in common. WINDOWS is a text: for each grower, then each pilot, how many windows,\n\
    and the first and the closing hour of each.\n\
    \n\
    \x20 exchange windows examples/week.ticket examples/week.windows narrowed.ticket\n";

const DESK: &str = "exchange desk TICKET\n\
    \n\
    Holds the market of a ticket open, and answers calls from standard input, a line\n\
    each. The call help lists them.\n\
    \n\
    \x20 echo sheet | exchange desk examples/week.ticket\n";

fn text_of(command: Command) -> &'static str {
    match command {
        Command::Sheet => SHEET,
        Command::Settle => SETTLE,
        Command::Mark => MARK,
        Command::Account => ACCOUNT,
        Command::Unpack => UNPACK,
        Command::Pack => PACK,
        Command::Draw => DRAW,
        Command::Windows => WINDOWS,
        Command::Desk => DESK,
        Command::Help | Command::Version | Command::Unknown => ALL,
    }
}

// Prints what a command does.
pub fn help_for(rt: &HostRuntime, command: Command) -> Result<Status, Told> {
    print(rt, &text_of(command))?;
    Ok(Status::Done)
}

// Prints what the command does that the second argument names, or all commands.
pub fn help(rt: &HostRuntime) -> Result<Status, Told> {
    let mut word = [0u8; 4096];
    let length = crate::arguments::argument(rt, 2, &mut word);
    if length == 0 {
        return help_for(rt, Command::Help);
    }
    match command_of(&word[..length]) {
        Command::Unknown => Err(crate::nearest::no_command(rt, &word[..length])),
        command => help_for(rt, command),
    }
}

pub fn version(rt: &HostRuntime) -> Result<Status, Told> {
    print(rt, &"exchange 1.7.0\n")?;
    Ok(Status::Done)
}
