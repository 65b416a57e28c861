// Reads a ticket from standard input and prints it settled, or its refusal. What the system fails at is told on standard error, and then
// nothing is printed.
#![tactic(auto)]

// One byte more than the longest ticket has, so that a longer input is refused as one that has bytes left.
fn ticket_bytes() -> [u8; 2084] {
    [0; 2084]
}

fn print(rt: &HostRuntime, ticket: &[u8]) {
    let mut text = [0u8; sheets::PAGE];
    if let Ok(count) = sheets::sheet(ticket, &mut text) {
        if let Err(error) = rt.write_all(ascii::front(&text, count)) {
            files::tell(rt, b"sheet: standard output", error);
        }
    }
}

fn main(rt: HostRuntime) {
    let mut ticket = ticket_bytes();
    match files::fill(&mut rt.stdin(), &mut ticket) {
        Ok(length) => print(&rt, ascii::front(&ticket, length)),
        Err(error) => files::tell(&rt, b"sheet: standard input", error),
    }
}
