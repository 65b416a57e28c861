// The desk over a stored ticket and stored lines, with every call, every refusal and every kind of line that is no call.
#![tactic(auto)]

use std::rt::Env;

fn main(rt: HostRuntime) {
    let mut name = [0u8; 4096];
    let length = rt.arg(1, &mut name).unwrap_or(0);
    let mut bytes = files::ticket_bytes();
    if let Ok(ticket) = files::read(&rt, ascii::front(&name, length), &mut bytes) {
        let _ = desk::serve(&rt, ticket);
    }
}
