// The exchange on the command line. All of it is the library `command_line`, which answers the exit status: 0, 1 or 2.
#![tactic(auto)]

use std::process::ExitCode;

fn main(rt: HostRuntime) -> ExitCode {
    ExitCode::from(u8::from(command_line::exchange_run(&rt)))
}
