// The gate's run of an inspection with refused pairs among good ones, which are stored.
#![tactic(auto)]

use inspecting::inspect_command;
use std::process::ExitCode;

fn main(rt: HostRuntime) -> ExitCode {
    ExitCode::from(inspect_command(&rt))
}
