// The gate's run of an inspection from two frames.
#![tactic(auto)]

use inspecting::inspect_command;
use std::process::ExitCode;

fn main(rt: HostRuntime) -> ExitCode {
    ExitCode::from(inspect_command(&rt))
}
