// The gate's run of an inspection of a whole fold, the example: two hundred faces and all pairs of them that come near each other.
#![tactic(auto)]

use inspecting::inspect_command;
use std::process::ExitCode;

fn main(rt: HostRuntime) -> ExitCode {
    ExitCode::from(inspect_command(&rt))
}
