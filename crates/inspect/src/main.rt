// inspect [FOLDER]: inspects the fold plan in a folder, a sheet, its step and the pairs of faces to look at.
#![tactic(auto)]

use inspecting::inspect_command;
use std::process::ExitCode;

fn main(rt: HostRuntime) -> ExitCode {
    ExitCode::from(inspect_command(&rt))
}
