//! Replays a script of commands, from standard input to standard output.
#![tactic(auto)]

use arrow2_script_runner::replay;
use arrow2_streams::fault::exit_code;
use arrow2_streams::watched::Watched;
use std::process::ExitCode;

/// Ends with status 0 where the replay succeeds. Where it fails, prints the fault to standard error and ends with
/// status 1.
fn main(rt: HostRuntime) -> ExitCode {
    let mut reader = Watched::new(rt.stdin());
    let mut writer = Watched::new(rt.stdout());
    exit_code(&rt, replay(rt.alloc(), &mut reader, &mut writer))
}
