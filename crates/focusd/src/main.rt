//! The program focusd: it passes its words and its streams on, and ends with the status that is returned.
#![tactic(auto)]

use command_line::run;
use counted_io::Counted;
use std::env;
use std::process::ExitCode;

fn main(rt: HostRuntime) -> ExitCode {
    let status = run(
        &rt,
        rt.alloc(),
        env::args(&rt),
        &mut Counted::new(rt.stdin()),
        &mut Counted::new(rt.stdout()),
        &mut Counted::new(rt.stderr()),
    );
    ExitCode::from(status)
}
