//! Scripts in, answers out.
use fleet_script::{ShellFault, run};
use script_pipes::Watched;
use std::sync::Wait;
use std::thread::Threads;

/// The answers to a script.
pub fn answers_to(
    rt: &(impl AllocGlobal + Threads + Wait + Sync),
    script: &[u8],
) -> Result<Vec<u8>, ShellFault> {
    let mut source = Watched::new(script);
    let mut sink = Watched::new(Vec::new(rt.alloc()));
    run(rt, &mut source, &mut sink)?;
    Ok(sink.into_inner())
}
