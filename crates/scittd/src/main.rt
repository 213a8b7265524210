//! The program `scittd`: a transparency service on a file and an address.
#![tactic(auto)]

mod fault;
mod files;
mod given;
mod opening;
mod params;
mod serving;
mod starting;
mod timed;

use fault::StartFault;
use serving::serve;
use starting::start;
use std::env;
use std::process::ExitCode;

fn main(rt: HostRuntime) -> ExitCode {
    match start(&rt, rt.alloc(), env::args(&rt)) {
        Ok(mut server) => {
            serve(&rt, rt.alloc(), &mut server);
            ExitCode::SUCCESS
        }
        Err(fault) => {
            let _ = println!(rt; "{fault}");
            ExitCode::from(fault.status())
        }
    }
}
