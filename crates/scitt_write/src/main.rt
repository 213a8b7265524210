//! The program `scitt_write`: its words, real files and standard output, handed to `run_write`.
#![tactic(auto)]

mod ends;

use command_line::{exit_code, words_given};
use ends::status_of;
use scitt_io::{FileFolder, StdSink};
use std::env;
use std::process::ExitCode;

fn main(rt: HostRuntime) -> ExitCode {
    let words = words_given(rt.alloc(), env::args(&rt));
    let mut files = FileFolder::new(&rt);
    let mut out = StdSink::new(&rt);
    exit_code(status_of(rt.alloc(), words, &mut files, &mut out))
}
