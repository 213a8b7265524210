//! The program `scitt`: its words, real files, the key file, random bytes and standard output, handed to `run_tool`.
#![tactic(auto)]

mod ends;

use command_line::{exit_code, words_given};
use ends::status_of;
use scitt_disk::FileDisk;
use scitt_io::{FileFolder, RandomSource, StdSink};
use std::env;
use std::process::ExitCode;

/// The key file, in the current folder.
const KEY_FILE: &str = "scitt.key";

fn main(rt: HostRuntime) -> ExitCode {
    let words = words_given(rt.alloc(), env::args(&rt));
    let mut files = FileFolder::new(&rt);
    let name = String::from_str(rt.alloc(), KEY_FILE);
    let key = name.map(|name| FileDisk::private(&rt, name));
    let mut random = RandomSource::new(&rt);
    let mut out = StdSink::new(&rt);
    exit_code(status_of(rt.alloc(), words, &mut files, key, &mut random, &mut out))
}
