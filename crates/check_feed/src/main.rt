//! Tests of `cbor_feed`. The program reads inputs in hexadecimal, one a line, feeds each one in two pieces, cut at each place in turn,
//! and a byte at a time, in both grammars, and prints behind the input what all of these feeds say, which is to be one. The inputs and
//! the answers are those of the decoders' own test: most were made by an independent reading of the profile.
#![tactic(auto)]

#[cfg(test)]
mod pieces;
mod said;
#[cfg(test)]
mod shapes;

use std::io;

fn main(rt: HostRuntime) -> io::Result<()> {
    for line in rt.lines(rt.alloc()) {
        let line = line?;
        let answer = said::line_said(rt.alloc(), line.as_str())?;
        println!(rt; "{answer}")?;
    }
    Ok(())
}
