//! Tests of `cbor_core`. The program reads inputs in hexadecimal, one a line, and prints behind each what the strict decoder
//! and the wide one say of all of it. The 220 inputs at the head of its stored run, with their answers, were made by an
//! independent reading of the profile, and not by this program. Those behind them are heads at the edges of their sizes,
//! heads with two reasons of which the first counts, and keys, with answers by hand.
#![tactic(auto)]

#[cfg(test)]
mod answers;
#[cfg(test)]
mod hostile;
mod said;

use std::io;

fn main(rt: HostRuntime) -> io::Result<()> {
    for line in rt.lines(rt.alloc()) {
        let line = line?;
        let answer = said::line_said(rt.alloc(), line.as_str())?;
        println!(rt; "{answer}")?;
    }
    Ok(())
}
