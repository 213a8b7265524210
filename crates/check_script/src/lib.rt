//! Tests of `scitt_script`. The values come from `bench/scripts.py`, a program of its own in Python by the rules of `docs/profile`.
#![tactic(auto)]

#[cfg(test)]
mod playing;
#[cfg(test)]
mod vectors;
