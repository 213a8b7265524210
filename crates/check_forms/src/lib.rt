//! Tests of `scitt_forms`. Forms, bytes and refusals were made by a program of its own, in Python, with its own CBOR and
//! by the rules of `docs/FORMS.md`.
#![tactic(auto)]

#[cfg(test)]
mod forms;
#[cfg(test)]
mod limits;
#[cfg(test)]
mod shown;
#[cfg(test)]
mod vectors;
