//! The answers of the service: what a request asks for, the turns on the log that it takes, the answer to it, and a connection served on one thread.
#![tactic(auto)]

mod answering;
mod asking;
mod gate;
mod laws;
mod local;
mod numbers;
mod problem;
mod replying;
mod routes;
mod serving;
mod statements;
mod turns;

pub use asking::{Ask, Reading, ask_of};
pub use gate::{Gate, NoGate};
pub use laws::session_laws;
pub use local::{Local, serve_local};
pub use problem::Problem;
pub use routes::{Row, Target, find, new_router, route_laws};
pub use serving::{SessionEnd, serve};
pub use turns::Turns;
