//! HTTP/1.1 as the service speaks it: the requests of the bytes of a link, and the bytes of an answer.
#![tactic(auto)]

mod answer;
mod digits;
mod fields;
mod gather;
mod head;
mod laws;
mod request;
mod response;
mod tokens;
mod wire;

pub use answer::{Allow, Answer, BodyKind};
pub use digits::decimal_of;
pub use laws::{phrases_stand, request_laws};
pub use request::{HeadFault, Method, Next, Request, Stop};
pub use response::write_response;
pub use wire::Wire;
