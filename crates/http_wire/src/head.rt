ghost use Rattle.std.specs.Prelude.{◌≡◌, ℕ, ◌+◌, ◌-◌, ◌<◌, ◌≤◌, ◌⊎◌, List, length, take, drop, IfOk, IfErr, OnOk, OnErr, IsErrOf, is_some, true, false};
ghost use Rattle.httparse.specs.Spans.{IsRequestOf, IsRequestWithin};
ghost use Rattle.http_wire.specs.Taking.{Gathers, HasReadCause, Fails};
ghost use Rattle.http_wire.specs.declared.request.Stop.TheVariants as stop;

use crate::gather::read_more;
use crate::request::{HeadFault, Stop};
use httparse::Status;
use httparse::spans::{HeaderSpan, RequestSpans, parse_request};
use scitt_io::Source;

/// The longest head.
pub const HEAD_LIMIT: usize = 8192;

/// Reads until a whole head is held, and says where its parts are.
pub fn read_head<L: Source>(
    held: &mut Vec<u8>,
    link: &mut L,
    headers: &mut [HeaderSpan],
) -> Result<RequestSpans, Stop>
    requires room { length headers.old ≡ 32 }
    requires short { length held.old.items ≤ 8192 }
    ensures gathers { OnOk result (Gathers held.old.items held.new.items (L.left link.old) (L.left link.new)) }
    ensures found { IfOk result (IsRequestOf held.new.items headers.new) }
    ensures within { IfOk result (IsRequestWithin held.new.items headers.new) }
    ensures short { length held.new.items ≤ 8192 }
    ensures stops { IfErr result (Fails held.old.items (L.left link.old) (L.left link.new)) }
    ensures telling { is_some (L.left link.new) ≡ is_some (L.left link.old) }
    ensures cause { HasReadCause (L.faults link.old) (L.faults link.new) (IsErrOf result Stop.ReadFault) }
    ensures keeps { L.read_keeps link.old link.new }
{
    loop {
        match parse_request(held.as_slice(), headers) {
            Ok(Status::Complete(head)) => return Ok(head),
            Ok(Status::Partial) => {}
            Err(_) => return Err(Stop::Refused(HeadFault::BadHead, false)),
        }
        if held.len() == HEAD_LIMIT {
            return Err(Stop::Refused(HeadFault::HeadTooLong, false));
        }
        let room = HEAD_LIMIT - held.len();
        if !read_more(held, link, room)? {
            return Err(if held.is_empty() {
                Stop::Ended
            } else {
                Stop::CutShort
            });
        }
    }
}
