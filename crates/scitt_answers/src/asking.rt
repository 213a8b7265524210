// What a request asks for.
ghost use Rattle.std.specs.Prelude.{◌≡◌};
ghost use Rattle.scitt_answers.specs.Routes.{table};
ghost use Rattle.scitt_answers.specs.Asking.{read_by as read_asked, register_by as register_asked, is_head as heads, ask_of as asked, manner_of as manner_asked};

use crate::problem::Problem;
use crate::replying::Manner;
use crate::routes::{Row, Target, find, path_of};
use http_wire::{Allow, Method, Request};
use matchit::Router;

/// What a GET reads of the log.
#[derive(Clone, Copy, Debug, PartialEq, Eq)]
pub enum Reading {
    /// The receipt of the entry at this index.
    Receipt(u32),
    /// The logged form of the entry at this index.
    Statement(u32),
    /// The consistency receipt of this older size.
    Consistency(u32),
    /// The log's keys.
    Keys,
    /// The policy document in force.
    Policy,
}

/// What a request asks for.
#[derive(Clone, Copy, Debug, PartialEq, Eq)]
pub enum Ask {
    /// Nothing that the service does.
    Refuse(Problem),
    /// Something of the log.
    Read(Reading),
    /// A registration of the statement that its body is.
    Register,
}

fn read_by(method: Method, reading: Reading) -> Ask
    ensures { result ≡ read_asked method reading }
{
    match method {
        Method::Get | Method::Head => Ask::Read(reading),
        _ => Ask::Refuse(Problem::BadMethod {
            allowed: Allow::Get,
        }),
    }
}

fn register_by(method: Method, cose: bool) -> Ask
    ensures { result ≡ register_asked method cose }
{
    match method {
        Method::Post => {
            if cose {
                Ask::Register
            } else {
                Ask::Refuse(Problem::BadType)
            }
        }
        _ => Ask::Refuse(Problem::BadMethod {
            allowed: Allow::Post,
        }),
    }
}

/// What a request asks for: by its path, then by its method, then, of a POST alone, by the type of its body. A HEAD asks for what a
/// GET does (RFC 9110, 9.3.2).
pub fn ask_of(router: &Router<Row>, request: &Request) -> Ask
    requires { router.now ≡ table }
    ensures { result ≡ asked request.now }
{
    let method = request.method;
    match find(router, path_of(request.target.as_str())) {
        Target::Nowhere => Ask::Refuse(Problem::NoRoute),
        Target::Entries => register_by(method, request.cose),
        Target::Entry(index) => read_by(method, Reading::Receipt(index)),
        Target::Statement(index) => read_by(method, Reading::Statement(index)),
        Target::Consistency(old) => read_by(method, Reading::Consistency(old)),
        Target::Keys => read_by(method, Reading::Keys),
        Target::Policy => read_by(method, Reading::Policy),
    }
}

fn is_head(method: Method) -> bool
    ensures { result ≡ heads method }
{
    match method {
        Method::Head => true,
        _ => false,
    }
}

/// The manner of the answer to a request. Behind the last one of a connection, and where the request asks so, the connection ends.
pub(crate) fn manner_of(is_last: bool, request: &Request) -> Manner
    ensures { result ≡ manner_asked is_last request.now }
{
    Manner {
        close: is_last || request.close,
        head_only: is_head(request.method),
    }
}
