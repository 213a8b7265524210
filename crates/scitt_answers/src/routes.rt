// The six routes, and the target of a path.
ghost use Rattle.std.specs.Prelude.{◌≡◌, IfOk, IfErr};
ghost use Rattle.std.specs.List.{list_all};
ghost use Rattle.std.specs.Char.{is_ascii};
ghost use Rattle.matchit.specs.Params.{AllText, walk};
ghost use Rattle.scitt_answers.specs.RouteLaws.{PathsFit, PlainAlone};
ghost use Rattle.scitt_answers.specs.Routes.{path_of as path_in, is_plain as plain, number_at as number_in_place, target_at, table, target_of};

use crate::numbers::number_of;
use matchit::{InsertError, Params, Router};
use std::alloc::Global;

/// The rows of the routes.
#[derive(Clone, Copy, Debug, PartialEq, Eq)]
pub enum Row {
    Entries,
    Entry,
    Statement,
    Consistency,
    Keys,
    Policy,
}

/// What a path asks for.
#[derive(Clone, Copy, Debug, PartialEq, Eq)]
pub enum Target {
    Entries,
    Entry(u32),
    Statement(u32),
    Consistency(u32),
    Keys,
    Policy,
    Nowhere,
}

/// The six routes. It fails for want of memory alone.
pub fn new_router(alloc: Global) -> Result<Router<Row>, InsertError>
    ensures routes { IfOk result (λ router. router ≡ table) }
    ensures memory { IfErr result (λ why. why ≡ InsertError.OutOfMemory) }
{
    let mut router = Router::new(alloc);
    router.insert("/entries", Row::Entries)?;
    router.insert("/entries/{index}", Row::Entry)?;
    router.insert("/entries/{index}/statement", Row::Statement)?;
    router.insert("/consistency/{old}", Row::Consistency)?;
    router.insert("/.well-known/scitt-keys", Row::Keys)?;
    router.insert("/policy", Row::Policy)?;
    Ok(router)
}

/// A law: where a path has a route, the route's pattern spells the path; and only a path of ASCII has a target, whether or not that is tested.
pub fn route_laws()
    ensures fit { PathsFit }
    ensures plain { PlainAlone }
{}

/// The path of a target: what stands before its first question mark, or all of it.
pub(crate) fn path_of(target: &str) -> &str
    ensures { result.now ≡ path_in target.now }
{
    match target.split_once('?') {
        Some((path, _)) => path,
        None => target,
    }
}

fn is_plain(bytes: &[u8]) -> bool
    ensures { result ≡ plain bytes.now }
{
    bytes.iter().all(|b| b.is_ascii())
}

fn number_at(params: &Params<'_, '_>, name: &str) -> Option<u32>
    requires { AllText (walk params.now.pattern.now params.now.text.now params.now.path.now params.now.names.now 0 0) }
    ensures { result ≡ number_in_place name.now (walk params.now.pattern.now params.now.text.now params.now.path.now params.now.names.now 0 0) }
{
    match params.get(name) {
        Some(part) => number_of(part.as_bytes()),
        None => None,
    }
}

fn at_row(row: Row, params: &Params<'_, '_>) -> Target
    requires { AllText (walk params.now.pattern.now params.now.text.now params.now.path.now params.now.names.now 0 0) }
    ensures { result ≡ target_at row (walk params.now.pattern.now params.now.text.now params.now.path.now params.now.names.now 0 0) }
{
    match row {
        Row::Entries => Target::Entries,
        Row::Entry => match number_at(params, "index") {
            Some(n) => Target::Entry(n),
            None => Target::Nowhere,
        },
        Row::Statement => match number_at(params, "index") {
            Some(n) => Target::Statement(n),
            None => Target::Nowhere,
        },
        Row::Consistency => match number_at(params, "old") {
            Some(n) => Target::Consistency(n),
            None => Target::Nowhere,
        },
        Row::Keys => Target::Keys,
        Row::Policy => Target::Policy,
    }
}

/// What a path asks for. The path is the target up to its first question mark.
pub fn find(router: &Router<Row>, path: &str) -> Target
    requires { router.now ≡ table }
    ensures { result ≡ target_of path.now }
{
    if !is_plain(path.as_bytes()) {
        return Target::Nowhere;
    }
    match router.at(path) {
        Ok(found) => at_row(*found.value, &found.params),
        Err(_) => Target::Nowhere,
    }
}
