// crit: the labels that it lists are understood and stand in the protected map (RFC 9052, 3.1).
ghost use Rattle.std.specs.Prelude.{◌≡◌};
ghost use Rattle.cbor_core.specs.declared.tree.Node.{out-Node};
ghost use Rattle.cose_sign1.specs.Labels.{value_at};
ghost use Rattle.cose_sign1.specs.Headers.{Says, all_listed, crit_in, crit_fine, crit_fault};
ghost use Rattle.cose_sign1.specs.Understood.{Tells};

use crate::labels::{find, has_label};
use crate::stops::Sign1Stop;
use cbor_core::{Item, Node};

/// Which of the labels that crit may list stand in the protected map, asked for once each: a map and a list may be long.
#[derive(Drop)]
struct Understood {
    alg: bool,
    crit: bool,
    content_type: bool,
    kid: bool,
    cwt_claims: bool,
    vds: bool,
    vdp: bool,
}

fn find_understood(protected: &[(Item, Item)]) -> Understood
    ensures { Tells protected.now result }
{
    Understood {
        alg: has_label(1, protected),
        crit: has_label(2, protected),
        content_type: has_label(3, protected),
        kid: has_label(4, protected),
        cwt_claims: has_label(15, protected),
        vds: has_label(395, protected),
        vdp: has_label(396, protected),
    }
}

fn are_listed(protected: &[(Item, Item)], items: &[Item]) -> bool
    ensures { result ≡ all_listed protected.now items.now }
{
    let here = find_understood(protected);
    for item in items {
        let listed = match &item.node {
            Node::Uint(1) => here.alg,
            Node::Uint(2) => here.crit,
            Node::Uint(3) => here.content_type,
            Node::Uint(4) => here.kid,
            Node::Uint(15) => here.cwt_claims,
            Node::Uint(395) => here.vds,
            Node::Uint(396) => here.vdp,
            _ => false,
        };
        if !listed {
            return false;
        }
    }
    true
}

fn is_crit(protected: &[(Item, Item)], node: &Node) -> bool
    ensures { result ≡ crit_in protected.now (out-Node node.now) }
{
    match node {
        Node::Array(items) => items.len() > 0 && are_listed(protected, items.as_slice()),
        _ => false,
    }
}

fn is_crit_fine(protected: &[(Item, Item)]) -> bool
    ensures { result ≡ crit_fine protected.now (value_at 2 protected.now) }
{
    match find(2, protected) {
        Some(value) => is_crit(protected, &value.node),
        None => true,
    }
}

/// What is wrong with crit (RFC 9052, 3.1).
pub fn check_crit(protected: &[(Item, Item)], unprotected: &[(Item, Item)]) -> Result<(), Sign1Stop>
    ensures { Says result (crit_fault protected.now unprotected.now) }
{
    if has_label(2, unprotected) || !is_crit_fine(protected) {
        return Err(Sign1Stop::BadCrit);
    }
    Ok(())
}
