// The limits of documents, each at its number and one past it.

use super::forms::said;
use cbor_core::Bytes;
use scitt_forms::{FormStop, write_policy};
use std::alloc::{AllocError, Global};
use std::test::Fail;
use write_params::write_params;
use write_trust::write_trust;

fn add_key(text: &mut String) -> Result<(), AllocError> {
    text.push_str("key = \"")?;
    for _ in 0..60 {
        text.push_str("00")?;
    }
    text.push_str("\"\n")
}

fn add_holders(text: &mut String, list: &str, count: u16) -> Result<(), Fail> {
    for number in 0..count {
        write!(text, "[[{list}]]\niss = \"{number}\"\n")?;
        add_key(text)?;
    }
    Ok(())
}

fn add_rules(text: &mut String, count: u16) -> Result<(), Fail> {
    for number in 0..count {
        let id = u32::from(number) + 100;
        write!(text, "[[rule]]\nid = {id}\nadmit = {{ all = [] }}\n")?;
    }
    Ok(())
}

// One rule whose condition is All of so many.
fn add_conditions(text: &mut String, count: u16) -> Result<(), Fail> {
    text.push_str("[[rule]]\nid = 50000\nadmit = { all = [")?;
    for _ in 0..count {
        text.push_str("{ first_of_subject = true }, ")?;
    }
    text.push_str("] }\n")?;
    Ok(())
}

// `ok`, or the refusal.
fn whether(alloc: Global, written: Result<Bytes, FormStop>) -> Result<String, Fail> {
    match written {
        Ok(_bytes) => Ok(String::from_str(alloc, "ok")?),
        other => said(alloc, other),
    }
}

// Governors, issuers, rules and conditions of one rule, and what is said.
const POLICIES: &[(u16, u16, u16, u16, &str)] = &[
    (16, 256, 0, 4095, "ok"),
    (1, 0, 256, 0, "ok"),
    (0, 0, 0, 0, "governor limits"),
    (17, 0, 0, 0, "governor limits"),
    (1, 257, 0, 0, "issuer limits"),
    (1, 0, 257, 0, "rule limits"),
    (1, 0, 1, 4095, "rule limits"),
    (1, 0, 0, 4096, "form long"),
    (4097, 0, 0, 0, "form long"),
];

#[test]
fn policies_end_at_their_limits(rt: HostRuntime) -> Result<(), Fail> {
    let alloc = rt.alloc();
    for (governors, issuers, rules, conditions, wanted) in POLICIES {
        let mut text = String::from_str(alloc, "version = 1\n")?;
        add_holders(&mut text, "governor", *governors)?;
        add_holders(&mut text, "issuer", *issuers)?;
        add_rules(&mut text, *rules)?;
        if *conditions > 0 {
            add_conditions(&mut text, *conditions)?;
        }
        let text = whether(alloc, write_policy(alloc, text.as_str()))?;
        assert_eq!(rt;
            text.as_str(),
            *wanted,
            "{governors} {issuers} {rules} {conditions}"
        );
    }
    Ok(())
}

fn add_services(text: &mut String, count: u16) -> Result<(), Fail> {
    for number in 0..count {
        write!(text, "[[service]]\nname = \"{number}\"\n")?;
        add_key(text)?;
    }
    Ok(())
}

// Services and issuers, and what is said.
const TRUSTS: &[(u16, u16, &str)] = &[
    (1, 0, "ok"),
    (64, 256, "ok"),
    (0, 256, "service limits"),
    (65, 0, "service limits"),
    (64, 257, "issuer limits"),
    (0, 257, "service limits"),
    (4096, 0, "service limits"),
    (4097, 0, "form long"),
    (1, 4097, "form long"),
];

#[test]
fn trust_files_end_at_their_limits(rt: HostRuntime) -> Result<(), Fail> {
    let alloc = rt.alloc();
    for (services, issuers, wanted) in TRUSTS {
        let mut text = String::new(alloc);
        add_services(&mut text, *services)?;
        add_holders(&mut text, "issuer", *issuers)?;
        let text = whether(alloc, write_trust(alloc, text.as_str()))?;
        assert_eq!(rt; text.as_str(), *wanted, "{services} {issuers}");
    }
    Ok(())
}

// `name`, a text of so many bytes.
fn add_name(text: &mut String, bytes: u32) -> Result<(), AllocError> {
    text.push_str("name = \"")?;
    for _ in 0..bytes {
        text.push('a')?;
    }
    text.push_str("\"\n")
}

// The bytes of a name, and what is said of a trust file and of parameters.
const NAMES: &[(u32, &str, &str)] = &[
    (128, "ok", "ok"),
    (129, "ok", "name limits"),
    (4_198_400, "ok", "name limits"),
    (4_198_401, "form long", "form long"),
];

#[test]
fn names_end_at_their_limits(rt: HostRuntime) -> Result<(), Fail> {
    let alloc = rt.alloc();
    for (bytes, of_trust, of_params) in NAMES {
        let mut text = String::from_str(alloc, "[[service]]\n")?;
        add_name(&mut text, *bytes)?;
        add_key(&mut text)?;
        let text = whether(alloc, write_trust(alloc, text.as_str()))?;
        assert_eq!(rt; text.as_str(), *of_trust, "{bytes}");
        let mut text = String::new(alloc);
        add_name(&mut text, *bytes)?;
        text.push_str(
            "levels = \"h5w8\"\nmax_entries = 1\nblock = 1\n[governor]\niss = \"gov\"\n",
        )?;
        add_key(&mut text)?;
        let text = whether(alloc, write_params(alloc, text.as_str()))?;
        assert_eq!(rt; text.as_str(), *of_params, "{bytes}");
    }
    Ok(())
}
