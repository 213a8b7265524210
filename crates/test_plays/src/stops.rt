// Why there is no log, as text.
use log_replay::Why;
use registrar::RegistrarStop;
use std::alloc::Global;
use std::test::Fail;

fn told_why(why: Why) -> &'static str {
    match why {
        Why::Form => "form",
        Why::Order => "order",
        Why::Header => "header",
        Why::Reserve => "reserve",
        Why::EntryForm => "entry form",
        Why::Moment => "moment",
        Why::Verdict => "verdict",
        Why::Full => "full",
        Why::Index => "index",
        Why::Signature => "signature",
    }
}

/// Why a log wasn't made or loaded, with its numbers, in a line; keys in hexadecimal.
pub fn told_stop(alloc: Global, why: RegistrarStop) -> Result<String, Fail> {
    let mut text = match why {
        RegistrarStop::BadParams => String::from_str(alloc, "bad params")?,
        RegistrarStop::LogExists => String::from_str(alloc, "log exists")?,
        RegistrarStop::NoLog => String::from_str(alloc, "no log")?,
        RegistrarStop::Short(at) => format!(in alloc; "short {at}")?,
        RegistrarStop::BadLog { number, why } => {
            let why = told_why(why);
            format!(in alloc; "bad log {number} {why}")?
        }
        RegistrarStop::WrongKey { kept, derived } => {
            let kept = hex::encode(alloc, kept.as_slice())?;
            let derived = hex::encode(alloc, derived.as_slice())?;
            format!(in alloc; "wrong key {kept} {derived}")?
        }
        RegistrarStop::DiskFault => String::from_str(alloc, "disk fault")?,
        RegistrarStop::OutOfMemory => String::from_str(alloc, "no memory")?,
    };
    text.push('\n')?;
    Ok(text)
}
