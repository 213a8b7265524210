use super::vectors::PARAMS;
use log_params::{ParamsStop, decode};
use registrar::Params;
use std::alloc::Global;
use std::test::Fail;

/// The codes of each level.
fn levels_text(alloc: Global, params: &Params) -> Result<String, Fail> {
    let mut text = String::new(alloc);
    for level in params.levels.as_slice() {
        if !text.is_empty() {
            text.push(' ')?;
        }
        let (lms, ots) = (level.lms.parameters().code, level.ots.parameters().code);
        write!(&mut text, "{lms}.{ots}")?;
    }
    Ok(text)
}

/// Each part of the parameters.
fn params_text(alloc: Global, params: &Params) -> Result<String, Fail> {
    let governor = &params.governor;
    let (name, iss) = (params.name.as_str(), governor.iss.as_str());
    let kid = hex::encode(alloc, governor.kid.as_slice())?;
    let key = hex::encode(alloc, governor.key.as_slice())?;
    let levels = levels_text(alloc, params)?;
    let (entries, block) = (params.max_entries, params.block);
    let text = format!(in alloc;
        "name={name} iss={iss} kid={kid} key={key} levels={levels} entries={entries} block={block}"
    )?;
    Ok(text)
}

/// The parameters, or why there are none.
fn said(alloc: Global, bytes: &[u8]) -> Result<String, Fail> {
    match decode(alloc, bytes) {
        Ok(params) => params_text(alloc, &params),
        Err(ParamsStop::Cbor(fault)) => {
            Ok(format!(in alloc; "Cbor {:?} at {}", fault.why, fault.at)?)
        }
        Err(ParamsStop::BadParams) => Ok(String::from_str(alloc, "BadParams")?),
        Err(ParamsStop::OutOfMemory) => Ok(String::from_str(alloc, "OutOfMemory")?),
    }
}

#[test]
fn parameter_files_are_read_and_refused_so(rt: HostRuntime) -> Result<(), Fail> {
    let alloc = rt.alloc();
    for row in PARAMS {
        let (bytes, wanted) = row.split_once("|").ok_or("no bar")?;
        let bytes = hex::decode(alloc, bytes)?;
        let text = said(alloc, bytes.as_slice())?;
        assert_eq!(rt; text.as_str(), wanted, "{row}");
    }
    Ok(())
}
