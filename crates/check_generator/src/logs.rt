// Logs that are made. The numbers and the roots are those of `bench/generate.py`, a program of its own in Python.
use generator::generate;
use std::test::Fail;

#[test]
fn makes_a_log(rt: HostRuntime) -> Result<(), Fail> {
    let made = generate(rt.alloc(), 10)?;
    assert_eq!(rt; (made.admitted, made.denied, made.entries), (9, 1, 10));
    let root = hex::encode(rt.alloc(), made.root.as_slice())?;
    assert_eq!(rt;
        root.as_str(),
        "998564912c2cbc8510194f459e4d3c2a052d9d76301d9a338d53a8a2f23901a4"
    );
    Ok(())
}

#[test]
fn makes_a_longer_log(rt: HostRuntime) -> Result<(), Fail> {
    let made = generate(rt.alloc(), 200)?;
    assert_eq!(rt; (made.admitted, made.denied, made.entries), (136, 64, 137));
    let root = hex::encode(rt.alloc(), made.root.as_slice())?;
    assert_eq!(rt;
        root.as_str(),
        "1eb6fb7aff894bec3c2db22e49d416d297f5db3644ea1c9bfbd35fe3d244eb9f"
    );
    Ok(())
}
