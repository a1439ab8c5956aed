//! A macro that is recorded, and gives its commands again.
use press_cmd::{Body, Command, Param, TextByte};
use press_macros::MacroStore;
use std::process::Abort;
use std::test::Fail;

/// Records commands in the definition that is open, and closes it.
fn record(rt: &impl Abort, store: &mut MacroStore, commands: &[Command]) -> Result<(), Fail> {
    for command in commands {
        assert!(rt; store.defining().is_some());
        store.record(command)?;
    }
    assert!(rt; store.defining().is_some());
    store.stop()?;
    Ok(())
}

/// Whether a body gives so many bytes of data, then text, and then nothing.
fn gives(body: &mut Body, length: usize) -> bool {
    body.next().is_some_and(|rows| rows.data().len() == length)
        && body
            .next()
            .is_some_and(|text| matches!(text, Command::Text(_)))
        && body.next().is_none()
}

#[test]
fn a_body_gives_long_data(rt: HostRuntime) -> Result<(), Fail> {
    let data = [0x1B; 300];
    let rows = Param::new(b'*', Some(b'b'), b"300", b'W', &data);
    let commands = [Command::Param(rows), Command::Text(TextByte::new(b'x'))];
    let mut store = MacroStore::new(rt.alloc());
    store.begin(7);
    record(&rt, &mut store, &commands)?;
    let Some(mut body) = store.body(7)? else {
        return Err(Fail::from("no macro stands under the ID"));
    };
    assert!(rt; gives(&mut body, 300));
    Ok(())
}
