//! The effects of calls on finite maps by handle, by themselves.

use ctrie_base::HashKind;
use history::{Call, World, reply_of};
use std::process::Abort;
use std::test::Fail;

fn put(handle: u16, value: u64) -> Call {
    Call::Put {
        handle,
        key: 9,
        value,
    }
}

fn get(handle: u16) -> Call {
    Call::Get { handle, key: 9 }
}

/// The call's answer is the one that is wanted, as `Debug` writes it.
fn answers(
    rt: &(impl Abort + AllocGlobal),
    world: &mut World,
    call: Call,
    opens: Option<u16>,
    wanted: &str,
) -> Result<(), Fail> {
    let reply = reply_of(world, &call, opens, HashKind::Wide)?;
    let text = format!(in rt.alloc(); "{reply:?}")?;
    assert_eq!(rt; text.as_str(), wanted, "{call:?}");
    Ok(())
}

/// A new world has one handle, writable and empty. A frozen copy keeps what was there; a call that has no effect is answered
/// nothing.
#[test]
fn calls_have_effects(rt: HostRuntime) -> Result<(), Fail> {
    let (now, frozen) = (0, 1);
    let mut world = World::new(rt.alloc())?;
    for (call, opens, wanted) in [
        (get(now), None, "Some(Found(None))"),
        (put(now, 90), None, "Some(Found(None))"),
        (
            Call::Freeze { handle: now },
            Some(frozen),
            "Some(Opened(1))",
        ),
        (put(now, 91), None, "Some(Found(Some(90)))"),
        (put(frozen, 92), None, "None"),
        (get(frozen), None, "Some(Found(Some(90)))"),
        (Call::Count { handle: frozen }, None, "Some(Count(1))"),
        (Call::Close { handle: frozen }, None, "Some(Closed)"),
        (get(frozen), None, "None"),
    ] {
        answers(&rt, &mut world, call, opens, wanted)?;
    }
    Ok(())
}
