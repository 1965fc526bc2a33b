// Scripts that are read, scripts that are malformed, and lines.
use crate::error::ScriptError;
use crate::line::Line;
use crate::read_script;
use machine::answer::{Answer, Refusal};
use machine::event::Event;
use std::alloc::Global;
use std::test::Fail;

/// A vector of two bytes, then a tick to 5 and a store of 7 at 258 by partition 1.
const TICK_AND_STORE: [u8; 22] = *b"\x02\0AB\x04\0\x20\0\x05\0\0\0\x06\0\x23\0\x01\x02\x01\0\0\x07";

#[test]
fn reads_events(rt: HostRuntime) -> Result<(), Fail> {
    let script = read_script(rt.alloc(), &TICK_AND_STORE)?;
    assert!(rt; script.vector.len() == 2 && script.history.len() == 2);
    let Event::Tick { time } = script.history[0].event else {
        return Err(Fail::new("no tick"));
    };
    let Event::Store {
        partition,
        byte,
        offset,
    } = script.history[1].event
    else {
        return Err(Fail::new("no store"));
    };
    assert!(rt; time == 5 && partition == 1 && offset == 258 && byte == 7);
    Ok(())
}

fn is_malformed(heap: Global, bytes: &[u8]) -> bool {
    match read_script(heap, bytes) {
        Err(ScriptError::Malformed) => true,
        Err(ScriptError::OutOfMemory) | Ok(_) => false,
    }
}

#[test]
fn refuses_malformed(rt: HostRuntime) {
    let heap = rt.alloc();
    assert!(rt; is_malformed(heap, &[]), "no length");
    assert!(rt; is_malformed(heap, &[1, 0]), "a cut vector");
    assert!(rt; is_malformed(heap, &[0, 0, 1, 0, 37]), "a cut head");
    assert!(rt; is_malformed(heap, &TICK_AND_STORE[0..21]), "a cut body");
    assert!(rt; is_malformed(heap, &[0, 0, 1, 0, 39, 0, 0]), "another kind");
    assert!(rt;
        is_malformed(heap, &[0, 0, 2, 0, 37, 0, 0, 0]),
        "another length"
    );
    assert!(rt; is_malformed(heap, &[0; 32_769]), "too long");
    assert!(rt; !is_malformed(heap, &[0, 0]), "no event");
}

#[test]
fn shows_answers(rt: HostRuntime) -> Result<(), Fail> {
    let refused = Line(Err(Refusal::NotOnProcessor)).to_string(rt.alloc())?;
    assert_eq!(rt; refused.as_str(), "-9 0 0");
    let time = Line(Ok(Answer::Time(1_000))).to_string(rt.alloc())?;
    assert_eq!(rt; time.as_str(), "0 1000 0");
    Ok(())
}
