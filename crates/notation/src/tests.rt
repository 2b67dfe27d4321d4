// What allocates, on ordinary texts: that memory was really wanting no contract can say.
use super::write;
use drawing::{ReadError, read};
use std::alloc::{AllocError, Global};
use std::test::Fail;

// The text that is written for what this one draws, or why it can't be read.
fn again(heap: Global, text: &[u8]) -> Result<String, AllocError> {
    match read(heap, text) {
        Ok(d) => match write(heap, &d) {
            Ok(s) => Ok(s),
            Err(_) => String::from_str(heap, "memory"),
        },
        Err(ReadError::Line(n)) => format!(in heap; "line {n}"),
        Err(ReadError::Memory) => String::from_str(heap, "memory"),
    }
}

// The numbers of a text's plant.
fn numbers(heap: Global, text: &[u8]) -> Result<(u64, Vec<u16>, Vec<u16>), Fail> {
    let Ok(d) = read(heap, text) else {
        return Err(Fail::new("no drawing"));
    };
    Ok((d.states(), d.arrow_numbers(heap)?, d.event_numbers(heap)?))
}

#[test]
fn writes(rt: HostRuntime) -> Result<(), Fail> {
    let heap = rt.alloc();
    assert_eq!(rt;
        again(
            heap,
            b"0 break 1\r\n\t# none\n0 one 0 # round\nbreak fault\none shows 1\none shows 01",
        )?
        .as_str(),
        "break shows 0\nbreak fault\none shows 1\n0 break 1\n0 one 0\n"
    );
    assert_eq!(rt; again(heap, b"")?.as_str(), "");
    Ok(())
}

#[test]
fn refuses(rt: HostRuntime) -> Result<(), Fail> {
    let heap = rt.alloc();
    assert_eq!(rt; again(heap, b"0 a 1\n\n0 a\n")?.as_str(), "line 2");
    assert_eq!(rt; again(heap, b"a shows 0\na shows 1")?.as_str(), "line 1");
    assert_eq!(rt; again(heap, b"0 a 1\n# \xFF\n0")?.as_str(), "line 1");
    assert_eq!(rt; again(heap, b"0 nothing 1")?.as_str(), "line 0");
    assert_eq!(rt; again(heap, b"1000000000000000000 a 0")?.as_str(), "line 0");
    Ok(())
}

#[test]
fn counts(rt: HostRuntime) -> Result<(), Fail> {
    let heap = rt.alloc();
    let (states, arrows, events) = numbers(heap, b"7 a 99999\nb shows 70000\nb fault")?;
    assert_eq!(rt; states, 100000);
    assert!(rt; arrows.as_slice() == [7, 0, 65535].as_slice());
    assert!(rt; events.as_slice() == [0, 0, 65535, 1].as_slice());
    Ok(())
}
