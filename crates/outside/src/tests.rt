use crate::{
    DirShelf, FileList, LoadFault, MemShelf, MemSink, Numbers, Shelf, Sink, StdSink, put_all,
};
use std::alloc::{AllocError, Global};
use std::fs;
use std::test::Fail;

fn numbers(alloc: Global, items: &[u64]) -> Result<Numbers, AllocError> {
    let mut numbers = Numbers::new(alloc);
    for item in items {
        numbers.push(*item)?;
    }
    Ok(numbers)
}

// Two files, and a second one of the first name.
fn files(alloc: Global) -> Result<FileList, AllocError> {
    let mut files = FileList::new(alloc);
    files.push("one", b"four")?;
    files.push("two", b"seventh")?;
    files.push("one", b"other")?;
    files.push("none", b"")?;
    Ok(files)
}

#[test]
fn lists(rt: HostRuntime) -> Result<(), Fail> {
    let empty = Numbers::new(rt.alloc());
    assert!(rt; empty.is_empty() && empty.get(0).is_none());
    let numbers = numbers(rt.alloc(), &[3, 3, 8])?;
    assert_eq!(rt; numbers.len(), 3);
    assert_eq!(rt; numbers.get(2), Some(8));
    assert_eq!(rt; numbers.get(3), None);
    assert!(rt; FileList::new(rt.alloc()).is_empty());
    let files = files(rt.alloc())?;
    assert_eq!(rt; files.len(), 4);
    assert!(rt; files.name(1).is_some_and(|name| name == "two"));
    assert!(rt; files.name(4).is_none());
    Ok(())
}

#[test]
fn loads(rt: HostRuntime) -> Result<(), Fail> {
    let cases: [(&str, u64, Result<&[u8], LoadFault>); 9] = [
        ("one", 4, Ok(b"four")),
        ("two", 7, Ok(b"seventh")),
        // Longer than the room by one byte.
        ("two", 6, Err(LoadFault::TooLong)),
        ("three", 100, Err(LoadFault::Failed)),
        ("none", 0, Ok(b"")),
        // From here on each load has a listed number.
        ("one", 4, Err(LoadFault::Failed)),
        ("one", 3, Err(LoadFault::TooLong)),
        ("three", 0, Err(LoadFault::Failed)),
        ("none", 0, Err(LoadFault::Failed)),
    ];
    let mut shelf = MemShelf::new(files(rt.alloc())?, numbers(rt.alloc(), &[6, 7, 8, 9])?);
    for (name, room, wanted) in cases {
        let mut into = Vec::from_slice(rt.alloc(), b"> ")?;
        let answer = shelf.load(name, &mut into, room);
        assert!(rt; into.starts_with(b"> "), "{name} at {room}");
        match wanted {
            Ok(text) => {
                assert!(rt; answer.is_ok(), "{name} at {room}");
                assert!(rt;
                    into.ends_with(text) && into.len() == 2 + text.len(),
                    "{name} at {room}"
                );
            }
            Err(fault) => {
                assert!(rt; answer == Err(fault), "{name} at {room}");
                assert_eq!(rt; into.len(), 2, "{name} at {room}");
            }
        }
    }
    Ok(())
}

// Each put in turn fails, and what came before it was taken.
#[test]
fn failing_puts(rt: HostRuntime) -> Result<(), Fail> {
    let piece = b"hello";
    for call in 1..7u64 {
        let mut sink = MemSink::new(rt.alloc(), 5, numbers(rt.alloc(), &[call])?)?;
        sink.narrow(1);
        let answer = put_all(&mut sink, piece);
        assert!(rt; answer.is_ok() == (call == 6), "put {call}");
        assert!(rt; piece.starts_with(sink.text()), "put {call}");
        assert_eq!(rt; sink.text().len() as u64, call - 1, "put {call}");
    }
    Ok(())
}

#[test]
fn room_for_puts(rt: HostRuntime) -> Result<(), Fail> {
    let mut sink = MemSink::new(rt.alloc(), 4, numbers(rt.alloc(), &[2, 4])?)?;
    assert!(rt; sink.put(b"ab").is_ok_and(|count| count == 2));
    // An empty piece is taken at a listed call too.
    assert!(rt; sink.put(b"").is_ok_and(|count| count == 0));
    sink.narrow(1);
    // The whole piece is to fit, though only one byte of it would be taken.
    assert!(rt; sink.put(b"cde").is_err());
    assert!(rt; sink.put(b"c").is_err());
    assert!(rt; sink.put(b"cd").is_ok_and(|count| count == 1));
    assert!(rt; sink.text() == b"abc".as_slice());
    Ok(())
}

// A file is written by a sink over it and read again from the shelf of the runtime's files.
#[test]
fn real_files(rt: HostRuntime) -> Result<(), Fail> {
    let name = "outside-real-file.tmp";
    let mut sink = StdSink::new(fs::create(&rt, name)?);
    assert!(rt; put_all(&mut sink, b"six by").is_ok());
    assert!(rt; put_all(&mut sink, b"").is_ok());
    drop(sink);
    let mut shelf = DirShelf::new(&rt);
    let mut into = Vec::new(rt.alloc());
    assert!(rt; shelf.load(name, &mut into, 5) == Err(LoadFault::TooLong));
    assert!(rt; into.is_empty());
    assert!(rt; shelf.load(name, &mut into, 6).is_ok());
    assert!(rt; shelf.load(name, &mut into, 100).is_ok());
    assert!(rt; into.as_slice() == b"six bysix by".as_slice());
    assert!(rt; shelf.load("no such file", &mut into, 100) == Err(LoadFault::Failed));
    assert!(rt; shelf.load(".", &mut into, 100) == Err(LoadFault::Failed));
    assert_eq!(rt; into.len(), 12);
    fs::remove_file(&rt, name)?;
    // A sink over a writer with room for two bytes.
    let mut bytes = [0u8; 2];
    let mut short = StdSink::new(bytes.as_mut_slice());
    assert!(rt; put_all(&mut short, b"ab").is_ok());
    assert!(rt; short.put(b"c").is_err());
    assert!(rt; short.put(b"").is_ok());
    Ok(())
}
