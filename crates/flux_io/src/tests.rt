use super::*;
use std::alloc::{AllocError, Global};
use std::fs;
use std::test::Fail;

// A folder of files in memory, whose calls of these numbers fail.
fn folder_of(
    alloc: Global,
    files: &[(&str, &[u8])],
    fails: &[u64],
) -> Result<MemFolder, AllocError> {
    let mut owned = Vec::new(alloc);
    for (name, bytes) in files {
        let file = (
            String::from_str(alloc, name)?,
            Vec::from_slice(alloc, bytes)?,
        );
        owned.push(file)?;
    }
    Ok(MemFolder::new(alloc, owned, Vec::from_slice(alloc, fails)?))
}

#[test]
fn a_file_is_read_up_to_the_limit(rt: HostRuntime) -> Result<(), Fail> {
    let alloc = rt.alloc();
    let mut folder = folder_of(
        alloc,
        &[("three", b"abc"), ("four", b"abcd"), ("none", b"")],
        &[],
    )?;
    let bytes = read_all(alloc, &mut folder, "three", 3)?;
    assert_eq!(rt; bytes.as_slice(), b"abc".as_slice());
    assert!(rt; matches!(read_all(alloc, &mut folder, "four", 3), Err(Fault::TooLong)));
    let bytes = read_all(alloc, &mut folder, "four", u32::MAX)?;
    assert_eq!(rt; bytes.as_slice(), b"abcd".as_slice());
    let bytes = read_all(alloc, &mut folder, "none", 0)?;
    assert!(rt; bytes.is_empty());
    assert!(rt;
        matches!(
            read_all(alloc, &mut folder, "three", 0),
            Err(Fault::TooLong)
        )
    );
    assert!(rt; matches!(read_all(alloc, &mut folder, "five", 3), Err(Fault::Read)));
    Ok(())
}

#[test]
fn of_two_files_of_one_name_the_first_is_read(rt: HostRuntime) -> Result<(), Fail> {
    let alloc = rt.alloc();
    let mut folder = folder_of(alloc, &[("b", b"x"), ("a", b"first"), ("a", b"last")], &[])?;
    let bytes = read_all(alloc, &mut folder, "a", 9)?;
    assert_eq!(rt; bytes.as_slice(), b"first".as_slice());
    Ok(())
}

// A whole file takes a `begin`, a `read` of its bytes and a `read` of none.
#[test]
fn each_call_may_fail(rt: HostRuntime) -> Result<(), Fail> {
    let alloc = rt.alloc();
    for call in 1..4u64 {
        let mut folder = folder_of(alloc, &[("a", b"abc")], &[call])?;
        assert!(rt;
            matches!(read_all(alloc, &mut folder, "a", 9), Err(Fault::Read)),
            "{call}"
        );
        let bytes = read_all(alloc, &mut folder, "a", 9)?;
        assert_eq!(rt; bytes.as_slice(), b"abc".as_slice(), "{call}");
    }
    let mut folder = folder_of(alloc, &[("a", b"abc")], &[0, 4])?;
    let bytes = read_all(alloc, &mut folder, "a", 9)?;
    assert_eq!(rt; bytes.as_slice(), b"abc".as_slice());
    assert!(rt; matches!(read_all(alloc, &mut folder, "a", 9), Err(Fault::Read)));
    Ok(())
}

#[test]
fn a_long_file_comes_in_pieces(rt: HostRuntime) -> Result<(), Fail> {
    let alloc = rt.alloc();
    let long = Vec::from_elem(alloc, b'x', 70_000)?;
    // A `begin`, reads of 65,536 and 4,464 bytes, and one of none: the fifth call is none of them.
    let mut folder = folder_of(alloc, &[("long", long.as_slice())], &[5])?;
    let bytes = read_all(alloc, &mut folder, "long", 70_000)?;
    assert_eq!(rt; bytes.as_slice(), long.as_slice());
    let mut folder = folder_of(alloc, &[("long", long.as_slice())], &[4])?;
    assert!(rt;
        matches!(
            read_all(alloc, &mut folder, "long", 70_000),
            Err(Fault::Read)
        )
    );
    let mut folder = folder_of(alloc, &[("long", long.as_slice())], &[4])?;
    assert!(rt;
        matches!(
            read_all(alloc, &mut folder, "long", 69_999),
            Err(Fault::TooLong)
        )
    );
    Ok(())
}

#[test]
fn a_sink_in_memory_takes_bytes_up_to_its_cap(rt: HostRuntime) -> Result<(), Fail> {
    let alloc = rt.alloc();
    let mut sink = MemSink::new(alloc, Some(4));
    assert!(rt; matches!(write_all(&mut sink, b"0123456789"), Err(Refused::Failed)));
    assert_eq!(rt; sink.bytes(), b"0123".as_slice());
    let mut sink = MemSink::new(alloc, None);
    write_all(&mut sink, b"01234")?;
    write_all(&mut sink, b"56789")?;
    assert_eq!(rt; sink.bytes(), b"0123456789".as_slice());
    Ok(())
}

// The file stands in the folder where the test runs, and is gone before anything is compared.
#[test]
fn real_files_are_read(rt: HostRuntime) -> Result<(), Fail> {
    let alloc = rt.alloc();
    fs::write(&rt, "read_by_a_test", "abc")?;
    let mut folder = RealFolder::new(&rt);
    let begun = folder.read(&mut [0; 4]);
    let whole = read_all(alloc, &mut folder, "read_by_a_test", 3);
    let long = read_all(alloc, &mut folder, "read_by_a_test", 2);
    fs::remove_file(&rt, "read_by_a_test")?;
    let missing = read_all(alloc, &mut folder, "read_by_a_test", 3);
    assert!(rt; matches!(begun, Ok(0)));
    assert_eq!(rt; whole?.as_slice(), b"abc".as_slice());
    assert!(rt; matches!(long, Err(Fault::TooLong)));
    assert!(rt; matches!(missing, Err(Fault::Read)));
    assert!(rt; matches!(folder.read(&mut [0; 4]), Ok(0)));
    Ok(())
}

#[test]
fn a_real_sink_writes(rt: HostRuntime) -> Result<(), Fail> {
    let mut bytes = Vec::new(rt.alloc());
    let mut sink = RealSink::new(&mut bytes);
    write_all(&mut sink, b"abc")?;
    write_all(&mut sink, b"")?;
    write_all(&mut sink, b"de")?;
    assert_eq!(rt; bytes.as_slice(), b"abcde".as_slice());
    Ok(())
}
