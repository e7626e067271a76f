use pun_base::byte_list::ByteList;
use pun_base::desk::{Desk, PutError, ReadError};
use pun_base::field::{get_u16, get_u32, get_u64, put_u16, put_u32, put_u64};
use pun_base::memory_desk::{DeskCall, MemDesk};
use pun_base::memory_sink::MemSink;
use pun_base::pieces::{put_all, write_file};
use pun_base::plan::Write;
use pun_base::sink::Sink;
use std::test::Fail;

#[test]
fn five_bytes_are_too_long_for_four(rt: HostRuntime) -> Result<(), Fail> {
    let mut desk = MemDesk::new(rt.alloc(), &[])?;
    desk.add(rt.alloc(), "five", b"hello")?;
    let read = desk.read(rt.alloc(), "five", 4);
    assert!(rt; matches!(read, Err(ReadError::TooLong { len: 5 })));
    assert_eq!(rt;
        desk.read(rt.alloc(), "five", 5)?.as_slice(),
        b"hello".as_slice()
    );
    let missing = desk.read(rt.alloc(), "six", 5);
    assert!(rt; matches!(missing, Err(ReadError::Failed)));
    Ok(())
}

#[test]
fn second_piece_fails(rt: HostRuntime) -> Result<(), Fail> {
    let bytes = vec![in rt.alloc(); 7; 4097]?;
    let mut desk = MemDesk::new(rt.alloc(), &[(DeskCall::Put, 2)])?;
    // A file of no bytes takes no put.
    write_file(rt.alloc(), &mut desk, "empty", b"")?;
    desk.begin(rt.alloc(), "out")?;
    let put = put_all(rt.alloc(), &mut desk, &bytes);
    assert!(rt; matches!(put, Err(PutError::Failed)));
    assert_eq!(rt; desk.get("out").ok_or("held")?, &bytes[..4096]);
    Ok(())
}

#[test]
fn listed_calls_fail(rt: HostRuntime) -> Result<(), Fail> {
    let fails = [
        (DeskCall::Begin, 1),
        (DeskCall::Put, 1),
        (DeskCall::End, 1),
        (DeskCall::Read, 1),
    ];
    let mut desk = MemDesk::new(rt.alloc(), &fails)?;
    // The begin fails, then the put, then the end, then nothing.
    for (bytes, is_written, held) in [
        ("one", false, None),
        ("two", false, Some("")),
        ("three", false, Some("three")),
        ("four", true, Some("four")),
    ] {
        let written = write_file(rt.alloc(), &mut desk, "out", bytes.as_bytes());
        assert_eq!(rt; written.is_ok(), is_written);
        assert_eq!(rt; desk.get("out").is_some(), held.is_some());
        assert_eq!(rt;
            desk.get("out").unwrap_or(b""),
            held.unwrap_or("").as_bytes()
        );
    }
    let read = desk.read(rt.alloc(), "out", 5);
    assert!(rt; matches!(read, Err(ReadError::Failed)));
    assert_eq!(rt;
        desk.read(rt.alloc(), "out", 5)?.as_slice(),
        b"four".as_slice()
    );
    Ok(())
}

#[test]
fn second_write_fails(rt: HostRuntime) -> Result<(), Fail> {
    let mut sink = MemSink::new(rt.alloc(), Some(2));
    for (bytes, is_written, printed) in [
        ("one ", true, "one "),
        ("two ", false, "one "),
        ("three", true, "one three"),
    ] {
        let write = sink.write(rt.alloc(), bytes.as_bytes());
        assert_eq!(rt; write.is_ok(), is_written);
        assert_eq!(rt; sink.bytes(), printed.as_bytes());
    }
    Ok(())
}

#[test]
fn low_byte_comes_first(rt: HostRuntime) {
    let mut bytes = [0x7f, 0x45, 0x4c, 0x46, 2, 1, 1, 0, 0, 9];
    assert_eq!(rt; get_u16(&bytes, 0), 0x457f);
    assert_eq!(rt; get_u32(&bytes, 1), 0x0246_4c45);
    assert_eq!(rt; get_u64(&bytes, 2), 0x0900_0001_0102_464c);
    put_u16(&mut bytes, 0, 0x0102);
    put_u32(&mut bytes, 2, 0x0304_0506);
    assert_eq!(rt; bytes, [2, 1, 6, 5, 4, 3, 1, 0, 0, 9]);
    put_u64(&mut bytes, 1, 0x1112_1314_1516_1718);
    assert_eq!(rt;
        bytes,
        [2, 0x18, 0x17, 0x16, 0x15, 0x14, 0x13, 0x12, 0x11, 9]
    );
}

#[test]
fn lists_and_writes_keep_their_bytes(rt: HostRuntime) -> Result<(), Fail> {
    let sixteen = b"sixteen bytes, 1";
    for len in 0..=sixteen.len() {
        let list = ByteList::from_slice(&sixteen[..len]);
        assert_eq!(rt; list.as_slice(), &sixteen[..len]);
        assert_eq!(rt; list.len(), len);
        assert_eq!(rt; list.is_empty(), list == ByteList::new());
    }
    let write = Write {
        addr: 0x401000,
        was: ByteList::from_slice(b"\x0F\x1F\x40\x00\x90"),
        now: ByteList::from_slice(b"\xE9\x00\x00\x00\x00"),
    };
    assert!(rt; write.clone()? == write);
    assert!(rt; write.now.clone()? != write.was);
    Ok(())
}
