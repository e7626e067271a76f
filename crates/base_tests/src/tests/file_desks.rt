//! Files of the system as a desk, standard output as a sink, and what they are read and written by.
ghost use Rattle.std.specs.Prelude.{Some};

use pun_base::desk::{Desk, PutError, ReadError};
use pun_base::sink::Sink;
use real_files::file_desk::FileDesk;
use real_files::standard_output::StdSink;
use real_files::streams::{read_at_most, write_bytes};
use std::fs;
use std::io::{self, Write};
use std::os::unix::fs::symlink;
use std::test::Fail;

#[test]
fn files_are_written_and_read(rt: HostRuntime) -> Result<(), Fail> {
    // More than one read takes.
    let text = vec![in rt.alloc(); 7; 5000]?;
    let mut desk = FileDesk::new(rt.alloc(), &rt);
    desk.begin(rt.alloc(), "written")?;
    desk.put(rt.alloc(), b"seven: ")?;
    desk.put(rt.alloc(), &text)?;
    desk.end()?;
    let read = desk.read(rt.alloc(), "written", 5007)?;
    assert_eq!(rt; read.len(), 5007);
    assert!(rt; read.starts_with(b"seven: "));
    assert!(rt; read.ends_with(&text));
    let read = desk.read(rt.alloc(), "written", 4500);
    assert!(rt; matches!(read, Err(ReadError::TooLong { len: 4501 })));
    fs::remove_file(&rt, "written")?;
    Ok(())
}

#[test]
fn missing_files_are_faults(rt: HostRuntime) -> Result<(), Fail> {
    let mut desk = FileDesk::new(rt.alloc(), &rt);
    let read = desk.read(rt.alloc(), "missing", 10);
    assert!(rt; matches!(read, Err(ReadError::Failed)));
    let begun = desk.begin(rt.alloc(), "missing/file");
    assert!(rt; matches!(begun, Err(PutError::Failed)));
    desk.begin(rt.alloc(), "emptied")?;
    desk.end()?;
    assert!(rt; desk.read(rt.alloc(), "emptied", 0)?.is_empty());
    fs::remove_file(&rt, "emptied")?;
    Ok(())
}

#[test]
fn known_files_are_not_written_over(rt: HostRuntime) -> Result<(), Fail> {
    fs::write(&rt, "known", "held")?;
    fs::hard_link(&rt, "known", "linked")?;
    symlink(&rt, "known", "pointed")?;
    let mut desk = FileDesk::new(rt.alloc(), &rt);
    desk.read(rt.alloc(), "known", 10)?;
    let begun = desk.begin(rt.alloc(), "./known");
    assert!(rt; matches!(begun, Err(PutError::Failed)));
    let begun = desk.begin(rt.alloc(), "linked");
    assert!(rt; matches!(begun, Err(PutError::Failed)));
    let begun = desk.begin(rt.alloc(), "pointed");
    assert!(rt; matches!(begun, Err(PutError::Failed)));
    assert_eq!(rt; fs::read(&rt, "known")?.as_slice(), b"held".as_slice());
    fs::remove_file(&rt, "known")?;
    fs::remove_file(&rt, "linked")?;
    fs::remove_file(&rt, "pointed")?;
    Ok(())
}

#[test]
fn written_files_are_known_too(rt: HostRuntime) -> Result<(), Fail> {
    let mut desk = FileDesk::new(rt.alloc(), &rt);
    desk.begin(rt.alloc(), "made")?;
    desk.end()?;
    let begun = desk.begin(rt.alloc(), "./made");
    assert!(rt; matches!(begun, Err(PutError::Failed)));
    fs::remove_file(&rt, "made")?;
    Ok(())
}

#[test]
fn text_is_printed(rt: HostRuntime) -> Result<(), Fail> {
    let mut sink = StdSink::new(io::writer(&rt));
    sink.write(rt.alloc(), b"printed\n")?;
    sink.write(rt.alloc(), b"")?;
    Ok(())
}

/// A writer that takes at most three bytes at once, and no more than it has room for.
#[derive(Drop)]
struct Trickle {
    bytes: Vec<u8>,
    room: usize,
}

impl Write for Trickle {
    ghost contents = { λ w. Some w.bytes.items };

    fn write(&mut self, buf: &[u8]) -> io::Result<usize> {
        let count = buf.len().min(3).min(self.room);
        self.bytes.extend_from_slice(&buf[..count])?;
        self.room -= count;
        Ok(count)
    }

    fn flush(&mut self) -> io::Result<()> {
        Ok(())
    }
}

/// How much room there is, whether all is written, and what is.
const TRICKLES: [(usize, bool, &str); 3] = [
    (12, true, "hello, world"),
    (7, false, "hello, "),
    (0, false, ""),
];

#[test]
fn short_writes_are_gone_on_with(rt: HostRuntime) -> Result<(), Fail> {
    for &(room, is_written, held) in &TRICKLES {
        let mut to = Trickle {
            bytes: Vec::new(rt.alloc()),
            room,
        };
        let written = write_bytes(&mut to, b"hello, world");
        assert_eq!(rt; written.is_ok(), is_written);
        assert_eq!(rt; to.bytes.as_slice(), held.as_bytes());
    }
    Ok(())
}

#[test]
fn readers_are_read_to_their_end(rt: HostRuntime) -> Result<(), Fail> {
    let mut from = b"hello".as_slice();
    let read = read_at_most(rt.alloc(), &mut from, 5)?;
    assert_eq!(rt; read.as_slice(), b"hello".as_slice());
    let mut from = b"hello".as_slice();
    let read = read_at_most(rt.alloc(), &mut from, 3);
    assert!(rt; matches!(read, Err(ReadError::TooLong { len: 4 })));
    Ok(())
}
