ghost use Rattle.std.specs.Prelude.{◌<◌};

use crate::{
    FileFault, HostFiles, HostSink, MemoryFiles, MemorySink, NeverFailFiles, SinkFailed, read_file,
    write_all,
};
use std::alloc::{AllocError, Global};
use std::fmt::Display;
use std::test::Fail;
use std::{env, fs, io, process};

/// Two files, the first of which stands twice.
fn two_files(alloc: Global) -> Result<Vec<(String, Vec<u8>)>, AllocError> {
    let mut files = Vec::new(alloc);
    files.push((
        String::from_str(alloc, "a.mir")?,
        b"seven \xff".to_vec(alloc)?,
    ))?;
    files.push((String::from_str(alloc, "b.toml")?, Vec::new(alloc)))?;
    files.push((String::from_str(alloc, "a.mir")?, b"other".to_vec(alloc)?))?;
    Ok(files)
}

#[test]
fn whole_files_are_read(rt: HostRuntime) -> Result<(), Fail> {
    let alloc = rt.alloc();
    for piece in [1, 3, 100] {
        let mut files = MemoryFiles::new(two_files(alloc)?, Vec::new(alloc), piece);
        let whole = read_file(alloc, &mut files, "a.mir", 7)?;
        assert_eq!(rt; whole.as_slice(), b"seven \xff".as_slice());
        let cut = read_file(alloc, &mut files, "a.mir", 6);
        assert_eq!(rt; cut.err(), Some(FileFault::TooLong));
        assert_eq!(rt; read_file(alloc, &mut files, "b.toml", 0)?.len(), 0);
        let absent = read_file(alloc, &mut files, "c.mir", 100);
        assert_eq!(rt; absent.err(), Some(FileFault::Missing));
    }
    let mut files = NeverFailFiles::new(two_files(alloc)?, 2);
    let whole = read_file(alloc, &mut files, "a.mir", 100)?;
    assert_eq!(rt; whole.as_slice(), b"seven \xff".as_slice());
    Ok(())
}

/// The fault of reading the file of seven bytes where this call fails.
fn fault_at(
    alloc: Global,
    failing: u64,
    piece: usize,
    max: usize,
) -> Result<Option<FileFault>, AllocError>
    requires { 0 < piece }
{
    let mut files = MemoryFiles::new(two_files(alloc)?, [failing].to_vec(alloc)?, piece);
    Ok(read_file(alloc, &mut files, "a.mir", max).err())
}

#[test]
fn each_failing_call_is_a_fault(rt: HostRuntime) -> Result<(), Fail> {
    // One call opens, three read seven bytes in pieces of three, and one finds the end.
    for failing in 1..6 {
        assert_eq!(rt;
            fault_at(rt.alloc(), failing, 3, 100)?,
            Some(FileFault::Failed)
        );
    }
    assert_eq!(rt; fault_at(rt.alloc(), 6, 3, 100)?, None);
    // The file is too long for six at its seventh byte, and no further call comes.
    assert_eq!(rt; fault_at(rt.alloc(), 9, 1, 6)?, Some(FileFault::TooLong));
    assert_eq!(rt; fault_at(rt.alloc(), 3, 100, 6)?, Some(FileFault::TooLong));
    Ok(())
}

#[test]
fn a_sink_takes_what_its_room_allows(rt: HostRuntime) -> Result<(), Fail> {
    let alloc = rt.alloc();
    let output = b"Checking check\nVERIFICATION: SUCCESSFUL\n".as_slice();
    for (room, failing, len) in [
        (1000, 1, 0),
        (1000, 2, 10),
        (1000, 4, 30),
        (1000, 5, 40),
        (40, 9, 40),
        (15, 9, 15),
        (0, 9, 0),
    ] {
        let mut sink = MemorySink::new(alloc, room, [failing].to_vec(alloc)?, 10)?;
        let is_whole = write_all(&mut sink, output).is_ok();
        assert_eq!(rt;
            is_whole,
            len == output.len(),
            "room {room}, failing {failing}"
        );
        assert!(rt;
            sink.written() == output.get(..len).unwrap_or(&[]),
            "room {room}"
        );
    }
    Ok(())
}

#[test]
fn files_of_the_host_are_read(rt: HostRuntime) -> Result<(), Fail> {
    let alloc = rt.alloc();
    let folder = env::temp_dir(&rt)?;
    let name = format!(in alloc;
        "{}/vk_files-{}",
        folder.display(),
        process::id(rt.process())
    )?;
    // More than one piece, and no text.
    let mut bytes = vec![in alloc; 0xff; 70_000]?;
    bytes.push(7)?;
    fs::write(&rt, name.as_str(), bytes.as_slice())?;
    let mut files = HostFiles::new(&rt);
    let whole = read_file(alloc, &mut files, name.as_str(), 70_001)?;
    assert!(rt; whole.as_slice() == bytes.as_slice(), "other bytes");
    let cut = read_file(alloc, &mut files, name.as_str(), 70_000);
    assert_eq!(rt; cut.err(), Some(FileFault::TooLong));
    fs::remove_file(&rt, name.as_str())?;
    let absent = read_file(alloc, &mut files, name.as_str(), 70_001);
    assert_eq!(rt; absent.err(), Some(FileFault::Missing));
    let folder = read_file(alloc, &mut files, "/", 100);
    assert_eq!(rt; folder.err(), Some(FileFault::Failed));
    Ok(())
}

/// An output that is closed.
#[derive(Drop)]
struct Closed;

impl Print for Closed {
    fn print<D: Display + Drop>(&self, _value: D) -> io::Result<()> {
        Err(io::ErrorKind::BrokenPipe.into())
    }

    fn println<D: Display + Drop>(&self, _value: D) -> io::Result<()> {
        Err(io::ErrorKind::BrokenPipe.into())
    }

    fn write_all(&self, _bytes: &[u8]) -> io::Result<()> {
        Err(io::ErrorKind::BrokenPipe.into())
    }
}

#[test]
fn the_output_of_the_host_is_written(rt: HostRuntime) {
    assert_eq!(rt;
        write_all(&mut HostSink::new(&rt), b"written whole\n"),
        Ok(())
    );
    assert_eq!(rt;
        write_all(&mut HostSink::new(&Closed), b"lost"),
        Err(SinkFailed)
    );
}
