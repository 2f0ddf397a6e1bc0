//! Sources, sinks, disks, folders and clocks.

use cat_values::Bytes;
use hms_outside::{
    Clock, CrashPick, Disk, FileDisk, Folder, MemClock, MemDisk, MemFolder, MemSink, MemSource,
    Outage, Sink, Source, StreamSink, StreamSource, SystemClock, send_all,
};
use std::cell::Cell;
use std::fs::remove_file;
use std::io::{self, Read, Write};
use std::test::Fail;
use std::time::{self, Duration};

#[test]
fn a_source_fails_at_its_listed_calls(rt: HostRuntime) -> Result<(), Fail> {
    let alloc = rt.alloc();
    let bytes = Bytes::from_slice(alloc, b"abcde")?;
    let mut source = MemSource::new(bytes, vec![in alloc; 1, 3]?);
    let mut buf = [0; 3];
    assert_eq!(rt; source.read(&mut buf), Ok(3));
    assert_eq!(rt; buf, *b"abc");
    assert_eq!(rt; source.read(&mut buf), Err(Outage::Failed));
    assert_eq!(rt; source.read(&mut buf), Ok(2));
    assert_eq!(rt; source.read(&mut buf), Err(Outage::Failed));
    assert_eq!(rt; source.read(&mut buf), Ok(0));
    Ok(())
}

#[test]
fn a_stopping_source_gives_so_many_bytes(rt: HostRuntime) -> Result<(), Fail> {
    let alloc = rt.alloc();
    for (taken, given) in [(0, 0), (2, 2), (5, 5), (9, 5)] {
        let bytes = Bytes::from_slice(alloc, b"abcde")?;
        let mut source = MemSource::stopping(alloc, bytes, taken);
        let mut buf = [0; 9];
        if given > 0 {
            assert_eq!(rt; source.read(&mut buf), Ok(given));
        }
        assert_eq!(rt; source.read(&mut buf), Err(Outage::Failed));
        assert_eq!(rt; source.read(&mut buf), Err(Outage::Failed));
    }
    Ok(())
}

#[test]
fn a_sink_keeps_bytes_and_flushes(rt: HostRuntime) -> Result<(), Fail> {
    let alloc = rt.alloc();
    let mut sink = MemSink::new(alloc, vec![in alloc; 2]?);
    assert_eq!(rt; send_all(&mut sink, b"ab"), Ok(()));
    assert_eq!(rt; sink.write(b"c"), Err(Outage::Failed));
    assert_eq!(rt; sink.write(b"c"), Ok(1));
    assert_eq!(rt; sink.flush(), Ok(()));
    assert_eq!(rt; sink.bytes(), b"abc".as_slice());
    assert_eq!(rt; sink.flushes(), [2, 3].as_slice());
    Ok(())
}

#[test]
fn a_disk_keeps_what_was_written(rt: HostRuntime) -> Result<(), Fail> {
    let alloc = rt.alloc();
    let mut disk = MemDisk::new(alloc, vec![in alloc; 3, 6]?);
    assert_eq!(rt; disk.write_at(0, b"abcd"), Ok(()));
    assert_eq!(rt; disk.write_at(2, b"XYZ"), Ok(()));
    assert_eq!(rt; disk.write_at(1, b"-"), Ok(()));
    assert_eq!(rt; disk.write_at(0, b"!"), Err(Outage::Failed));
    assert_eq!(rt; disk.len(), Ok(5));
    assert_eq!(rt; disk.sync(), Ok(()));
    assert_eq!(rt; disk.sync(), Err(Outage::Failed));
    let mut buf = [0; 8];
    // The write that failed wrote none of its bytes.
    assert_eq!(rt; disk.read_at(0, &mut buf), Ok(5));
    assert!(rt; buf.starts_with(b"a-XYZ"));
    assert_eq!(rt; disk.read_at(9, &mut buf), Ok(0));
    Ok(())
}

// The first bytes of a disk after a crash, which fails at no call.
fn crashed(disk: &MemDisk, pick: CrashPick) -> Result<[u8; 4], Fail> {
    let mut left = disk.crash(pick)?;
    let mut buf = [0; 4];
    if left.read_at(0, &mut buf).is_err() || left.sync().is_err() {
        return Err(Fail::from("a disk after a crash fails"));
    }
    Ok(buf)
}

#[test]
fn a_crash_picks_what_was_not_synced(rt: HostRuntime) -> Result<(), Fail> {
    let alloc = rt.alloc();
    let mut disk = MemDisk::new(alloc, vec![in alloc; 3, 4, 5]?);
    assert_eq!(rt; disk.write_at(0, b"abc"), Ok(()));
    assert_eq!(rt; disk.sync(), Ok(()));
    assert_eq!(rt; disk.write_at(1, b"XY"), Ok(()));
    assert_eq!(rt; disk.sync(), Err(Outage::Failed));
    assert_eq!(rt; crashed(&disk, CrashPick::Old)?, *b"abc\0");
    assert_eq!(rt; crashed(&disk, CrashPick::New)?, *b"aXY\0");
    assert_eq!(rt; crashed(&disk, CrashPick::Filled(b'-'))?, *b"a--\0");
    Ok(())
}

#[test]
fn a_file_disk_reads_back_what_was_written(rt: HostRuntime) -> Result<(), Fail> {
    let path = "tried_disk";
    let _ = remove_file(&rt, path);
    let mut disk = FileDisk::open(&rt, path);
    assert_eq!(rt; disk.len(), Ok(0));
    assert_eq!(rt; disk.write_at(0, b"abcd"), Ok(()));
    assert_eq!(rt; disk.write_at(2, b"XYZ"), Ok(()));
    assert_eq!(rt; disk.sync(), Ok(()));
    assert_eq!(rt; disk.write_at(u64::MAX, b"ab"), Err(Outage::Failed));
    let mut again = FileDisk::open(&rt, path);
    let mut buf = [0; 4];
    assert_eq!(rt; again.read_at(2, &mut buf), Ok(3));
    assert_eq!(rt; buf, *b"XYZ\0");
    assert_eq!(rt; again.len(), Ok(5));
    if remove_file(&rt, path).is_err() {
        return Err(Fail::from("the file stays"));
    }
    Ok(())
}

#[test]
fn a_file_that_cannot_be_made_fails_at_each_call(rt: HostRuntime) -> Result<(), Fail> {
    let mut disk = FileDisk::open(&rt, "no_such_folder/file");
    assert_eq!(rt; disk.len(), Err(Outage::Failed));
    assert_eq!(rt; disk.read_at(0, &mut [0; 4]), Err(Outage::Failed));
    assert_eq!(rt; disk.write_at(0, b"a"), Err(Outage::Failed));
    assert_eq!(rt; disk.sync(), Err(Outage::Failed));
    Ok(())
}

#[test]
fn a_folder_keeps_its_files(rt: HostRuntime) -> Result<(), Fail> {
    let alloc = rt.alloc();
    let mut folder = MemFolder::new(alloc, vec![in alloc; 2, 4]?);
    assert_eq!(rt; folder.put("d/a", b"1"), Ok(()));
    assert_eq!(rt; folder.put("d/a", b"22"), Ok(()));
    assert_eq!(rt; folder.put("d/a", b"3"), Err(Outage::Failed));
    let Ok(Some(file)) = folder.get("d/a") else {
        return Err(Fail::from("no file"));
    };
    assert_eq!(rt; file.as_slice(), b"22".as_slice());
    assert!(rt; matches!(folder.get("d/a"), Err(Outage::Failed)));
    assert!(rt; matches!(folder.get("d/b"), Ok(None)));
    Ok(())
}

#[test]
fn a_clock_repeats_its_last_moment(rt: HostRuntime) -> Result<(), Fail> {
    let alloc = rt.alloc();
    let mut clock = MemClock::new(vec![in alloc; 5, 7]?);
    assert_eq!(rt; [clock.now(), clock.now(), clock.now()], [5, 7, 7]);
    let mut none = MemClock::new(Vec::new(alloc));
    assert_eq!(rt; none.now(), 0);
    Ok(())
}

// A reader of a few bytes that counts its calls; the calls after the bytes fail.
#[derive(Drop)]
struct Few<'a> {
    given: &'a Cell<u32>,
}

impl Read for Few<'_> {
    fn read(&mut self, buf: &mut [u8]) -> io::Result<usize> {
        let calls = self.given.get();
        self.given.set(calls.saturating_add(1));
        if calls > 0 || buf.len() < 2 {
            return Err(io::Error::from(io::ErrorKind::BrokenPipe));
        }
        buf[0] = b'o';
        buf[1] = b'k';
        Ok(2)
    }
}

#[test]
fn a_stream_source_reads_ahead(rt: HostRuntime) -> Result<(), Fail> {
    let calls = Cell::new(0);
    let mut source = StreamSource::new(rt.alloc(), Few { given: &calls });
    let mut buf = [0; 1];
    assert_eq!(rt; source.read(&mut buf), Ok(1));
    assert_eq!(rt; buf, *b"o");
    assert_eq!(rt; source.read(&mut buf), Ok(1));
    assert_eq!(rt; buf, *b"k");
    assert_eq!(rt; calls.get(), 1);
    assert_eq!(rt; source.read(&mut buf), Err(Outage::Failed));
    Ok(())
}

// A writer that counts its calls and bytes; the third call fails.
#[derive(Drop)]
struct Tally<'a> {
    calls: &'a Cell<u32>,
    bytes: &'a Cell<usize>,
}

impl Write for Tally<'_> {
    fn write(&mut self, buf: &[u8]) -> io::Result<usize> {
        let calls = self.calls.get().saturating_add(1);
        self.calls.set(calls);
        if calls > 2 {
            return Err(io::Error::from(io::ErrorKind::BrokenPipe));
        }
        self.bytes.set(self.bytes.get().saturating_add(buf.len()));
        Ok(buf.len())
    }

    fn flush(&mut self) -> io::Result<()> {
        Ok(())
    }
}

#[test]
fn a_flush_reaches_the_stream(rt: HostRuntime) -> Result<(), Fail> {
    let calls = Cell::new(0);
    let bytes = Cell::new(0);
    let writer = Tally {
        calls: &calls,
        bytes: &bytes,
    };
    let mut sink = StreamSink::new(rt.alloc(), writer);
    for _ in 0..10 {
        assert_eq!(rt; sink.write(b"abc"), Ok(3));
    }
    assert_eq!(rt; (calls.get(), bytes.get()), (0, 0));
    assert_eq!(rt; sink.flush(), Ok(()));
    assert_eq!(rt; (calls.get(), bytes.get()), (1, 30));
    assert_eq!(rt; sink.write(b"d"), Ok(1));
    assert_eq!(rt; sink.flush(), Ok(()));
    assert_eq!(rt; bytes.get(), 31);
    assert_eq!(rt; sink.write(b"e"), Ok(1));
    assert_eq!(rt; sink.flush(), Err(Outage::Failed));
    Ok(())
}

// A clock that tells 7.9 seconds at its second reading, and can't be read before and afterwards.
#[derive(Drop)]
struct Once<'a> {
    readings: &'a Cell<u32>,
}

impl time::Clock for Once<'_> {
    fn monotonic(&self) -> io::Result<Duration> {
        Err(io::Error::from(io::ErrorKind::Unsupported))
    }

    fn since_1970(&self) -> io::Result<Duration> {
        let readings = self.readings.get();
        self.readings.set(readings.saturating_add(1));
        if readings == 1 {
            return Ok(Duration::from_millis(7_900));
        }
        Err(io::Error::from(io::ErrorKind::Unsupported))
    }
}

#[test]
fn a_system_clock_repeats_its_last_moment(rt: HostRuntime) -> Result<(), Fail> {
    let readings = Cell::new(0);
    let mut clock = SystemClock::new(Once {
        readings: &readings,
    });
    assert_eq!(rt; [clock.now(), clock.now(), clock.now()], [0, 7, 7]);
    assert_eq!(rt; readings.get(), 3);
    Ok(())
}

#[test]
fn the_system_clock_is_behind_the_year_2020(rt: HostRuntime) -> Result<(), Fail> {
    assert!(rt; SystemClock::new(&rt).now() > 1_577_836_800);
    Ok(())
}
