//! The reader over sources that fail, and the laws.

use cat_values::{Bytes, NoMemory};
use hms_outside::MemSource;
use std::alloc::Global;
use std::test::Fail;
use thrift_binary::{
    WireFault, WireReader, a_text_reads_one_way, cutting_changes_nothing, messages_are_bounded,
    messages_are_spelled, no_spelling_begins_another, values_are_spelled,
};

// A call of `x` with a number.
const MESSAGE: &[u8] =
    b"\x80\x01\x00\x01\x00\x00\x00\x01x\x00\x00\x00\x05\x08\x00\x01\x00\x00\x00\x07\x00";

// Whether the reading of a message ends with this fault, and the next call tells it again.
fn ends_with(alloc: Global, source: &mut MemSource, wanted: WireFault) -> bool {
    let mut reader = WireReader::new(source);
    match reader.message(alloc) {
        Ok(_) => false,
        Err(fault) => fault == wanted && reader.byte() == Err(wanted),
    }
}

// Whether a source that fails behind so many bytes is told as such.
fn is_told(alloc: Global, taken: u64) -> Result<bool, NoMemory> {
    let mut source = MemSource::stopping(alloc, Bytes::from_slice(alloc, MESSAGE)?, taken);
    Ok(ends_with(alloc, &mut source, WireFault::ReadFault))
}

// Whether a source whose call with this number fails, and no other, is told as such.
fn is_told_once(alloc: Global, failing: u64) -> Result<bool, NoMemory> {
    let fails = vec![in alloc; failing]?;
    let mut source = MemSource::new(Bytes::from_slice(alloc, MESSAGE)?, fails);
    Ok(ends_with(alloc, &mut source, WireFault::ReadFault))
}

#[test]
fn a_source_that_fails_is_told(rt: HostRuntime) -> Result<(), Fail> {
    for taken in 0..MESSAGE.len() {
        assert!(rt; is_told(rt.alloc(), taken as u64)?);
    }
    // Four reads for the head, and four for the argument struct.
    for failing in 0..8 {
        assert!(rt; is_told_once(rt.alloc(), failing)?);
    }
    Ok(())
}

// The first bytes of a message that is longer than a message may be.
fn long_message(alloc: Global, size: usize) -> Result<Bytes, NoMemory> {
    let mut bytes = b"\x80\x01\x00\x01\x00\x00\x00\x01x\x00\x00\x00\x05".to_vec(alloc)?;
    for _ in 0..5 {
        bytes.extend_from_slice(b"\x0b\x00\x01\x01\x00\x00\x00")?;
        let end = bytes.len().saturating_add(16_777_216);
        bytes.resize(end, 7)?;
    }
    bytes.truncate(size);
    Bytes::from_vec(bytes)
}

// Whether this is told of a message with so many bytes, from a source that fails behind as many as are
// taken.
fn is_told_at_limit(
    alloc: Global,
    size: usize,
    taken: u64,
    wanted: WireFault,
) -> Result<bool, NoMemory> {
    let mut source = MemSource::stopping(alloc, long_message(alloc, size)?, taken);
    Ok(ends_with(alloc, &mut source, wanted))
}

#[test]
fn a_source_that_fails_at_the_limit_is_told(rt: HostRuntime) -> Result<(), Fail> {
    // Whether a byte stands past the limit can't be seen; behind that byte nothing is asked for.
    for (size, taken, wanted) in [
        (67_108_864, 67_108_864, WireFault::ReadFault),
        (67_108_865, 67_108_864, WireFault::ReadFault),
        (67_108_865, 67_108_863, WireFault::ReadFault),
        (67_108_866, 67_108_865, WireFault::TooLarge(67_108_864)),
    ] {
        assert!(rt; is_told_at_limit(rt.alloc(), size, taken, wanted)?);
    }
    Ok(())
}

#[test]
fn the_laws_are_there() {
    no_spelling_begins_another();
    a_text_reads_one_way();
    cutting_changes_nothing();
    messages_are_bounded();
    values_are_spelled();
    messages_are_spelled();
}
