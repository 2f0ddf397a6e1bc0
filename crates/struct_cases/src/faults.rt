//! Why nothing is read, in the words of the table.

use ms_structs::StructFault;
use std::alloc::Global;
use table_cases::Unable;
use thrift_binary::WireFault;

/// Why bytes are no struct.
pub fn told_fault(alloc: Global, fault: StructFault) -> Result<String, Unable> {
    match fault {
        StructFault::BadText => Ok(String::from_str(alloc, "bad text")?),
        StructFault::Wire(fault) => told_wire(alloc, fault),
    }
}

// Why bytes are no value at all.
fn told_wire(alloc: Global, fault: WireFault) -> Result<String, Unable> {
    match fault {
        WireFault::Truncated(at) => Ok(format!(in alloc; "truncated {at}")?),
        WireFault::BadWire(code, at) => Ok(format!(in alloc; "bad {code} {at}")?),
        WireFault::TooLarge(at) => Ok(format!(in alloc; "too large {at}")?),
        WireFault::ReadFault => Err(Unable::Outside),
        WireFault::NoMemory => Err(Unable::NoMemory),
    }
}
