//! Reading values of a fixed width off a source.

ghost use Rattle.std.specs.Prelude.{◌≡◌, ◌≤◌, None, length, IsErrOf, OnOk};
ghost use Rattle.hms_outside.specs.Causes.{Rose, StaysBut};
ghost use Rattle.thrift_binary.specs.Taking.{Reads};
ghost use Rattle.thrift_binary.specs.Wire.{IsBody, IsByte, IsFlag, IsInt, IsLong, IsShort, StopsShort};

use crate::numbers::{byte_of, flag_of, int_of, long_of, short_of};
use crate::{WireFault, WireReader};
use hms_outside::Source;

impl<'a, S: Source> WireReader<'a, S> {
    /// A bool: true exactly where its byte is 1.
    pub fn flag(&mut self) -> Result<bool, WireFault>
        ensures same_source { self.new.source.ghost_name ≡ self.old.source.ghost_name }
        ensures later { S.faults self.old.source.now ≤ S.faults self.new.source.now }
        ensures cause { self.old.progress.fault ≡ None → IsErrOf result WireFault.ReadFault → Rose (S.faults self.old.source.now) (S.faults self.new.source.now) }
        ensures stays { StaysBut WireFault.ReadFault result (S.faults self.old.source.now) (S.faults self.new.source.now) }
        ensures reads { Reads (S.left self.old.source.now) (S.left self.new.source.now) self.old.progress self.new.progress result IsFlag (StopsShort 1) }
        ensures unspent { OnOk result (self.new.progress.fault ≡ None) }
    {
        let mut buf = [0; 1];
        self.exact(&mut buf)?;
        Ok(flag_of(&buf))
    }

    /// A number of one byte.
    pub fn byte(&mut self) -> Result<i8, WireFault>
        ensures same_source { self.new.source.ghost_name ≡ self.old.source.ghost_name }
        ensures later { S.faults self.old.source.now ≤ S.faults self.new.source.now }
        ensures cause { self.old.progress.fault ≡ None → IsErrOf result WireFault.ReadFault → Rose (S.faults self.old.source.now) (S.faults self.new.source.now) }
        ensures stays { StaysBut WireFault.ReadFault result (S.faults self.old.source.now) (S.faults self.new.source.now) }
        ensures reads { Reads (S.left self.old.source.now) (S.left self.new.source.now) self.old.progress self.new.progress result IsByte (StopsShort 1) }
        ensures unspent { OnOk result (self.new.progress.fault ≡ None) }
    {
        let mut buf = [0; 1];
        self.exact(&mut buf)?;
        Ok(byte_of(&buf))
    }

    /// A number of two bytes.
    pub fn short(&mut self) -> Result<i16, WireFault>
        ensures same_source { self.new.source.ghost_name ≡ self.old.source.ghost_name }
        ensures later { S.faults self.old.source.now ≤ S.faults self.new.source.now }
        ensures cause { self.old.progress.fault ≡ None → IsErrOf result WireFault.ReadFault → Rose (S.faults self.old.source.now) (S.faults self.new.source.now) }
        ensures stays { StaysBut WireFault.ReadFault result (S.faults self.old.source.now) (S.faults self.new.source.now) }
        ensures reads { Reads (S.left self.old.source.now) (S.left self.new.source.now) self.old.progress self.new.progress result IsShort (StopsShort 2) }
        ensures unspent { OnOk result (self.new.progress.fault ≡ None) }
    {
        let mut buf = [0; 2];
        self.exact(&mut buf)?;
        Ok(short_of(&buf))
    }

    /// A number of four bytes.
    pub fn int(&mut self) -> Result<i32, WireFault>
        ensures same_source { self.new.source.ghost_name ≡ self.old.source.ghost_name }
        ensures later { S.faults self.old.source.now ≤ S.faults self.new.source.now }
        ensures cause { self.old.progress.fault ≡ None → IsErrOf result WireFault.ReadFault → Rose (S.faults self.old.source.now) (S.faults self.new.source.now) }
        ensures stays { StaysBut WireFault.ReadFault result (S.faults self.old.source.now) (S.faults self.new.source.now) }
        ensures reads { Reads (S.left self.old.source.now) (S.left self.new.source.now) self.old.progress self.new.progress result IsInt (StopsShort 4) }
        ensures unspent { OnOk result (self.new.progress.fault ≡ None) }
    {
        let mut buf = [0; 4];
        self.exact(&mut buf)?;
        Ok(int_of(&buf))
    }

    /// A number of eight bytes.
    pub fn long(&mut self) -> Result<i64, WireFault>
        ensures same_source { self.new.source.ghost_name ≡ self.old.source.ghost_name }
        ensures later { S.faults self.old.source.now ≤ S.faults self.new.source.now }
        ensures cause { self.old.progress.fault ≡ None → IsErrOf result WireFault.ReadFault → Rose (S.faults self.old.source.now) (S.faults self.new.source.now) }
        ensures stays { StaysBut WireFault.ReadFault result (S.faults self.old.source.now) (S.faults self.new.source.now) }
        ensures reads { Reads (S.left self.old.source.now) (S.left self.new.source.now) self.old.progress self.new.progress result IsLong (StopsShort 8) }
        ensures unspent { OnOk result (self.new.progress.fault ≡ None) }
    {
        let mut buf = [0; 8];
        self.exact(&mut buf)?;
        Ok(long_of(&buf))
    }

    /// The eight bytes of a double.
    pub fn eight(&mut self) -> Result<[u8; 8], WireFault>
        ensures same_source { self.new.source.ghost_name ≡ self.old.source.ghost_name }
        ensures later { S.faults self.old.source.now ≤ S.faults self.new.source.now }
        ensures cause { self.old.progress.fault ≡ None → IsErrOf result WireFault.ReadFault → Rose (S.faults self.old.source.now) (S.faults self.new.source.now) }
        ensures stays { StaysBut WireFault.ReadFault result (S.faults self.old.source.now) (S.faults self.new.source.now) }
        ensures reads { Reads (S.left self.old.source.now) (S.left self.new.source.now) self.old.progress self.new.progress result (IsBody 8) (StopsShort 8) }
        ensures unspent { OnOk result (self.new.progress.fault ≡ None) }
    {
        let mut buf = [0; 8];
        self.exact(&mut buf)?;
        Ok(buf)
    }
}
