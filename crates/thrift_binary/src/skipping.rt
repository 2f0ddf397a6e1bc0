//! Passing values of any type.

ghost use Rattle.std.specs.Prelude.{◌≡◌, ◌≤◌, ◌↔◌, List, ℕ, suc, None, length, IsErrOf, IsTrue, OnOk};
ghost use Rattle.hms_outside.specs.Causes.{Rose, StaysBut};
ghost use Rattle.thrift_binary.specs.Taking.{Reads};
ghost use Rattle.thrift_binary.specs.Tree.{Elements, Entries, Fields, Items, Pairs, Wire, elements_count, entries_count};
ghost use Rattle.thrift_binary.specs.Wire.{AreElements, AreEntries, IsCode, IsElementType, IsNested, IsString, IsStruct, IsWire, StopsElements, StopsEntries, StopsFields, StopsListBy, StopsMapBy, StopsPlain, StopsShort, StopsString, StopsWire};

use crate::{WireFault, WireReader, type_code};
use hms_outside::Source;

// Through how large a buffer the bytes of a text are passed.
const PASSED: usize = 512;

// And those of a short one: most texts are names, and a large buffer takes time to set up.
const SHORT: usize = 32;

impl<'a, S: Source> WireReader<'a, S> {
    /// Passes a value of this type, which must be the code of one: every byte is read and judged,
    /// and nothing is kept. Where it is a struct or a collection it is opened and closed here.
    #[cycle(skip)]
    pub fn skip(&mut self, ty: u8) -> Result<(), WireFault>
        requires { IsCode ty }
        ensures same_source { self.new.source.ghost_name ≡ self.old.source.ghost_name }
        ensures later { S.faults self.old.source.now ≤ S.faults self.new.source.now }
        ensures cause { self.old.progress.fault ≡ None → IsErrOf result WireFault.ReadFault → Rose (S.faults self.old.source.now) (S.faults self.new.source.now) }
        ensures stays { StaysBut WireFault.ReadFault result (S.faults self.old.source.now) (S.faults self.new.source.now) }
        ensures reads { Reads (S.left self.old.source.now) (S.left self.new.source.now) self.old.progress self.new.progress result (λ _ bytes. (w : Wire) × IsWire w self.old.progress.room ty bytes) (StopsWire self.old.progress.room ty) }
        ensures unspent { OnOk result (self.new.progress.fault ≡ None) }
    {
        if is_nested(ty) {
            self.open()?;
            self.skip_inside(ty)?;
            self.close();
            return Ok(());
        }
        self.skip_plain(ty)
    }

    // Passes what stands between the beginning of a struct or a collection and its end.
    #[cycle(skip)]
    fn skip_inside(&mut self, ty: u8) -> Result<(), WireFault>
        requires nested { IsNested ty }
        requires unspent { self.old.progress.fault ≡ None }
        ensures same_source { self.new.source.ghost_name ≡ self.old.source.ghost_name }
        ensures later { S.faults self.old.source.now ≤ S.faults self.new.source.now }
        ensures cause { self.old.progress.fault ≡ None → IsErrOf result WireFault.ReadFault → Rose (S.faults self.old.source.now) (S.faults self.new.source.now) }
        ensures stays { StaysBut WireFault.ReadFault result (S.faults self.old.source.now) (S.faults self.new.source.now) }
        ensures reads { Reads (S.left self.old.source.now) (S.left self.new.source.now) self.old.progress self.new.progress result (λ _ bytes. (w : Wire) × IsWire w (suc self.old.progress.room) ty bytes) (StopsWire (suc self.old.progress.room) ty) }
        ensures unspent { OnOk result (self.new.progress.fault ≡ None) }
    {
        match ty {
            type_code::STRUCT => self.skip_fields(),
            type_code::MAP => self.skip_map(),
            _ => self.skip_list(),
        }
    }

    // Passes fields up to the end of their struct.
    #[cycle(skip)]
    fn skip_fields(&mut self) -> Result<(), WireFault>
        requires unspent { self.old.progress.fault ≡ None }
        ensures same_source { self.new.source.ghost_name ≡ self.old.source.ghost_name }
        ensures later { S.faults self.old.source.now ≤ S.faults self.new.source.now }
        ensures cause { self.old.progress.fault ≡ None → IsErrOf result WireFault.ReadFault → Rose (S.faults self.old.source.now) (S.faults self.new.source.now) }
        ensures stays { StaysBut WireFault.ReadFault result (S.faults self.old.source.now) (S.faults self.new.source.now) }
        ensures reads { Reads (S.left self.old.source.now) (S.left self.new.source.now) self.old.progress self.new.progress result (λ _ bytes. (v : Fields) × IsStruct self.old.progress.room v bytes) (StopsFields self.old.progress.room) }
        ensures unspent { OnOk result (self.new.progress.fault ≡ None) }
    {
        while let Some((ty, _id)) = self.field()? {
            self.skip(ty)?;
        }
        Ok(())
    }

    // Passes a list or a set.
    #[cycle(skip)]
    fn skip_list(&mut self) -> Result<(), WireFault>
        ensures same_source { self.new.source.ghost_name ≡ self.old.source.ghost_name }
        ensures later { S.faults self.old.source.now ≤ S.faults self.new.source.now }
        ensures cause { self.old.progress.fault ≡ None → IsErrOf result WireFault.ReadFault → Rose (S.faults self.old.source.now) (S.faults self.new.source.now) }
        ensures stays { StaysBut WireFault.ReadFault result (S.faults self.old.source.now) (S.faults self.new.source.now) }
        ensures reads { Reads (S.left self.old.source.now) (S.left self.new.source.now) self.old.progress self.new.progress result (λ _ bytes. (ty : ℕ) × (es : Elements) × IsWire (Items ty es) (suc self.old.progress.room) 15 bytes) (StopsListBy (StopsWire self.old.progress.room) self.old.progress.room) }
        ensures unspent { OnOk result (self.new.progress.fault ≡ None) }
    {
        let (ty, count) = self.list()?;
        self.skip_elements(ty, count)
    }

    // Passes so many elements.
    #[cycle(skip)]
    fn skip_elements(&mut self, ty: u8, count: u32) -> Result<(), WireFault>
        requires unspent { self.old.progress.fault ≡ None }
        requires code { IsElementType count ty }
        ensures same_source { self.new.source.ghost_name ≡ self.old.source.ghost_name }
        ensures later { S.faults self.old.source.now ≤ S.faults self.new.source.now }
        ensures cause { self.old.progress.fault ≡ None → IsErrOf result WireFault.ReadFault → Rose (S.faults self.old.source.now) (S.faults self.new.source.now) }
        ensures stays { StaysBut WireFault.ReadFault result (S.faults self.old.source.now) (S.faults self.new.source.now) }
        ensures reads { Reads (S.left self.old.source.now) (S.left self.new.source.now) self.old.progress self.new.progress result (λ _ bytes. (es : Elements) × (elements_count es ≡ count) × AreElements es self.old.progress.room ty bytes) (StopsElements self.old.progress.room ty count) }
        ensures unspent { OnOk result (self.new.progress.fault ≡ None) }
    {
        let mut done = 0;
        while done < count {
            self.skip(ty)?;
            done += 1;
        }
        Ok(())
    }

    // Passes a map.
    #[cycle(skip)]
    fn skip_map(&mut self) -> Result<(), WireFault>
        ensures same_source { self.new.source.ghost_name ≡ self.old.source.ghost_name }
        ensures later { S.faults self.old.source.now ≤ S.faults self.new.source.now }
        ensures cause { self.old.progress.fault ≡ None → IsErrOf result WireFault.ReadFault → Rose (S.faults self.old.source.now) (S.faults self.new.source.now) }
        ensures stays { StaysBut WireFault.ReadFault result (S.faults self.old.source.now) (S.faults self.new.source.now) }
        ensures reads { Reads (S.left self.old.source.now) (S.left self.new.source.now) self.old.progress self.new.progress result (λ _ bytes. (key value : ℕ) × (ps : Entries) × IsWire (Pairs key value ps) (suc self.old.progress.room) 13 bytes) (StopsMapBy (StopsWire self.old.progress.room) self.old.progress.room) }
        ensures unspent { OnOk result (self.new.progress.fault ≡ None) }
    {
        let (key, value, count) = self.map()?;
        self.skip_entries(key, value, count)
    }

    // Passes so many pairs.
    #[cycle(skip)]
    fn skip_entries(&mut self, key: u8, value: u8, count: u32) -> Result<(), WireFault>
        requires unspent { self.old.progress.fault ≡ None }
        requires keys { IsElementType count key }
        requires values { IsElementType count value }
        ensures same_source { self.new.source.ghost_name ≡ self.old.source.ghost_name }
        ensures later { S.faults self.old.source.now ≤ S.faults self.new.source.now }
        ensures cause { self.old.progress.fault ≡ None → IsErrOf result WireFault.ReadFault → Rose (S.faults self.old.source.now) (S.faults self.new.source.now) }
        ensures stays { StaysBut WireFault.ReadFault result (S.faults self.old.source.now) (S.faults self.new.source.now) }
        ensures reads { Reads (S.left self.old.source.now) (S.left self.new.source.now) self.old.progress self.new.progress result (λ _ bytes. (ps : Entries) × (entries_count ps ≡ count) × AreEntries ps self.old.progress.room key value bytes) (StopsEntries self.old.progress.room key value count) }
        ensures unspent { OnOk result (self.new.progress.fault ≡ None) }
    {
        let mut done = 0;
        while done < count {
            self.skip(key)?;
            self.skip(value)?;
            done += 1;
        }
        Ok(())
    }

    // Passes a value in which nothing opens.
    fn skip_plain(&mut self, ty: u8) -> Result<(), WireFault>
        requires code { IsCode ty }
        requires plain { IsNested ty → ⊥ }
        ensures same_source { self.new.source.ghost_name ≡ self.old.source.ghost_name }
        ensures later { S.faults self.old.source.now ≤ S.faults self.new.source.now }
        ensures cause { self.old.progress.fault ≡ None → IsErrOf result WireFault.ReadFault → Rose (S.faults self.old.source.now) (S.faults self.new.source.now) }
        ensures stays { StaysBut WireFault.ReadFault result (S.faults self.old.source.now) (S.faults self.new.source.now) }
        ensures reads { Reads (S.left self.old.source.now) (S.left self.new.source.now) self.old.progress self.new.progress result (λ _ bytes. (w : Wire) × ((depth : ℕ) → IsWire w depth ty bytes)) (StopsPlain ty) }
        ensures unspent { OnOk result (self.new.progress.fault ≡ None) }
    {
        match ty {
            type_code::BOOL => {
                self.flag()?;
                Ok(())
            }
            type_code::BYTE => {
                self.byte()?;
                Ok(())
            }
            type_code::DOUBLE => {
                self.eight()?;
                Ok(())
            }
            type_code::I16 => {
                self.short()?;
                Ok(())
            }
            type_code::I32 => {
                self.int()?;
                Ok(())
            }
            type_code::I64 => {
                self.long()?;
                Ok(())
            }
            _ => self.skip_text(),
        }
    }

    // Passes a text, in UTF-8 or not.
    fn skip_text(&mut self) -> Result<(), WireFault>
        ensures same_source { self.new.source.ghost_name ≡ self.old.source.ghost_name }
        ensures later { S.faults self.old.source.now ≤ S.faults self.new.source.now }
        ensures cause { self.old.progress.fault ≡ None → IsErrOf result WireFault.ReadFault → Rose (S.faults self.old.source.now) (S.faults self.new.source.now) }
        ensures stays { StaysBut WireFault.ReadFault result (S.faults self.old.source.now) (S.faults self.new.source.now) }
        ensures reads { Reads (S.left self.old.source.now) (S.left self.new.source.now) self.old.progress self.new.progress result (λ _ bytes. (body : List ℕ) × IsString body bytes) StopsString }
        ensures unspent { OnOk result (self.new.progress.fault ≡ None) }
    {
        let n = self.length()?;
        self.pass(n)
    }

    // Passes so many bytes.
    fn pass(&mut self, n: usize) -> Result<(), WireFault>
        requires unspent { self.old.progress.fault ≡ None }
        ensures same_source { self.new.source.ghost_name ≡ self.old.source.ghost_name }
        ensures later { S.faults self.old.source.now ≤ S.faults self.new.source.now }
        ensures cause { self.old.progress.fault ≡ None → IsErrOf result WireFault.ReadFault → Rose (S.faults self.old.source.now) (S.faults self.new.source.now) }
        ensures stays { StaysBut WireFault.ReadFault result (S.faults self.old.source.now) (S.faults self.new.source.now) }
        ensures reads { Reads (S.left self.old.source.now) (S.left self.new.source.now) self.old.progress self.new.progress result (λ _ bytes. length bytes ≡ n) (StopsShort n) }
        ensures unspent { OnOk result (self.new.progress.fault ≡ None) }
    {
        if n <= SHORT {
            let mut short = [0; SHORT];
            return self.exact(&mut short[..n]);
        }
        let mut buf = [0; PASSED];
        let mut left = n;
        while left > 0 {
            let part = left.min(PASSED);
            self.exact(&mut buf[..part])?;
            left -= part;
        }
        Ok(())
    }
}

// Whether a value of this type is a struct or a collection.
fn is_nested(ty: u8) -> bool
    ensures { IsTrue result ↔ IsNested ty }
{
    matches!(
        ty,
        type_code::STRUCT | type_code::MAP | type_code::SET | type_code::LIST
    )
}
