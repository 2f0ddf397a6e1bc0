//! What the files of a dump hold: items, or events.

ghost use Rattle.std.specs.List.{last_or};
ghost use Rattle.std.specs.Prelude.{None};
ghost use Rattle.change_codec.specs.Forms.{Form};
ghost use Rattle.change_codec.specs.Records.{an_item, event, newest};
ghost use Rattle.dump_files.specs.Events.{event_stands};
ghost use Rattle.dump_files.specs.Files.{ReadsFile, Rule, file_of};
ghost use Rattle.dump_files.specs.Items.{item_stands};
ghost use Rattle.dump_files.specs.declared.bounds.Bounds.{Bounds};

use cat_types::{Event, Item, ListOf};
use dump_files::{Bounds, FileFault, read_event_file, read_item_file};
use std::alloc::Global;

/// An element of a dump's files.
pub trait Filed: Drop {
    /// Where it may stand in a dump.
    ghost rule: { Bounds → Rule Self };

    /// How it is spelled and read.
    ghost form: { Form Self };

    /// Adds the elements of one file to those of the files before it.
    fn read(
        alloc: Global,
        bounds: &Bounds,
        bytes: &[u8],
        elements: &mut ListOf<Self>,
    ) -> Result<(), FileFault>
        ensures { ReadsFile (file_of (rule bounds.now) form (last_or None elements.old)) bytes.now elements.old elements.new result };
}

impl Filed for Item {
    ghost rule = { item_stands };

    ghost form = { an_item newest };

    fn read(
        alloc: Global,
        bounds: &Bounds,
        bytes: &[u8],
        elements: &mut ListOf<Item>,
    ) -> Result<(), FileFault> {
        read_item_file(alloc, bounds, bytes, elements)
    }
}

impl Filed for Event {
    ghost rule = { event_stands };

    ghost form = { event newest };

    fn read(
        alloc: Global,
        bounds: &Bounds,
        bytes: &[u8],
        elements: &mut ListOf<Event>,
    ) -> Result<(), FileFault> {
        read_event_file(alloc, bounds, bytes, elements)
    }
}
