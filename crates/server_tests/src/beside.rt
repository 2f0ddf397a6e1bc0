//! Two connections that go on only beside one another: one dumps a database, the other makes a table of it.

use crate::given::{DUMP_W, LIST, MAKE_ZZ, places, store_with_table, words_of};
use crate::meeting::Meeting;
use dump_format::read_dump;
use hms_outside::MemFolder;
use server_cli::{Plan, plan, run_server};
use std::alloc::Global;

#[test]
fn two_connections_run_beside_one_another(rt: HostRuntime) {
    let alloc = rt.alloc();
    let (Ok(words), Ok((listeners, folders, clocks)), Some((disk_a, disk_b))) = (
        words_of(alloc, "serve --port 9083 --workers 2 --sessions 1"),
        places(alloc, &[&[DUMP_W], &[LIST, MAKE_ZZ]]),
        store_with_table(alloc),
    ) else {
        panic!(rt; "memory for the server");
    };
    let words = words.as_slice();
    let Ok(Plan::Serve { port, workers }) = plan(alloc, words) else {
        panic!(rt; "a server's words");
    };
    assert_eq!(rt; (port, workers), (9083, 2));
    assert_eq!(rt; (listeners.len(), folders.len(), clocks.len()), (2, 2, 2));
    let gate = Meeting::new();
    let mut end = run_server(
        &rt, alloc, words, listeners, &gate, disk_a, disk_b, folders, clocks,
    );
    assert_eq!(rt; (end.status, end.steps), (0, 11));
    assert_eq!(rt; gate.missed(), 0);
    let Some(folder) = end.folders.first_mut() else {
        panic!(rt; "a folder");
    };
    assert_eq!(rt; told(alloc, folder), Some((2, 3, 3, 1)));
}

// Where the dump in a folder begins and ends, and how many items and events it has.
fn told(alloc: Global, folder: &mut MemFolder) -> Option<(u64, u64, usize, usize)> {
    let dump = read_dump(alloc, folder, "03030303030303030303030303030303-1").ok()?;
    Some((
        dump.manifest.begin,
        dump.manifest.end,
        dump.items.len(),
        dump.events.len(),
    ))
}
