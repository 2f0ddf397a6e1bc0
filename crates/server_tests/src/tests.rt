//! What words are planned to, and two workers at one store.

use crate::given::{LIST, places, store, words_of};
use ms_server::FreeGate;
use server_cli::{Plan, plan, run_server};

#[test]
fn pipe_is_for_one_process(rt: HostRuntime) {
    let Ok(words) = words_of(rt.alloc(), "pipe") else {
        panic!(rt; "memory for the words");
    };
    assert!(rt; plan(rt.alloc(), &words) == Ok(Plan::Local));
}

#[test]
fn two_workers_serve_a_session_each(rt: HostRuntime) {
    let alloc = rt.alloc();
    let (Ok(words), Ok((listeners, folders, clocks)), Some((disk_a, disk_b))) = (
        words_of(alloc, "serve --port 9083 --workers 2 --sessions 1"),
        places(alloc, &[&[LIST; 10], &[LIST; 10]]),
        store(alloc),
    ) else {
        panic!(rt; "memory for the server");
    };
    let words = words.as_slice();
    let Ok(Plan::Serve { port, workers }) = plan(alloc, words) else {
        panic!(rt; "a server's words");
    };
    assert_eq!(rt; (port, workers), (9083, 2));
    assert_eq!(rt; (listeners.len(), folders.len(), clocks.len()), (2, 2, 2));
    let end = run_server(
        &rt, alloc, words, listeners, &FreeGate, disk_a, disk_b, folders, clocks,
    );
    assert_eq!(rt; (end.status, end.steps), (0, 20));
    assert!(rt; end.ends.as_slice() == [0, 0].as_slice());
    assert!(rt; end.calls.as_slice() == [10, 10].as_slice());
}
