//! A plain list of lines under the lock, in one thread and in several.

ghost use Rattle.std.specs.Prelude.{◌≡◌, [], refl};

use crate::{Works, run_many, run_two, steps};
use std::alloc::Global;
use std::process::Abort;
use turn_lock::{Standing, Turns};

/// Who wrote it, and which of the writer's lines it is.
#[derive(Drop, Clone, Copy)]
struct Line {
    caller: u32,
    number: u32,
}

/// The lines so far. Want of memory ends the test.
#[derive(Drop)]
struct Book<R> {
    rt: R,
    lines: Vec<Line>,
}

impl<R: Abort> Standing for Book<R> {
    type Entry = Line;

    type Start = ();

    ghost history = { λ b. b.lines.items };

    ghost caller_of = { λ line. line.caller };

    ghost start = { λ _. tt };
}

impl<R: Abort> Works for Book<R> {
    ghost entry = { λ caller number. record { caller = caller; number = number } };

    fn work(&mut self, caller: u32, number: u32) {
        self.lines
            .push(Line { caller, number })
            .expect(&self.rt, "memory for a line");
    }

    ghost by_caller = { λ caller number. refl };
}

fn empty<R: Abort>(rt: R, alloc: Global) -> Book<R>
    ensures { result.lines.items ≡ [] }
{
    Book {
        rt,
        lines: Vec::new(alloc),
    }
}

/// How many lines the caller wrote, if they stand in their order.
fn written(lines: &[Line], caller: u32) -> Option<u32> {
    let mut count = 0;
    for line in lines {
        if line.caller == caller {
            if line.number != count {
                return None;
            }
            count = u32::checked_add(count, 1)?;
        }
    }
    Some(count)
}

#[test]
fn one_thread_takes_a_thousand_turns(rt: HostRuntime) {
    let alloc: Global = rt.alloc();
    let Ok((turns, mut first)) = Turns::new(alloc, empty(rt, alloc)) else {
        panic!(rt; "memory for the lock");
    };
    steps(&turns, &rt, &mut first, 1000);
    let book = turns.close(first);
    assert_eq!(rt; book.lines.len(), 1000);
    assert_eq!(rt; written(&book.lines, 0), Some(1000));
}

#[test]
fn passes_come_and_go(rt: HostRuntime) {
    let alloc: Global = rt.alloc();
    let Ok((turns, mut first)) = Turns::new(alloc, empty(rt, alloc)) else {
        panic!(rt; "memory for the lock");
    };
    let mut second = turns.split(&mut first);
    let mut third = turns.split(&mut first);
    assert_eq!(rt;
        (first.caller(), second.caller(), third.caller()),
        (0, 1, 2)
    );
    let mut turn = turns.enter(&rt, &mut third);
    turn.value().work(2, 0);
    turns.leave(&mut third, turn);
    steps(&turns, &rt, &mut second, 2);
    turns.join(&mut first, third);
    assert!(rt; !first.has_all_joined());
    turns.join(&mut first, second);
    assert!(rt; first.has_all_joined());
    let book = turns.close(first);
    let mut callers = book.lines.iter().map(|line| line.caller);
    assert_eq!(rt;
        (
            callers.next(),
            callers.next(),
            callers.next(),
            callers.next()
        ),
        (Some(2), Some(1), Some(1), None)
    );
}

#[test]
fn threads_take_their_turns_in_order(rt: HostRuntime) {
    let alloc: Global = rt.alloc();
    let Ok(book) = run_many(&rt, alloc, empty(rt, alloc), 4, 250) else {
        panic!(rt; "memory for the passes");
    };
    assert_eq!(rt; book.lines.len(), 1000);
    for caller in 1..5 {
        assert_eq!(rt; written(&book.lines, caller), Some(250), "caller {caller}");
    }
    let Ok(book) = run_two(&rt, alloc, empty(rt, alloc), 400, 600) else {
        panic!(rt; "memory for the lock");
    };
    assert_eq!(rt; book.lines.len(), 1000);
    assert_eq!(rt;
        (written(&book.lines, 0), written(&book.lines, 1)),
        (Some(400), Some(600))
    );
}
