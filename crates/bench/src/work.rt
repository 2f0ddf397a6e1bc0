//! What the program is asked to do.

use crate::wire_read::Reading;

/// A piece of work, and how much of it.
#[derive(Clone, Copy)]
pub enum Work {
    Make {
        count: u32,
    },
    Vals {
        count: u32,
    },
    Spec {
        count: u32,
    },
    Match {
        count: u32,
    },
    Stars {
        count: u32,
    },
    Filter {
        lists: u32,
        rounds: u32,
    },
    Put {
        count: u32,
    },
    Get {
        count: u32,
    },
    Digest {
        count: u32,
    },
    WireRead {
        reading: Reading,
        rounds: u32,
        size: u32,
    },
    WireWrite {
        count: u32,
    },
    Keep {
        count: u32,
    },
    Poll {
        kept: u32,
        newest: u32,
        polls: u32,
    },
    Lock {
        threads: u8,
        turns: u32,
    },
    Append {
        count: u32,
    },
    Open,
    ReadFile,
}

/// Each piece of work once, and little of it.
pub const EACH: [Work; 18] = [
    Work::Make { count: 3 },
    Work::Vals { count: 3 },
    Work::Spec { count: 3 },
    Work::Match { count: 3 },
    Work::Stars { count: 3 },
    Work::Filter {
        lists: 20,
        rounds: 3,
    },
    Work::Put { count: 3 },
    Work::Get { count: 3 },
    Work::Digest { count: 3 },
    Work::WireRead {
        reading: Reading::Skip,
        rounds: 2,
        size: 1,
    },
    Work::WireRead {
        reading: Reading::Fields,
        rounds: 2,
        size: 1,
    },
    Work::WireWrite { count: 3 },
    Work::Keep { count: 20 },
    Work::Poll {
        kept: 20,
        newest: 3,
        polls: 2,
    },
    Work::Lock {
        threads: 2,
        turns: 50,
    },
    Work::Append { count: 3 },
    Work::Open,
    Work::ReadFile,
];

/// The piece of work that the words ask for.
pub fn named_work(words: &[String]) -> Option<Work> {
    let [subject, words @ ..] = words else {
        return None;
    };
    match subject.as_str() {
        "names" => names(words),
        "filter" => filter(words),
        "records" => records(words),
        "digest" => digest(words),
        "wire_read" => wire_read(words),
        "wire_write" => wire_write(words),
        "events" => events(words),
        "lock" => lock(words),
        "journal" => journal(words),
        _ => None,
    }
}

fn names(words: &[String]) -> Option<Work> {
    let [word, count] = words else {
        return None;
    };
    let count = number(count)?;
    match word.as_str() {
        "make" => Some(Work::Make { count }),
        "vals" => Some(Work::Vals { count }),
        "spec" => Some(Work::Spec { count }),
        "match" => Some(Work::Match { count }),
        "stars" => Some(Work::Stars { count }),
        _ => None,
    }
}

fn filter(words: &[String]) -> Option<Work> {
    let [lists, rounds] = words else {
        return None;
    };
    Some(Work::Filter {
        lists: number(lists)?,
        rounds: number(rounds)?,
    })
}

fn records(words: &[String]) -> Option<Work> {
    let [word, count] = words else {
        return None;
    };
    let count = number(count)?;
    match word.as_str() {
        "put" => Some(Work::Put { count }),
        "get" => Some(Work::Get { count }),
        _ => None,
    }
}

fn digest(words: &[String]) -> Option<Work> {
    let [count] = words else {
        return None;
    };
    Some(Work::Digest {
        count: number(count)?,
    })
}

fn wire_read(words: &[String]) -> Option<Work> {
    let [word, rounds, size] = words else {
        return None;
    };
    let reading = match word.as_str() {
        "skip" => Reading::Skip,
        "fields" => Reading::Fields,
        _ => return None,
    };
    Some(Work::WireRead {
        reading,
        rounds: number(rounds)?,
        size: number(size)?,
    })
}

fn wire_write(words: &[String]) -> Option<Work> {
    let [count] = words else {
        return None;
    };
    Some(Work::WireWrite {
        count: number(count)?,
    })
}

fn events(words: &[String]) -> Option<Work> {
    let [word, numbers @ ..] = words else {
        return None;
    };
    match (word.as_str(), numbers) {
        ("keep", [count]) => Some(Work::Keep {
            count: number(count)?,
        }),
        ("poll", [kept, newest, polls]) => Some(Work::Poll {
            kept: number(kept)?,
            newest: number(newest)?,
            polls: number(polls)?,
        }),
        _ => None,
    }
}

fn lock(words: &[String]) -> Option<Work> {
    let [threads, turns] = words else {
        return None;
    };
    Some(Work::Lock {
        threads: threads.as_str().parse().ok()?,
        turns: number(turns)?,
    })
}

fn journal(words: &[String]) -> Option<Work> {
    let [word, count @ ..] = words else {
        return None;
    };
    match (word.as_str(), count) {
        ("append", [count]) => Some(Work::Append {
            count: number(count)?,
        }),
        ("open", []) => Some(Work::Open),
        ("read", []) => Some(Work::ReadFile),
        _ => None,
    }
}

fn number(word: &String) -> Option<u32> {
    word.as_str().parse().ok()
}
