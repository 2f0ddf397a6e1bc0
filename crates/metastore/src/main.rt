//! The metastore's program: `metastore STORE DUMPS COMMAND ..`.
#![tactic(auto)]

mod local;
mod serving;
mod words;

use hms_outside::{FileDisk, StreamSink, StreamSource};
use local::local;
use server_cli::{Plan, plan};
use serving::{folders_of, serve};
use std::process::ExitCode;
use words::{command_of, dumps_of, path_of, words};

fn main(rt: HostRuntime) -> ExitCode {
    let alloc = rt.alloc();
    let Ok(words) = words(&rt) else {
        return ExitCode::from(10);
    };
    let (Ok(path_a), Ok(path_b), Ok(dumps)) = (
        path_of(alloc, &words, "store.a"),
        path_of(alloc, &words, "store.b"),
        dumps_of(alloc, &words),
    ) else {
        return ExitCode::from(10);
    };
    let disk_a = FileDisk::open(&rt, path_a.as_str());
    let disk_b = FileDisk::open(&rt, path_b.as_str());
    let mut errors = StreamSink::new(alloc, rt.stderr());
    let command = command_of(&words);
    let status = match plan(alloc, command) {
        Ok(Plan::Local) => {
            let mut input = StreamSource::new(alloc, rt.stdin());
            let mut output = StreamSink::new(alloc, rt.stdout());
            local(
                &rt,
                command,
                dumps,
                &mut input,
                &mut output,
                &mut errors,
                disk_a,
                disk_b,
            )
        }
        Ok(Plan::Serve { port, workers }) => match folders_of(&rt, dumps.as_str(), workers) {
            Ok(folders) => serve(
                &rt,
                command,
                folders,
                port,
                workers,
                &mut errors,
                disk_a,
                disk_b,
            ),
            Err(_) => 10,
        },
        Err(_) => 10,
    };
    ExitCode::from(status)
}
