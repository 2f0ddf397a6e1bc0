//! Cases of the journal over disks in memory: what files open to, and what crashes and failing calls
//! leave of a run of calls.
#![tactic(auto)]

mod files;
mod runs;
mod telling;

use files::Files;
use runs::Runs;
use table_cases::{Unable, run_table};

fn main(rt: HostRuntime) -> Result<(), Unable> {
    run_table(&rt, "files", &Files)?;
    run_table(&rt, "runs", &Runs)
}
