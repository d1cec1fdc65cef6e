//! The program: hands its words and its streams to `run_survey`, over the tables of the file that the words name, or over tables in memory,
//! and exits with its status.
#![tactic(auto)]

use command_line::words::{NO_MEMORY, words};
use dev_io::{ReadSource, WriteSink};
use std::process::ExitCode;
use std::rt::HostRuntime;
use survey_core::{Keeper, MemKeeper, path_of, run_survey};
use survey_sqlite::FileKeeper;

// Over these tables, with the program's streams.
fn survey<K: Keeper>(rt: &HostRuntime, words: &[&str], keeper: &mut K) -> u8 {
    let mut input = ReadSource::new(rt.stdin());
    let mut output = WriteSink::new(rt.stdout());
    let mut notes = WriteSink::new(rt.stderr());
    run_survey(
        rt.alloc(),
        words,
        &mut input,
        keeper,
        &mut output,
        &mut notes,
    )
}

fn main(rt: HostRuntime) -> ExitCode {
    let alloc = rt.alloc();
    let Ok(words) = words(&rt) else {
        return ExitCode::from(NO_MEMORY);
    };
    let mut texts = Vec::new(alloc);
    for word in &words {
        if texts.push(word.as_str()).is_err() {
            return ExitCode::from(NO_MEMORY);
        }
    }
    let status = match path_of(&texts) {
        Some(path) => {
            let mut keeper = FileKeeper::at(&rt, path);
            let status = survey(&rt, &texts, &mut keeper);
            keeper.close();
            status
        }
        None => survey(&rt, &texts, &mut MemKeeper::new(alloc, &[])),
    };
    ExitCode::from(status)
}
