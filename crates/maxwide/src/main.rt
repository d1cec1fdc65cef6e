//! The program for large images: hands its words and its streams to `run_wide` with the limits of large images, and exits with its status.
#![tactic(auto)]

use command_line::words::{NO_MEMORY, words};
use dev_io::{ReadSource, WriteSink};
use pixel_plane::Limits;
use std::io::BufWriter;
use std::process::ExitCode;
use strip_crew::OpenGate;
use wide_top::run_wide;

// So many bytes of output go to the device at once.
const AT_ONCE: usize = 65_536;

fn main(rt: HostRuntime) -> ExitCode {
    let alloc = rt.alloc();
    let Ok(words) = words(&rt) else {
        return ExitCode::from(NO_MEMORY);
    };
    let mut texts = Vec::new(alloc);
    for word in &words {
        if texts.push(word.as_str()).is_err() {
            return ExitCode::from(NO_MEMORY);
        }
    }
    let mut input = ReadSource::new(rt.stdin());
    let Ok(stdout) = BufWriter::with_capacity(alloc, AT_ONCE, rt.stdout()) else {
        return ExitCode::from(NO_MEMORY);
    };
    let mut output = WriteSink::new(stdout);
    let mut notes = WriteSink::new(rt.stderr());
    let status = run_wide(
        &rt,
        alloc,
        &texts,
        &Limits::wide(),
        &mut input,
        &mut output,
        &mut notes,
        &OpenGate,
    );
    ExitCode::from(status)
}
