use super::*;
use crate::in_memory::{NONE_FAILS, compare_end, compare_output, run_in_memory};
use std::alloc::Global;
use std::process::Abort;
use std::test::Fail;
use std::thread::Threads;

// Compares all that a trial shows, which leaves the input.
fn compare_trial<R: Threads + Sync + Abort>(
    rt: &R,
    alloc: Global,
    words: &[&str],
    bytes: &[u8],
    line: &[u8],
) -> Result<(), Fail> {
    let found = run_in_memory(rt, alloc, words, bytes, 99, NONE_FAILS)?;
    compare_end(rt, &found, 0, b"");
    compare_output(rt, &found, line);
    assert_eq!(rt; found.left, bytes.len());
    Ok(())
}

#[test]
fn a_trial_leaves_the_input(rt: HostRuntime) -> Result<(), Fail> {
    let alloc = rt.alloc();
    let bytes = b"no image".as_slice();
    let cases: &[(&[&str], &[u8])] = &[
        (
            &[
                "trial", "--seed", "7", "--width", "3", "--height", "2", "--strips", "2",
            ],
            b"pixels 6 nodes 6 roots 1 areas 17 fluxes 2433 sources 3 mapped 3\n",
        ),
        (
            &["trial", "--seed", "0", "--width", "1", "--height", "1"],
            b"pixels 1 nodes 1 roots 1 areas 1 fluxes 0 sources 0 mapped 0\n",
        ),
        (
            &["trial", "--seed", "7", "--width", "3", "--height", "2"],
            b"pixels 6 nodes 6 roots 1 areas 17 fluxes 2433 sources 3 mapped 3\n",
        ),
        (
            &[
                "trial",
                "--seed",
                "7",
                "--width",
                "3",
                "--height",
                "2",
                "--connect",
                "8",
            ],
            b"pixels 6 nodes 6 roots 1 areas 21 fluxes 2550 sources 1 mapped 4\n",
        ),
        (
            &[
                "trial", "--height", "2", "--width", "3", "--seed", "7", "--mesh", "1", "--flat",
                "1",
            ],
            b"pixels 6 nodes 1 roots 1 areas 6 fluxes 0 sources 0 mapped 0\n",
        ),
    ];
    for (words, line) in cases {
        compare_trial(&rt, alloc, *words, bytes, *line)?;
    }
    Ok(())
}

// The line was found by another program. It doesn't depend on how many strips and workers there are.
#[test]
fn a_large_trial_has_one_line(rt: HostRuntime) -> Result<(), Fail> {
    let alloc = rt.alloc();
    let line =
        b"pixels 1048576 nodes 570419 roots 1 areas 97549448 fluxes 9810776997 sources 177391 mapped 344478\n".as_slice();
    for strips in ["1", "8", "64"] {
        for workers in ["1", "4", "64"] {
            let words = [
                "trial",
                "--seed",
                "7",
                "--width",
                "1024",
                "--height",
                "1024",
                "--strips",
                strips,
                "--workers",
                workers,
            ];
            compare_trial(&rt, alloc, &words, &[], line)?;
        }
    }
    Ok(())
}

// The line was found by another program. A strip for each row.
#[test]
fn a_high_trial_has_one_line(rt: HostRuntime) -> Result<(), Fail> {
    let alloc = rt.alloc();
    let line =
        b"pixels 64000 nodes 35684 roots 1 areas 5858060 fluxes 590550191 sources 11115 mapped 21076\n".as_slice();
    for (strips, workers) in [("1", "1"), ("1000", "8")] {
        let words = [
            "trial",
            "--seed",
            "7",
            "--width",
            "64",
            "--height",
            "1000",
            "--strips",
            strips,
            "--workers",
            workers,
        ];
        compare_trial(&rt, alloc, &words, &[], line)?;
    }
    Ok(())
}
