//! What the words of `measure` mean.
use crate::{Job, Order, Usage, read_order};
use comp_tree::Connect;
use source_pick::Choice;
use std::test::Fail;

#[test]
fn every_option_is_read(rt: HostRuntime) -> Result<(), Fail> {
    let words = &[
        "measure",
        "--hdu",
        "3",
        "--values",
        "65535",
        "--connect",
        "8",
        "--strips",
        "5",
        "--workers",
        "2",
        "--mesh",
        "32",
        "--flat",
        "1",
        "--threshold",
        "-7",
        "--min-area",
        "6",
        "--min-flux",
        "9",
        "--contrast",
        "12",
    ];
    let order = Order {
        job: Job::Measure {
            choice: Choice {
                threshold: -7,
                min_area: 6,
                min_flux: 9,
                contrast: 12,
            },
            values: 65535,
        },
        hdu: 3,
        connect: Connect::Eight,
        strips: 5,
        workers: 2,
        mesh: 32,
        flat: true,
    };
    assert_eq!(rt; read_order(words), Ok(order));
    Ok(())
}

#[test]
fn each_wrong_word_of_measuring_is_named(rt: HostRuntime) -> Result<(), Fail> {
    let cases: [(&[&str], u32); 14] = [
        (&["measure"], 2),
        (&["measure", "--values", "0", "--threshold", "2"], 6),
        (&["measure", "--values", "1"], 4),
        (&["measure", "--threshold", "2"], 4),
        (
            &["measure", "--hdu", "1", "--values", "1", "--threshold", "2"],
            8,
        ),
        (
            &[
                "measure",
                "--values",
                "1",
                "--values",
                "2",
                "--threshold",
                "2",
            ],
            4,
        ),
        (&["measure", "--values", "65536", "--threshold", "2"], 3),
        (&["measure", "--threshold", "2", "--values", "-1"], 5),
        (&["measure", "--values"], 3),
        (&["measure", "--threshold", "2", "--values"], 5),
        (&["measure", "--rows", "1"], 2),
        (&["measure", "--rule", "min"], 2),
        (&["measure", "--values", "1", "--max-area", "3"], 4),
        (&["measure", "--values", "1", "--seed", "3"], 4),
    ];
    for (words, word) in cases {
        assert_eq!(rt; read_order(words), Err(Usage { word }));
    }
    Ok(())
}

#[test]
fn no_other_command_measures(rt: HostRuntime) -> Result<(), Fail> {
    let cases: [(&[&str], u32); 4] = [
        (&["measures", "--values", "1", "--threshold", "2"], 1),
        (&["detect", "--values", "1", "--threshold", "2"], 2),
        (&["detect", "measure"], 2),
        (&["trial", "--values", "1"], 2),
    ];
    for (words, word) in cases {
        assert_eq!(rt; read_order(words), Err(Usage { word }));
    }
    Ok(())
}
