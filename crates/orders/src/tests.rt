//! Words that give an order, and words at fault.
use crate::{Job, Order, Usage, read_order, read_order_within};
use comp_tree::Connect;
use filter_rules::{Criterion, Rule};
use source_pick::Choice;
use std::test::Fail;

// Words that give no order, and the number of the first one at fault.
#[derive(Clone, Copy)]
struct WrongWord<'a> {
    words: &'a [&'a str],
    word: u32,
}

#[test]
fn each_wrong_name_is_found(rt: HostRuntime) -> Result<(), Fail> {
    let cases: [WrongWord; 6] = [
        WrongWord {
            words: &[],
            word: 1,
        },
        WrongWord {
            words: &["draw"],
            word: 1,
        },
        WrongWord {
            words: &["tree", "--rows", "1"],
            word: 2,
        },
        WrongWord {
            words: &["tree", "--rule", "min"],
            word: 2,
        },
        WrongWord {
            words: &["tree", "--hdu", "1", "--hdu", "1"],
            word: 4,
        },
        WrongWord {
            words: &["tree", "--mesh", "2", "--mesh", "2"],
            word: 4,
        },
    ];
    for case in cases {
        assert_eq!(rt; read_order(case.words), Err(Usage { word: case.word }));
    }
    Ok(())
}

#[test]
fn each_wrong_value_is_found(rt: HostRuntime) -> Result<(), Fail> {
    let cases: [WrongWord; 9] = [
        WrongWord {
            words: &["tree", "--hdu", "65536"],
            word: 3,
        },
        WrongWord {
            words: &["tree", "--hdu", "+1"],
            word: 3,
        },
        WrongWord {
            words: &["tree", "--connect", "6"],
            word: 3,
        },
        WrongWord {
            words: &["tree", "--strips", "0"],
            word: 3,
        },
        WrongWord {
            words: &["tree", "--workers", "65"],
            word: 3,
        },
        WrongWord {
            words: &["tree", "--mesh", "65536"],
            word: 3,
        },
        WrongWord {
            words: &["trial", "--flat", "2"],
            word: 3,
        },
        WrongWord {
            words: &["filter", "--rule", "middle"],
            word: 3,
        },
        WrongWord {
            words: &["filter", "--rule", "min", "--min-fill", "1001"],
            word: 5,
        },
    ];
    for case in cases {
        assert_eq!(rt; read_order(case.words), Err(Usage { word: case.word }));
    }
    Ok(())
}

#[test]
fn each_missing_word_is_found(rt: HostRuntime) -> Result<(), Fail> {
    let cases: [WrongWord; 5] = [
        WrongWord {
            words: &["tree", "--hdu"],
            word: 3,
        },
        WrongWord {
            words: &["tree", "--strips"],
            word: 3,
        },
        WrongWord {
            words: &["tree", "--hdu", "-0", "--connect"],
            word: 5,
        },
        WrongWord {
            words: &["filter"],
            word: 2,
        },
        WrongWord {
            words: &["filter", "--min-area", "2", "--max-area", "2"],
            word: 6,
        },
    ];
    for case in cases {
        assert_eq!(rt; read_order(case.words), Err(Usage { word: case.word }));
    }
    Ok(())
}

#[test]
fn words_of_a_detection_are_read(rt: HostRuntime) -> Result<(), Fail> {
    let cases: [(&[&str], u32); 7] = [
        (&["detect"], 2),
        (&["detect", "--threshold"], 3),
        (&["detect", "--contrast", "5"], 4),
        (&["detect", "--rule", "min"], 2),
        (&["detect", "--contrast", "1001"], 3),
        (&["detect", "--threshold", "137438953473"], 3),
        (&["detect", "--min-flux", "4611686018427387905"], 3),
    ];
    for (words, word) in cases {
        assert_eq!(rt; read_order(words), Err(Usage { word }));
    }
    let order = Order {
        job: Job::Detect {
            choice: Choice {
                threshold: -137438953472,
                min_area: 1,
                min_flux: 0,
                contrast: 5,
            },
        },
        hdu: 0,
        connect: Connect::Four,
        strips: 1,
        workers: 1,
        mesh: 0,
        flat: false,
    };
    assert_eq!(rt;
        read_order(&["detect", "--threshold", "-137438953472"]),
        Ok(order)
    );
    Ok(())
}

#[test]
fn each_wrong_word_of_a_trial_is_named(rt: HostRuntime) -> Result<(), Fail> {
    let cases: [(&[&str], u32); 6] = [
        (&["trial", "--width", "1", "--height", "1"], 6),
        (
            &[
                "trial", "--seed", "1", "--width", "65535", "--height", "65535",
            ],
            8,
        ),
        (&["trial", "--seed", "1", "--width", "1"], 6),
        (&["trial", "--hdu", "0"], 2),
        (&["trial", "--seed", "4294967296"], 3),
        (&["tree", "--width", "1"], 2),
    ];
    for (words, word) in cases {
        assert_eq!(rt; read_order(words), Err(Usage { word }));
    }
    Ok(())
}

// The greatest area is the most pixels, also where none is given.
#[test]
fn areas_go_up_to_the_most_pixels(rt: HostRuntime) -> Result<(), Fail> {
    let words: [&str; 5] = ["filter", "--rule", "min", "--min-area", "2147483647"];
    assert_eq!(rt; read_order(&words), Err(Usage { word: 5 }));
    let order = Order {
        job: Job::Filter {
            rule: Rule::Min,
            criterion: Criterion {
                min_area: 2_147_483_647,
                max_area: 2_147_483_647,
                min_flux: 0,
                min_fill: 0,
            },
        },
        hdu: 0,
        connect: Connect::Four,
        strips: 1,
        workers: 1,
        mesh: 0,
        flat: false,
    };
    assert_eq!(rt; read_order_within(&words, 2_147_483_647), Ok(order));
    Ok(())
}
