//! Words that give an order of a tile, and words at fault.
use super::*;
use comp_tree::{Connect, Shape};
use orders::{Job, Order, Usage};
use source_pick::Choice;
use std::test::Fail;
use tile_join::Frame;
use tile_make::TilePlace;

const MOST: u32 = 2147483647;

// The order of the words below, with this number.
fn order_with(empty: Option<i64>) -> Result<TileOrder, Fail> {
    let choice = Choice {
        threshold: 9,
        min_area: 1,
        min_flux: 0,
        contrast: 5,
    };
    Ok(TileOrder {
        place: TilePlace {
            whole: Shape::wide(3000, 2000).ok_or("a shape")?,
            left: 64,
            top: 128,
            core: Frame {
                left: 80,
                top: 130,
                shape: Shape::wide(400, 200).ok_or("a shape")?,
            },
        },
        window: Shape::wide(512, 256).ok_or("a shape")?,
        empty,
        order: Order {
            job: Job::Detect { choice },
            hdu: 0,
            connect: Connect::Four,
            strips: 1,
            workers: 1,
            mesh: 32,
            flat: false,
        },
        choice,
    })
}

#[test]
fn words_give_the_number_of_empty_cells(rt: HostRuntime) -> Result<(), Fail> {
    let words = [
        "tile",
        "--whole",
        "3000",
        "2000",
        "--window",
        "64",
        "128",
        "512",
        "256",
        "--core",
        "80",
        "130",
        "400",
        "200",
        "--empty-cells",
        "-536870912",
        "detect",
        "--threshold",
        "9",
        "--mesh",
        "32",
    ];
    let tile = order_with(Some(-536870912))?;
    assert_eq!(rt; read_tile_order(&words, MOST), Ok(tile));
    Ok(())
}

#[test]
fn words_give_the_order_of_a_tile(rt: HostRuntime) -> Result<(), Fail> {
    let words = [
        "tile",
        "--whole",
        "3000",
        "2000",
        "--window",
        "64",
        "128",
        "512",
        "256",
        "--core",
        "80",
        "130",
        "400",
        "200",
        "detect",
        "--threshold",
        "9",
        "--mesh",
        "32",
    ];
    let tile = order_with(None)?;
    assert_eq!(rt; read_tile_order(&words, MOST), Ok(tile));
    Ok(())
}

// Words that give no order, and the number of the first one at fault.
#[derive(Clone, Copy)]
struct WrongWord<'a> {
    words: &'a [&'a str],
    word: u32,
}

#[test]
fn each_wrong_place_is_found(rt: HostRuntime) -> Result<(), Fail> {
    let cases: [WrongWord; 6] = [
        WrongWord {
            words: &[],
            word: 1,
        },
        WrongWord {
            words: &["tile", "--whole", "9"],
            word: 4,
        },
        WrongWord {
            words: &["tile", "--whole", "65535", "65535"],
            word: 4,
        },
        WrongWord {
            words: &["tile", "--whole", "9", "9", "--window", "0", "-1"],
            word: 7,
        },
        WrongWord {
            words: &[
                "tile", "--whole", "9", "9", "--window", "0", "0", "0", "0", "--core",
            ],
            word: 8,
        },
        WrongWord {
            words: &[
                "tile", "--whole", "9", "9", "--window", "0", "0", "9", "9", "--cores",
            ],
            word: 10,
        },
    ];
    for case in cases {
        assert_eq!(rt;
            read_tile_order(case.words, MOST),
            Err(Usage { word: case.word })
        );
    }
    Ok(())
}

#[test]
fn each_wrong_order_is_found(rt: HostRuntime) -> Result<(), Fail> {
    let cases: [WrongWord; 4] = [
        WrongWord {
            words: &[
                "tile", "--whole", "9", "9", "--window", "0", "0", "9", "9", "--core", "0", "0",
                "9", "9",
            ],
            word: 15,
        },
        WrongWord {
            words: &[
                "tile", "--whole", "9", "9", "--window", "0", "0", "9", "9", "--core", "0", "0",
                "9", "9", "tree",
            ],
            word: 15,
        },
        WrongWord {
            words: &[
                "tile",
                "--whole",
                "9",
                "9",
                "--window",
                "0",
                "0",
                "9",
                "9",
                "--core",
                "0",
                "0",
                "9",
                "9",
                "detect",
                "--threshold",
                "",
            ],
            word: 17,
        },
        WrongWord {
            words: &[
                "tile",
                "--whole",
                "9",
                "9",
                "--window",
                "1",
                "1",
                "5",
                "5",
                "--core",
                "0",
                "1",
                "5",
                "5",
                "detect",
                "--threshold",
                "1",
            ],
            word: 5,
        },
    ];
    for case in cases {
        assert_eq!(rt;
            read_tile_order(case.words, MOST),
            Err(Usage { word: case.word })
        );
    }
    Ok(())
}

// No number, one beyond 2^29, and the word behind `detect`, which stands at the place of an option's name there.
#[test]
fn each_wrong_number_is_found(rt: HostRuntime) -> Result<(), Fail> {
    let cases: [WrongWord; 4] = [
        WrongWord {
            words: &[
                "tile",
                "--whole",
                "9",
                "9",
                "--window",
                "0",
                "0",
                "9",
                "9",
                "--core",
                "0",
                "0",
                "9",
                "9",
                "--empty-cells",
            ],
            word: 16,
        },
        WrongWord {
            words: &[
                "tile",
                "--whole",
                "9",
                "9",
                "--window",
                "0",
                "0",
                "9",
                "9",
                "--core",
                "0",
                "0",
                "9",
                "9",
                "--empty-cells",
                "536870913",
                "detect",
                "--threshold",
                "1",
            ],
            word: 16,
        },
        WrongWord {
            words: &[
                "tile",
                "--whole",
                "9",
                "9",
                "--window",
                "0",
                "0",
                "9",
                "9",
                "--core",
                "0",
                "0",
                "9",
                "9",
                "--empty-cells",
                "5",
                "detect",
                "--threshold",
                "",
            ],
            word: 19,
        },
        WrongWord {
            words: &[
                "tile",
                "--whole",
                "9",
                "9",
                "--window",
                "0",
                "0",
                "9",
                "9",
                "--core",
                "0",
                "0",
                "9",
                "9",
                "detect",
                "--empty-cells",
                "5",
                "--threshold",
                "1",
            ],
            word: 16,
        },
    ];
    for case in cases {
        assert_eq!(rt;
            read_tile_order(case.words, MOST),
            Err(Usage { word: case.word })
        );
    }
    Ok(())
}

#[test]
fn joining_takes_one_word(rt: HostRuntime) -> Result<(), Fail> {
    assert_eq!(rt; read_join(&["join"]), Ok(()));
    assert_eq!(rt; read_join(&["tile"]), Err(Usage { word: 1 }));
    assert_eq!(rt; read_join(&["join", "join"]), Err(Usage { word: 2 }));
    assert_eq!(rt; read_join(&[]), Err(Usage { word: 1 }));
    Ok(())
}
