//! What the words of `measure` mean by themselves.
use crate::{MeasureOrder, read_measure};
use comp_tree::Connect;
use orders::{Job, Order, Usage};
use source_pick::Choice;
use std::test::Fail;

#[test]
fn an_order_to_detect_and_the_values_are_read(rt: HostRuntime) -> Result<(), Fail> {
    let words = [
        "measure",
        "--hdu",
        "3",
        "--threshold",
        "-7",
        "--values",
        "65535",
    ];
    let choice = Choice {
        threshold: -7,
        min_area: 1,
        min_flux: 0,
        contrast: 5,
    };
    let order = Order {
        job: Job::Detect { choice },
        hdu: 3,
        connect: Connect::Four,
        strips: 1,
        workers: 1,
        mesh: 0,
        flat: false,
    };
    let wanted = MeasureOrder {
        order,
        values: 65535,
    };
    assert_eq!(rt; read_measure(&words), Ok(wanted));
    Ok(())
}

#[test]
fn words_at_fault_give_none(rt: HostRuntime) -> Result<(), Fail> {
    let cases: [(&[&str], u32); 4] = [
        (&["measure", "--values", "0", "--threshold", "2"], 6),
        (&["measure", "--rule", "min"], 2),
        (&["detect", "--threshold", "2"], 1),
        (&[], 1),
    ];
    for (words, word) in cases {
        assert_eq!(rt; read_measure(words), Err(Usage { word }));
    }
    Ok(())
}
