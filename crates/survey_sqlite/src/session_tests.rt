//! Sessions over tables in memory and in a file.

use crate::FileKeeper;
use crate::keeper_tests::{count_names, field};
use crate::sample::{MAP, NAMED_MAP, Sample};
use crate::sessions::{Row, compare};
use fits_write::{BYTES_IN_ROW, CELLS_IN_ROW, FLUX, NUMBER, XCEN, YCEN};
use std::alloc::Global;
use std::fs;
use std::process::Abort;
use std::test::Fail;
use survey_core::{Field, Keeper, MemKeeper, Refused};

const WHOLE: usize = usize::MAX;

const FIRST: Sample<'static> = Sample {
    width: BYTES_IN_ROW,
    sources: &[(1, 4, 2000), (2, 3, 4000)],
};

const SECOND: Sample<'static> = Sample {
    width: BYTES_IN_ROW,
    sources: &[(1, 10, 2900)],
};

const FAINT: Sample<'static> = Sample {
    width: BYTES_IN_ROW,
    sources: &[(1, 4, 2000)],
};

const EMPTY: Sample<'static> = Sample {
    width: BYTES_IN_ROW,
    sources: &[],
};

const NARROW: Sample<'static> = Sample {
    width: BYTES_IN_ROW - 8,
    sources: &[(1, 10, 2900)],
};

// The second row has the first one's number.
const MISNUMBERED: Sample<'static> = Sample {
    width: BYTES_IN_ROW,
    sources: &[(1, 4, 2000), (1, 3, 4000)],
};

// The sum of its fluxes is 2^63, which is too great for a flux.
const GREAT: Sample<'static> = Sample {
    width: BYTES_IN_ROW,
    sources: &[(1, i64::MAX, 2900), (2, 1, 4000)],
};

const ANSWERED: [Row<'static>; 4] = [
    Row {
        words: &[
            "add",
            "A",
            "add",
            "B",
            "list",
            "brightest",
            "2",
            "drop",
            "A",
            "list",
        ],
        samples: &[FIRST, SECOND],
        most: WHOLE,
        status: 0,
        taken: 34560,
        output: b"A 2 7\nB 1 10\nB 1 10 2900 1000\nA 1 4 2000 1000\nB 1 10\n",
        notes: b"",
    },
    Row {
        words: &["add", "Z", "list"],
        samples: &[EMPTY],
        most: WHOLE,
        status: 0,
        taken: 14400,
        output: b"Z 0 0\n",
        notes: b"",
    },
    Row {
        words: &["--file", "", "add", "--file", "list"],
        samples: &[FIRST],
        most: WHOLE,
        status: 0,
        taken: 17280,
        output: b"--file 2 7\n",
        notes: b"",
    },
    // both fields have the greatest flux
    Row {
        words: &["add", "B", "list", "add", "A", "brightest", "2"],
        samples: &[GREAT, GREAT],
        most: WHOLE,
        status: 0,
        taken: 34560,
        output: b"B 2 9223372036854775808\nA 1 9223372036854775807 2900 1000\nB 1 9223372036854775807 2900 1000\n",
        notes: b"",
    },
];

const REFUSED: [Row<'static>; 5] = [
    Row {
        words: &["add", "A", "add", "B"],
        samples: &[FIRST],
        most: WHOLE,
        status: 2,
        taken: 17280,
        output: b"",
        notes: b"refused: 1 NotFits\n",
    },
    Row {
        words: &["list", "drop", "A"],
        samples: &[],
        most: WHOLE,
        status: 2,
        taken: 0,
        output: b"",
        notes: b"refused: 24 NoSuchField\n",
    },
    Row {
        words: &["add", "A"],
        samples: &[FIRST],
        most: 14500,
        status: 2,
        taken: 14500,
        output: b"",
        notes: b"refused: 22 TruncatedTable\n",
    },
    Row {
        words: &["add", "A"],
        samples: &[NARROW],
        most: WHOLE,
        status: 2,
        taken: 14400,
        output: b"",
        notes: b"refused: 20 NotCatalogue\n",
    },
    Row {
        words: &["add", "A"],
        samples: &[MISNUMBERED],
        most: WHOLE,
        status: 2,
        taken: 14400 + 2 * BYTES_IN_ROW,
        output: b"",
        notes: b"refused: 23 RowNumber row 2\n",
    },
];

const MISUSED: [Row<'static>; 4] = [
    Row {
        words: &["brightest", "0"],
        samples: &[FIRST],
        most: WHOLE,
        status: 1,
        taken: 0,
        output: b"",
        notes: b"usage: word 2\n",
    },
    Row {
        words: &["brightest", "0"],
        samples: &[],
        most: WHOLE,
        status: 1,
        taken: 0,
        output: b"",
        notes: b"usage: word 2\n",
    },
    Row {
        words: &["--file"],
        samples: &[],
        most: WHOLE,
        status: 1,
        taken: 0,
        output: b"",
        notes: b"usage: word 2\n",
    },
    Row {
        words: &["--file", "s.db"],
        samples: &[],
        most: WHOLE,
        status: 1,
        taken: 0,
        output: b"",
        notes: b"usage: word 3\n",
    },
];

const ADDS: Row<'static> = Row {
    words: &["add", "A"],
    samples: &[FIRST],
    most: WHOLE,
    status: 0,
    taken: 17280,
    output: b"",
    notes: b"",
};

// Over catalogues whose maps have a name, and over such as have none. Each keeper is a new one.
fn compare_both<R: Abort>(rt: &R, alloc: Global, row: Row) -> Result<(), Fail> {
    compare(rt, alloc, &NAMED_MAP, &mut MemKeeper::new(alloc, &[]), row)?;
    compare(rt, alloc, &MAP, &mut MemKeeper::new(alloc, &[]), row)
}

#[test]
fn sessions_answer_as_they_should(rt: HostRuntime) -> Result<(), Fail> {
    for row in ANSWERED {
        compare_both(&rt, rt.alloc(), row)?;
    }
    for row in REFUSED {
        compare_both(&rt, rt.alloc(), row)?;
    }
    for row in MISUSED {
        compare_both(&rt, rt.alloc(), row)?;
    }
    Ok(())
}

#[test]
fn a_keeper_fault_has_a_status_of_its_own(rt: HostRuntime) -> Result<(), Fail> {
    let alloc = rt.alloc();
    let mut keeper = MemKeeper::new(alloc, &[1]);
    let row = Row {
        words: &["add", "A", "list"],
        status: 6,
        notes: b"keeper fault\n",
        ..ADDS
    };
    compare(&rt, alloc, &NAMED_MAP, &mut keeper, row)
}

// Each of its calls wants memory.
#[derive(Drop)]
struct Full;

impl Keeper for Full {
    ghost use Rattle.std.specs.declared.option.Option.TheVariants.{None};

    ghost tables = { λ _. None };

    ghost faults = { λ _. 0 };

    fn replace(&mut self, _alloc: Global, _field: Field, _cells: &[i64]) -> Result<(), Refused> {
        Err(Refused::OutOfMemory)
    }

    fn remove(&mut self, _alloc: Global, _field: Field) -> Result<bool, Refused> {
        Err(Refused::OutOfMemory)
    }

    fn names(&mut self, _alloc: Global) -> Result<Vec<Field>, Refused> {
        Err(Refused::OutOfMemory)
    }

    fn rows(&mut self, _alloc: Global, _field: Field) -> Result<Option<Vec<i64>>, Refused> {
        Err(Refused::OutOfMemory)
    }

    ghost tables_are = { λ _. tt };
}

#[test]
fn want_of_memory_has_a_status_of_its_own(rt: HostRuntime) -> Result<(), Fail> {
    let row = Row {
        words: &["list"],
        samples: &[],
        most: WHOLE,
        status: 5,
        taken: 0,
        output: b"",
        notes: b"out of memory\n",
    };
    compare(&rt, rt.alloc(), &MAP, &mut Full, row)
}

#[test]
fn a_fault_leaves_what_was_done(rt: HostRuntime) -> Result<(), Fail> {
    let alloc = rt.alloc();
    let mut keeper = MemKeeper::new(alloc, &[]);
    let row = Row {
        words: &["add", "A", "drop", "B"],
        samples: &[FAINT],
        status: 2,
        notes: b"refused: 24 NoSuchField\n",
        ..ADDS
    };
    compare(&rt, alloc, &NAMED_MAP, &mut keeper, row)?;
    assert_eq!(rt; count_names(alloc, &mut keeper), Some(1));
    Ok(())
}

// The cells of the one source of `SECOND`.
fn cells_of_second() -> [i64; CELLS_IN_ROW] {
    let mut row = [0; CELLS_IN_ROW];
    row[NUMBER] = 1;
    row[FLUX] = 10;
    row[XCEN] = 2900;
    row[YCEN] = 1000;
    row
}

fn has_cells<K: Keeper>(alloc: Global, keeper: &mut K, field: Field, cells: &[i64]) -> bool {
    let kept = keeper.rows(alloc, field);
    matches!(&kept, Ok(Some(kept)) if kept.as_slice() == cells)
}

// The second of two catalogues stands in the first one's place.
fn replaces<K: Keeper, R: Abort>(rt: &R, alloc: Global, keeper: &mut K) -> Result<(), Fail> {
    compare(rt, alloc, &MAP, keeper, ADDS)?;
    let row = Row {
        samples: &[SECOND],
        ..ADDS
    };
    compare(rt, alloc, &MAP, keeper, row)?;
    let a = field(rt, "A");
    assert!(rt; has_cells(alloc, keeper, a, &cells_of_second()));
    assert_eq!(rt; count_names(alloc, keeper), Some(1));
    Ok(())
}

#[test]
fn an_add_replaces(rt: HostRuntime) -> Result<(), Fail> {
    let _ = fs::remove_dir_all(&rt, "survey_sqlite_adds");
    fs::create_dir(&rt, "survey_sqlite_adds")?;
    let mut keeper = FileKeeper::at(&rt, "survey_sqlite_adds/s.db");
    replaces(&rt, rt.alloc(), &mut keeper)?;
    keeper.close();
    fs::remove_dir_all(&rt, "survey_sqlite_adds")?;
    Ok(())
}

const FILE: &str = "survey_sqlite_runs/s.db";

const IN_FILE: [Row<'static>; 2] = [
    Row {
        words: &["--file", FILE, "add", "A"],
        samples: &[FIRST],
        most: WHOLE,
        status: 0,
        taken: 17280,
        output: b"",
        notes: b"",
    },
    Row {
        words: &["--file", FILE, "list"],
        samples: &[],
        most: WHOLE,
        status: 0,
        taken: 0,
        output: b"A 2 7\n",
        notes: b"",
    },
];

#[test]
fn a_later_run_finds_the_file(rt: HostRuntime) -> Result<(), Fail> {
    let _ = fs::remove_dir_all(&rt, "survey_sqlite_runs");
    fs::create_dir(&rt, "survey_sqlite_runs")?;
    for row in IN_FILE {
        let mut keeper = FileKeeper::at(&rt, FILE);
        compare(&rt, rt.alloc(), &MAP, &mut keeper, row)?;
        keeper.close();
    }
    fs::remove_dir_all(&rt, "survey_sqlite_runs")?;
    Ok(())
}
