//! The lines of nodes by rounds, which are those one after the other.

use crate::lines::put_lines;
use crate::rounds::put_in_rounds;
use comp_tree::NodeRow;
use dev_io::MemSink;
use std::test::Fail;

// The first round has two texts, each longer than a block; the last text of the second is shorter.
#[test]
fn lines_by_rounds(rt: HostRuntime) -> Result<(), Fail> {
    let alloc = rt.alloc();
    let mut rows = Vec::new(alloc);
    let mut areas = Vec::new(alloc);
    for n in 0..700 {
        let level = i64::from(n) - 350;
        let parent = n / 2;
        rows.push(NodeRow {
            level,
            rep: n,
            parent,
        })?;
        areas.push(n + 1)?;
    }
    assert_eq!(rt; areas.len(), rows.len());
    let mut one = MemSink::new(vec![in alloc; 0; 20000]?, &[], 0);
    assert!(rt; put_lines(&mut one, &rows, &areas, 0, rows.len()).is_ok());
    assert!(rt; one.bytes().len() > 12000);
    let mut two = MemSink::new(vec![in alloc; 0; 20000]?, &[], 0);
    assert!(rt; put_in_rounds(&rt, alloc, &mut two, &rows, &areas, 200, 400).is_ok());
    assert_eq!(rt; two.bytes(), one.bytes());
    Ok(())
}
