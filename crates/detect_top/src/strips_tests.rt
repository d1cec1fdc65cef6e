//! A run whose two workers flood at once.
use crate::in_memory::file;
use crate::run;
use dev_io::{MemSink, PlainSource};
use std::sync::atomic::AtomicBool;
use std::sync::atomic::Ordering::SeqCst;
use std::test::Fail;
use strip_crew::Gate;

// Whether the worker in each of two strips was there, and whether it saw the other.
#[derive(Drop)]
struct Handshake {
    upper_there: AtomicBool,
    lower_there: AtomicBool,
    upper_saw: AtomicBool,
    lower_saw: AtomicBool,
}

fn look_for(there: &AtomicBool, saw: &AtomicBool) {
    for _ in 0..100_000_000 {
        if there.load(SeqCst) {
            saw.store(true, SeqCst);
            return;
        }
    }
}

impl Gate for Handshake {
    fn enter(&self, strip: u32) {
        if strip == 0 {
            self.upper_there.store(true, SeqCst);
            look_for(&self.lower_there, &self.upper_saw);
        } else {
            self.lower_there.store(true, SeqCst);
            look_for(&self.upper_there, &self.lower_saw);
        }
    }
}

#[test]
fn a_run_floods_two_strips_at_once(rt: HostRuntime) -> Result<(), Fail> {
    let alloc = rt.alloc();
    let header = b"SIMPLE  = T|BITPIX  = 8|NAXIS   = 2|NAXIS1  = 2|NAXIS2  = 2|END|#";
    let bytes = file(alloc, header, &[9, 0, 0, 9])?;
    let words = ["tree", "--strips", "2", "--workers", "2"];
    let mut input = PlainSource::new(&bytes);
    let mut output = MemSink::new(vec![in alloc; 0; 99]?, &[], 0);
    let mut notes = MemSink::new(vec![in alloc; 0; 99]?, &[], 0);
    let gate = Handshake {
        upper_there: AtomicBool::new(false),
        lower_there: AtomicBool::new(false),
        upper_saw: AtomicBool::new(false),
        lower_saw: AtomicBool::new(false),
    };
    assert_eq!(rt;
        run(
            &rt,
            alloc,
            &words,
            &mut input,
            &mut output,
            &mut notes,
            &gate
        ),
        0
    );
    assert_eq!(rt;
        output.bytes(),
        b"0 0 1 - 4\n1 9 0 0 1\n2 9 3 0 1\n".as_slice()
    );
    assert!(rt; gate.upper_saw.load(SeqCst) && gate.lower_saw.load(SeqCst));
    Ok(())
}
