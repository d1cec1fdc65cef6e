//! Tests of the counter of steps.
ghost use Rattle.std.specs.Prelude.{◌≡◌, ◌<◌, ◌+◌};

use crate::*;
use std::marker::Brand;
use std::sync::ledger::{Blank, Ledger};

fn tick_twice<L: Ledger>(steps: &mut Steps<L>)
    ensures { steps.new ≡ steps.old + 2 }
{
    steps.tick();
    steps.tick();
}

fn count<L: Ledger>(blank: Blank)
    requires name { blank.name ≡ L.name }
    requires parts { blank.parts ≡ L.parts }
    requires some { 0 < blank.parts }
{
    let mut steps = Steps::<L>::start(blank);
    tick_twice(&mut steps);
}

// The count is a ghost: `tick_twice` says in its contract what the ticks add up to.
#[test]
fn a_counter_counts(_: HostRuntime) {
    count::<Brand>(Blank::new(1));
}
