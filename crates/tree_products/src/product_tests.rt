//! What three jobs make of a plane of two pixels.
use crate::{Ground, ground_of, make_of, write};
use comp_tree::{Connect, Plane, Shape, plain_tree};
use dev_io::MemSink;
use filter_rules::{Criterion, Rule};
use orders::{Job, Order};
use source_pick::Choice;
use std::alloc::Global;
use std::test::Fail;

// An order to detect from 5 on.
const DETECTION: Order = Order {
    job: Job::Detect {
        choice: Choice {
            threshold: 5,
            min_area: 1,
            min_flux: 0,
            contrast: 0,
        },
    },
    hdu: 0,
    connect: Connect::Four,
    strips: 1,
    workers: 1,
    mesh: 0,
    flat: false,
};

fn plane_of_two(alloc: Global) -> Result<Plane, Fail> {
    let shape = Shape::of(2, 1).ok_or("a shape")?;
    Ok(Plane::of(alloc, shape, &[Some(-3), Some(5)])?.ok_or("a plane")?)
}

#[test]
fn the_list_of_two_nodes(rt: HostRuntime) -> Result<(), Fail> {
    let alloc = rt.alloc();
    let plane = plane_of_two(alloc)?;
    let tree = plain_tree(alloc, &plane, Connect::Four)?;
    let product = make_of(&rt, alloc, Job::Tree, 1, Ground::Whole(plane), tree)?;
    let mut sink = MemSink::new(vec![in alloc; 0; 99]?, &[], 0);
    assert!(rt; write(&rt, alloc, &mut sink, &product).is_ok());
    assert_eq!(rt; sink.bytes(), b"0 -3 0 - 2\n1 5 1 0 1\n".as_slice());
    Ok(())
}

// No node has two pixels and this flux, so the filtered plane has the root's level alone.
#[test]
fn the_plane_of_the_root_alone(rt: HostRuntime) -> Result<(), Fail> {
    let alloc = rt.alloc();
    let plane = plane_of_two(alloc)?;
    let tree = plain_tree(alloc, &plane, Connect::Four)?;
    let criterion = Criterion {
        min_area: 2,
        max_area: 2,
        min_flux: 0,
        min_fill: 0,
    };
    let job = Job::Filter {
        rule: Rule::Direct,
        criterion,
    };
    let product = make_of(&rt, alloc, job, 1, Ground::Whole(plane), tree)?;
    let mut sink = MemSink::new(vec![in alloc; 0; 5760]?, &[], 0);
    assert!(rt; write(&rt, alloc, &mut sink, &product).is_ok());
    assert_eq!(rt; sink.bytes().len(), 5760);
    Ok(())
}

// The pixel below the threshold is a neighbour of the one above it, so it stays.
#[test]
fn near_pixels_stay(rt: HostRuntime) -> Result<(), Fail> {
    let on = ground_of(&rt, rt.alloc(), plane_of_two(rt.alloc())?, DETECTION)?;
    let plane = on.plane();
    assert!(rt; plane.shape().pixels() == 2 && plane.is_defined(0) && plane.is_defined(1));
    Ok(())
}

// One of 25 pixels has at least the threshold. It is worked on in a window of three columns and rows.
#[test]
fn high_pixels_are_worked_on_a_sheet(rt: HostRuntime) -> Result<(), Fail> {
    let alloc = rt.alloc();
    let shape = Shape::of(5, 5).ok_or("a shape")?;
    let mut values = vec![in alloc; Some(0i64); 25]?;
    if let Some(pixel) = values.get_mut(12) {
        *pixel = Some(7);
    }
    let plane = Plane::of(alloc, shape, &values)?.ok_or("a plane")?;
    let on = ground_of(&rt, alloc, plane, DETECTION)?;
    assert!(rt; on.plane().shape().pixels() == 9);
    Ok(())
}
