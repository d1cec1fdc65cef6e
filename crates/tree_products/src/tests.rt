//! Small planes with their nodes, their sources and the sums of a trial.

use super::*;
use comp_tree::{Connect, Plane, Shape, plain_tree};
use dev_io::MemSink;
use fits_write::CELLS_IN_ROW;
use source_pick::Choice;
use std::test::Fail;

#[test]
fn the_image_of_seed_7(rt: HostRuntime) -> Result<(), Fail> {
    let values: [i64; 6] = [61, 233, 156, 237, 12, 219];
    let shape = Shape::of(3, 2).expect(&rt, "a shape");
    let image = trial_image(rt.alloc(), 7, shape).expect(&rt, "memory");
    assert!(rt; image.shape() == shape);
    for (p, value) in values.iter().enumerate() {
        assert!(rt; p < image.shape().pixels() as usize);
        assert_eq!(rt; image.get(p as u32), Some(*value));
    }
    Ok(())
}

#[test]
fn a_line_tells_of_a_trial(rt: HostRuntime) -> Result<(), Fail> {
    let alloc = rt.alloc();
    let mut sink = MemSink::new(vec![in alloc; 0; 199]?, &[], 0);
    let summary = Summary {
        pixels: 16777216,
        nodes: 20,
        roots: 3,
        areas: 281474976710656,
        fluxes: 0,
        sources: 4294967295,
        mapped: 7,
    };
    assert_eq!(rt; put_trial(&mut sink, &summary), Ok(()));
    assert_eq!(rt;
        sink.bytes(),
        b"pixels 16777216 nodes 20 roots 3 areas 281474976710656 fluxes 0 sources 4294967295 mapped 7\n".as_slice()
    );
    Ok(())
}

#[test]
fn the_sums_of_a_trial(rt: HostRuntime) -> Result<(), Fail> {
    let alloc = rt.alloc();
    let shape = Shape::of(3, 2).ok_or("a shape")?;
    let image = trial_image(alloc, 7, shape)?;
    let tree = plain_tree(alloc, &image, Connect::Four)?;
    let summary = summarize(&rt, alloc, image, tree, 1)?;
    let expected = Summary {
        pixels: 6,
        nodes: 6,
        roots: 1,
        areas: 17,
        fluxes: 2433,
        sources: 3,
        mapped: 3,
    };
    assert_eq!(rt; summary, expected);
    Ok(())
}

#[test]
fn the_lines_of_two_nodes(rt: HostRuntime) -> Result<(), Fail> {
    let alloc = rt.alloc();
    let shape = Shape::of(2, 1).ok_or("a shape")?;
    let plane = Plane::of(alloc, shape, &[Some(-3), Some(5)])?.ok_or("a plane")?;
    let tree = plain_tree(alloc, &plane, Connect::Four)?;
    let nodes = node_areas(alloc, plane, tree, 1)?;
    let mut sink = MemSink::new(vec![in alloc; 0; 99]?, &[], 0);
    assert_eq!(rt;
        put_tree(
            &rt,
            alloc,
            &mut sink,
            &nodes.tree,
            &nodes.areas,
            nodes.parts
        ),
        Ok(())
    );
    assert_eq!(rt; sink.bytes(), b"0 -3 0 - 2\n1 5 1 0 1\n".as_slice());
    Ok(())
}

#[test]
fn the_source_of_one_pixel(rt: HostRuntime) -> Result<(), Fail> {
    let alloc = rt.alloc();
    let shape = Shape::of(2, 1).ok_or("a shape")?;
    let plane = Plane::of(alloc, shape, &[Some(2), Some(9)])?.ok_or("a plane")?;
    let tree = plain_tree(alloc, &plane, Connect::Four)?;
    let choice = Choice {
        threshold: 8,
        min_area: 1,
        min_flux: 0,
        contrast: 5,
    };
    let found = detect(&rt, alloc, plane, tree, &choice, 1)?;
    assert_eq!(rt; found.map.as_slice(), [0, 1].as_slice());
    assert_eq!(rt; found.cells.len(), CELLS_IN_ROW);
    let mut sink = MemSink::new(vec![in alloc; 0; 17280]?, &[], 0);
    assert_eq!(rt; put_detection(&mut sink, &found), Ok(()));
    assert_eq!(rt; sink.bytes().len(), 17280);
    Ok(())
}
