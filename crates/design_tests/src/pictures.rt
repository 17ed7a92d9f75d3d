//! Pictures of the layouts of a grid, asked for without a design.
use grid::grid::Grid;
use grid::shapes::GridShape;
use layout::kind::LayoutKind;
use layout::layout_ref::LayoutRef;
use report::picture::{put_picture, put_picture_of};
use std::test::Fail;

fn dense(lengths: [usize; 4]) -> GridShape {
    GridShape {
        kind: LayoutKind::Dense,
        rank: 2,
        lengths,
    }
}

#[test]
fn picture_of_a_layout(rt: HostRuntime) -> Result<(), Fail> {
    let shapes = [dense([2, 3, 0, 0]), dense([17, 1, 0, 0])];
    let Ok(grid) = Grid::new(&shapes) else {
        return Err(Fail::new("a faulty shape"));
    };
    let Ok(small) = LayoutRef::new(&grid, 0) else {
        return Err(Fail::new("no first layout"));
    };
    let Ok(large) = LayoutRef::new(&grid, 1) else {
        return Err(Fail::new("no second layout"));
    };
    let mut out = String::new(rt.alloc());
    assert!(rt; put_picture(&mut out, &small).is_ok());
    assert!(rt; put_picture(&mut out, &large).is_ok());
    assert_eq!(rt;
        out.as_str(),
        "    0 1 2\n    3 4 5\n    too large to draw\n"
    );
    Ok(())
}

#[test]
fn picture_of_a_number(rt: HostRuntime) -> Result<(), Fail> {
    let Ok(grid) = Grid::new(&[dense([1, 2, 0, 0])]) else {
        return Err(Fail::new("a faulty shape"));
    };
    let mut out = String::new(rt.alloc());
    assert!(rt; put_picture_of(&mut out, &grid, 1).is_ok());
    assert_eq!(rt; out.as_str(), "");
    assert!(rt; put_picture_of(&mut out, &grid, 0).is_ok());
    assert_eq!(rt; out.as_str(), "    0 1\n");
    Ok(())
}
