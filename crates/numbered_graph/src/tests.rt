//! Each public function once.

ghost use Rattle.std.specs.Prelude.{◌≡◌, [], ◌∷◌, IfOk};

use crate::{Row, depth_of, depths, distinct, leads, peel, reversed};
use std::alloc::{AllocError, Global};
use std::test::Fail;

/// The first point has links to the second, twice.
fn two_points(alloc: Global) -> Result<Vec<Row>, AllocError>
    ensures { IfOk result (λ rows. rows.items ≡ (1 ∷ 1 ∷ []) ∷ [] ∷ []) }
{
    let mut rows = Vec::new(alloc);
    rows.push(Row::of(alloc, &[1, 1])?)?;
    rows.push(Row::new(alloc))?;
    Ok(rows)
}

#[test]
fn order_and_depths(rt: HostRuntime) -> Result<(), Fail> {
    let rows = two_points(rt.alloc())?;
    let back = reversed(rt.alloc(), rows.as_slice())?;
    let order = peel(rt.alloc(), rows.as_slice(), back.as_slice())?;
    assert_eq!(rt; order.as_slice(), [1, 0].as_slice());
    let list = depths(rt.alloc(), rows.as_slice(), order.as_slice(), 3)?;
    assert_eq!(rt; depth_of(list.as_slice(), 0), Some(1));
    assert_eq!(rt; depth_of(list.as_slice(), 2), None);
    Ok(())
}

#[test]
fn ways(rt: HostRuntime) -> Result<(), Fail> {
    let rows = two_points(rt.alloc())?;
    assert!(rt; leads(rt.alloc(), rows.as_slice(), 0, 1)?);
    assert!(rt; !leads(rt.alloc(), rows.as_slice(), 1, 0)?);
    Ok(())
}

#[test]
fn each_number_once(rt: HostRuntime) -> Result<(), Fail> {
    let row = distinct(rt.alloc(), &[3, 1, 3, 2, 1])?;
    assert_eq!(rt; row.numbers(), [3, 1, 2].as_slice());
    Ok(())
}
