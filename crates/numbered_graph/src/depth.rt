//! How long chains of links are.
ghost use Rattle.std.specs.Prelude.{◌≡◌, ℕ, ◌<◌, [], ◌∷◌, IfOk, OnOk, true, length, replicate, slice_set, None, Some};
ghost use Rattle.numbered_graph.specs.Graphs.{IsOrder, row as row_of, stands};
ghost use Rattle.numbered_graph.specs.Deepness.{AreDepths, greater as greater_of, one_deeper as one_deeper_to, deeper_by, depth_over, depth_at};

use crate::row::Row;
use std::alloc::{AllocError, Global};

fn greater(a: usize, b: usize) -> usize
    ensures { result ≡ greater_of a b }
{
    if a < b { b } else { a }
}

fn one_deeper(limit: usize, depth: usize) -> usize
    ensures { result ≡ one_deeper_to limit depth }
{
    if depth < limit { depth + 1 } else { limit }
}

fn deeper(limit: usize, so_far: usize, depth: Option<usize>) -> usize
    ensures { result ≡ deeper_by limit so_far depth }
{
    match depth {
        None => so_far,
        Some(depth) => greater(so_far, one_deeper(limit, depth)),
    }
}

/// The depth of a point, where it has one.
pub fn depth_of(depths: &[Option<usize>], point: usize) -> Option<usize>
    ensures { result ≡ depth_at depths.now point }
{
    depths.get(point).copied()?
}

/// One more than the greatest depth of the points, up to the limit, or 0 where there are none.
fn depth_of_all(limit: usize, depths: &[Option<usize>], points: &[usize]) -> usize
    ensures { result ≡ depth_over limit depths.now 0 points.now }
{
    let mut depth = 0;
    for point in points {
        depth = deeper(limit, depth, depth_of(depths, *point));
    }
    depth
}

/// Notes the depth of the point, by those of the points to which it has links.
fn note_depth(limit: usize, depths: &mut Vec<Option<usize>>, rows: &[Row], point: usize)
    requires rows { point < length rows.now }
    requires depths { point < length depths.old.items }
    ensures { depths.new.items ≡ slice_set depths.old.items point (Some (depth_over limit depths.old.items 0 (row_of rows.now point))) }
{
    let depth = depth_of_all(limit, depths.as_slice(), rows[point].numbers());
    depths[point] = Some(depth);
}

fn no_depths(alloc: Global, points: usize) -> Result<Vec<Option<usize>>, AllocError>
    ensures { IfOk result (λ depths. depths.items ≡ replicate points None) }
{
    let mut depths = Vec::new(alloc);
    for _point in 0..points {
        depths.push(None)?;
    }
    Ok(depths)
}

/// For each point of the order how long the longest chain of links is that begins there, or the limit where that is longer.
/// The other points have none. The time is linear in points and links.
///
/// # Errors
/// `AllocError` only where memory was refused.
pub fn depths(
    alloc: Global,
    rows: &[Row],
    order: &[usize],
    limit: usize,
) -> Result<Vec<Option<usize>>, AllocError>
    requires { IsOrder rows.now order.now }
    ensures { IfOk result (λ depths. AreDepths rows.now order.now limit depths.items) }
{
    let mut depths = no_depths(alloc, rows.len())?;
    for point in order {
        note_depth(limit, &mut depths, rows, *point);
    }
    Ok(depths)
}
