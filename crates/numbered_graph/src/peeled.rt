//! An order of the points that lead to no cycle.
ghost use Rattle.std.specs.Prelude.{◌≡◌, ℕ, ◌<◌, IfOk, OnOk, true, ◌&&◌, slice_get, length, map, nat_lt, slice_index};
ghost use Rattle.numbered_graph.specs.Graphs.{IsGraph, IsReverse, IsOrder, row as row_of};
ghost use Rattle.numbered_graph.specs.Peeling.{released, released_one, can_release, leaves as leaves_of, unpeeled};

use crate::row::Row;
use std::alloc::{AllocError, Global};
use std::marker::Model;

/// The order so far, and for each point how many of its links lead to points that haven't been gone through.
#[derive(Drop)]
struct Peeling {
    order: Vec<usize>,
    waits: Vec<usize>,
}

impl Model for Peeling {
    ghost use Rattle.numbered_graph.specs.Peeling.{Peeled};

    ghost Value = { Peeled };

    ghost view = { λ s. record { order = s.order.items; waits = s.waits.items } };
}

fn leaves(alloc: Global, rows: &[Row]) -> Result<Vec<usize>, AllocError>
    ensures { IfOk result (λ order. order.items ≡ leaves_of 0 rows.now) }
{
    let mut order = Vec::new(alloc);
    for (point, row) in rows.iter().enumerate() {
        if row.numbers().len() == 0 {
            order.push(point)?;
        }
    }
    Ok(order)
}

fn lengths(alloc: Global, rows: &[Row]) -> Result<Vec<usize>, AllocError>
    ensures { IfOk result (λ lengths. lengths.items ≡ map length rows.now) }
{
    let mut lengths = Vec::new(alloc);
    for row in rows {
        lengths.push(row.numbers().len())?;
    }
    Ok(lengths)
}

impl Peeling {
    fn of(alloc: Global, rows: &[Row]) -> Result<Peeling, AllocError>
        ensures { IfOk result (λ peeling. peeling ≡ unpeeled rows.now) }
    {
        Ok(Peeling {
            order: leaves(alloc, rows)?,
            waits: lengths(alloc, rows)?,
        })
    }

    fn at(&self, i: usize) -> Option<usize>
        ensures { result ≡ slice_get self.now.order i }
    {
        self.order.get(i).copied()
    }

    fn release_one(&mut self, point: usize) -> Result<(), AllocError>
        requires { (nat_lt point (length self.old.waits) && nat_lt 0 (slice_index self.old.waits point)) ≡ true }
        ensures { OnOk result (self.new ≡ released_one self.old point) }
    {
        let left = self.waits[point] - 1;
        self.waits[point] = left;
        if left == 0 {
            self.order.push(point)?;
        }
        Ok(())
    }

    fn release(&mut self, points: &[usize]) -> Result<(), AllocError>
        requires { can_release self.old points.now ≡ true }
        ensures { OnOk result (self.new ≡ released self.old points.now) }
    {
        for point in points {
            self.release_one(*point)?;
        }
        Ok(())
    }

    /// The point has been gone through.
    fn go_through(&mut self, back: &[Row], point: usize) -> Result<(), AllocError>
        requires within { point < length back.now }
        requires can { can_release self.old (row_of back.now point) ≡ true }
        ensures { OnOk result (self.new ≡ released self.old (row_of back.now point)) }
    {
        self.release(back[point].numbers())
    }
}

/// An order of just the points that lead to no cycle, in which each stands behind all to which it has links. The second graph
/// has the links of the first the other way round. The time is linear in points and links.
///
/// # Errors
/// `AllocError` only where memory was refused.
pub fn peel(alloc: Global, rows: &[Row], back: &[Row]) -> Result<Vec<usize>, AllocError>
    requires graph { IsGraph rows.now }
    requires reverse { IsReverse rows.now back.now }
    ensures { IfOk result (λ order. IsOrder rows.now order.items) }
{
    let mut peeling = Peeling::of(alloc, rows)?;
    let mut next = 0;
    while let Some(point) = peeling.at(next) {
        peeling.go_through(back, point)?;
        next += 1;
    }
    let Peeling { order, waits: _ } = peeling;
    Ok(order)
}
