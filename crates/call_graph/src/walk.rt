//! A walk through a graph along its links, as deep as it goes. What it finds is tested afterwards, so nothing is promised here.
use crate::roots::{links_of, nothing};
use numbered_graph::Row;
use std::alloc::{AllocError, Global};

/// For each point how many of its links have been followed, where it has been visited; the points between the start and the
/// point at hand; and those that have been left, each once all its links were followed.
#[derive(Drop)]
struct Walk {
    followed: Vec<Option<usize>>,
    trail: Vec<usize>,
    left: Vec<usize>,
}

impl Walk {
    fn of(alloc: Global, points: usize) -> Result<Walk, AllocError> {
        Ok(Walk {
            followed: nothing(alloc, points)?,
            trail: Vec::new(alloc),
            left: Vec::new(alloc),
        })
    }

    /// Visits the point, unless it has been visited.
    fn visit(&mut self, point: usize) -> Result<(), AllocError> {
        if point < self.followed.len() && self.followed[point].is_none() {
            self.followed[point] = Some(0);
            self.trail.push(point)?;
        }
        Ok(())
    }

    /// The next link of the point that hasn't been followed.
    fn follow(&mut self, rows: &[Row], point: usize) -> Option<usize> {
        let count = self.followed.get(point).copied()??;
        let to = links_of(rows, point).get(count).copied()?;
        self.followed[point] = Some(count.saturating_add(1));
        Some(to)
    }

    /// Follows a link of the point, or leaves it.
    fn step(&mut self, rows: &[Row], point: usize) -> Result<(), AllocError> {
        match self.follow(rows, point) {
            Some(to) => self.visit(to),
            None => self.leave(point),
        }
    }

    fn leave(&mut self, point: usize) -> Result<(), AllocError> {
        let _last = self.trail.pop();
        self.left.push(point)?;
        Ok(())
    }

    /// Walks from the point until all has been left.
    fn walk(&mut self, rows: &[Row], start: usize) -> Result<(), AllocError> {
        self.visit(start)?;
        for _step in 0..usize::MAX {
            match self.trail.last().copied() {
                None => return Ok(()),
                Some(point) => self.step(rows, point)?,
            }
        }
        Ok(())
    }
}

/// All points, each before those to which it has links but which don't lead back to it.
pub fn starts_of(alloc: Global, rows: &[Row]) -> Result<Vec<usize>, AllocError> {
    let mut walk = Walk::of(alloc, rows.len())?;
    for start in 0..rows.len() {
        walk.walk(rows, start)?;
    }
    let mut starts = Vec::new(alloc);
    for point in walk.left.iter().rev() {
        starts.push(*point)?;
    }
    Ok(starts)
}

/// For each point the place of its root among the starts.
pub fn numbers_of(
    alloc: Global,
    starts: &[usize],
    roots: &[Option<usize>],
) -> Result<Vec<Option<usize>>, AllocError> {
    let mut places = nothing(alloc, roots.len())?;
    for (place, start) in starts.iter().enumerate() {
        if *start < places.len() {
            places[*start] = Some(place);
        }
    }
    let mut numbers = Vec::new(alloc);
    for root in roots {
        numbers.push(place_of(places.as_slice(), *root))?;
    }
    Ok(numbers)
}

fn place_of(places: &[Option<usize>], root: Option<usize>) -> Option<usize> {
    places.get(root?).copied()?
}
