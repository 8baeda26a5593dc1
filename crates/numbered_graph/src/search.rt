//! Whether links lead from one point to another.
ghost use Rattle.std.specs.Prelude.{◌≡◌, ℕ, ◌<◌, ◌↔◌, [], ◌∷◌, IfOk, OnOk, IsTrue, true, false, length, replicate, slice_get};
ghost use Rattle.numbered_graph.specs.Graphs.{IsGraph, Way, row as row_of, stands};
ghost use Rattle.numbered_graph.specs.Searching.{found_one, found_all, is_seen};

use crate::row::Row;
use std::alloc::{AllocError, Global};
use std::marker::Model;

/// The points in the order in which they were found, and for each whether it was.
#[derive(Drop)]
struct Search {
    found: Vec<usize>,
    seen: Vec<bool>,
}

impl Model for Search {
    ghost use Rattle.numbered_graph.specs.Searching.{Searched};

    ghost Value = { Searched };

    ghost view = { λ s. record { found = s.found.items; seen = s.seen.items } };
}

impl Search {
    fn of(alloc: Global, points: usize) -> Result<Search, AllocError>
        ensures { IfOk result (λ search. search ≡ record { found = []; seen = replicate points false }) }
    {
        Ok(Search {
            found: Vec::new(alloc),
            seen: Vec::from_elem(alloc, false, points)?,
        })
    }

    fn at(&self, i: usize) -> Option<usize>
        ensures { result ≡ slice_get self.now.found i }
    {
        self.found.get(i).copied()
    }

    fn has(&self, point: usize) -> bool
        requires { point < length self.now.seen }
        ensures { result ≡ is_seen self.now point }
    {
        self.seen[point]
    }

    fn find(&mut self, point: usize) -> Result<(), AllocError>
        requires { point < length self.old.seen }
        ensures { OnOk result (self.new ≡ found_one self.old point) }
    {
        if !self.seen[point] {
            self.seen[point] = true;
            self.found.push(point)?;
        }
        Ok(())
    }

    fn find_all(&mut self, points: &[usize]) -> Result<(), AllocError>
        requires { (x : ℕ) → stands x points.now ≡ true → x < length self.old.seen }
        ensures { OnOk result (self.new ≡ found_all self.old points.now) }
    {
        for point in points {
            self.find(*point)?;
        }
        Ok(())
    }

    /// Finds the points to which the point has links.
    fn go_through(&mut self, rows: &[Row], point: usize) -> Result<(), AllocError>
        requires within { point < length rows.now }
        requires below { (x : ℕ) → stands x (row_of rows.now point) ≡ true → x < length self.old.seen }
        ensures { OnOk result (self.new ≡ found_all self.old (row_of rows.now point)) }
    {
        self.find_all(rows[point].numbers())
    }
}

/// Whether links lead from the first point to the second, any number of them.
///
/// # Errors
/// `AllocError` only where memory was refused.
pub fn leads(alloc: Global, rows: &[Row], from: usize, to: usize) -> Result<bool, AllocError>
    requires graph { IsGraph rows.now }
    requires starts { from < length rows.now }
    requires ends { to < length rows.now }
    ensures { IfOk result (λ led. IsTrue led ↔ Way rows.now from to) }
{
    let mut search = Search::of(alloc, rows.len())?;
    search.find(from)?;
    let mut next = 0;
    while let Some(point) = search.at(next) {
        search.go_through(rows, point)?;
        next += 1;
    }
    Ok(search.has(to))
}
