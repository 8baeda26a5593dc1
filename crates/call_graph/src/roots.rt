//! Points that are reached from roots.
ghost use Rattle.std.specs.Prelude.{◌≡◌, ℕ, [], ◌∷◌, IfOk, OnOk, None, Some, replicate};
ghost use Rattle.numbered_graph.specs.Graphs.{row as row_of};
ghost use Rattle.call_graph.specs.Grouping.{number_at, are_alike as alike, is_free as free, rooted, rooted_all, AreReached};

use numbered_graph::{Row, depth_of};
use std::alloc::{AllocError, Global};
use std::marker::Model;

/// The root of each point that was found, and the points in the order in which they were found, of which the first have been
/// gone through. Contracts see the roots.
#[derive(Drop)]
struct Roots {
    roots: Vec<Option<usize>>,
    found: Vec<usize>,
    gone: usize,
}

impl Model for Roots {
    ghost use Rattle.std.specs.Prelude.{List, ℕ, Option};

    ghost Value = { List (Option ℕ) };

    ghost view = { λ s. s.roots.items };
}

/// The number of a point, or 0.
pub fn number_of(numbers: &[Option<usize>], point: usize) -> usize
    ensures { result ≡ number_at numbers.now point }
{
    match depth_of(numbers, point) {
        None => 0,
        Some(number) => number,
    }
}

fn are_alike(groups: &[Option<usize>], first: usize, second: usize) -> bool
    ensures { result ≡ alike groups.now first second }
{
    number_of(groups, first) == number_of(groups, second)
}

/// The links of a point.
pub fn links_of(rows: &[Row], point: usize) -> &[usize]
    ensures { result.now ≡ row_of rows.now point }
{
    match rows.get(point) {
        None => &[],
        Some(row) => row.numbers(),
    }
}

/// For each point nothing.
pub fn nothing(alloc: Global, points: usize) -> Result<Vec<Option<usize>>, AllocError>
    ensures { IfOk result (λ list. list.items ≡ replicate points None) }
{
    let mut list = Vec::new(alloc);
    for _point in 0..points {
        list.push(None)?;
    }
    Ok(list)
}

impl Roots {
    fn of(alloc: Global, points: usize) -> Result<Roots, AllocError>
        ensures { IfOk result (λ roots. roots ≡ replicate points None) }
    {
        Ok(Roots {
            roots: nothing(alloc, points)?,
            found: Vec::new(alloc),
            gone: 0,
        })
    }

    fn is_free(&self, point: usize) -> bool
        ensures { result ≡ free self.now point }
    {
        point < self.roots.len() && depth_of(self.roots.as_slice(), point).is_none()
    }

    /// Gives the point the root, where it has none.
    fn note(&mut self, point: usize, root: usize) -> Result<(), AllocError>
        ensures { OnOk result (self.new ≡ rooted root self.old point) }
    {
        if self.is_free(point) {
            self.roots[point] = Some(root);
            self.found.push(point)?;
        }
        Ok(())
    }

    /// Gives the root to those of the points that are in one group with the first.
    fn note_all(
        &mut self,
        groups: &[Option<usize>],
        from: usize,
        root: usize,
        points: &[usize],
    ) -> Result<(), AllocError>
        ensures { OnOk result (self.new ≡ rooted_all groups.now from root self.old points.now) }
    {
        for point in points {
            if are_alike(groups, from, *point) {
                self.note(*point, root)?;
            }
        }
        Ok(())
    }

    /// The next of the points that were found.
    fn next(&mut self) -> Option<usize>
        ensures { self.new ≡ self.old }
    {
        let point = self.found.get(self.gone).copied()?;
        self.gone = self.gone.saturating_add(1);
        Some(point)
    }

    /// Passes the root of the point on to those of its group to which it has links.
    fn pass_on(
        &mut self,
        rows: &[Row],
        groups: &[Option<usize>],
        point: usize,
    ) -> Result<(), AllocError>
        requires { AreReached rows.now self.old }
        ensures { OnOk result (AreReached rows.now self.new) }
    {
        match depth_of(self.roots.as_slice(), point) {
            None => Ok(()),
            Some(root) => self.note_all(groups, point, root, links_of(rows, point)),
        }
    }

    /// Goes through the points that were found and haven't been gone through.
    fn go_on(&mut self, rows: &[Row], groups: &[Option<usize>]) -> Result<(), AllocError>
        requires { AreReached rows.now self.old }
        ensures { OnOk result (AreReached rows.now self.new) }
    {
        for _step in 0..rows.len() {
            match self.next() {
                None => return Ok(()),
                Some(point) => self.pass_on(rows, groups, point)?,
            }
        }
        Ok(())
    }

    /// Goes through the points of the group of the start that can be reached from there and have no root.
    fn search(
        &mut self,
        rows: &[Row],
        groups: &[Option<usize>],
        start: usize,
    ) -> Result<(), AllocError>
        requires { AreReached rows.now self.old }
        ensures { OnOk result (AreReached rows.now self.new) }
    {
        self.note(start, start)?;
        self.go_on(rows, groups)
    }
}

/// For each point the first of the starts from which links within one group lead there. The time is linear in points and links.
///
/// # Errors
/// `AllocError` only where memory was refused.
pub fn roots_of(
    alloc: Global,
    rows: &[Row],
    groups: &[Option<usize>],
    starts: &[usize],
) -> Result<Vec<Option<usize>>, AllocError>
    ensures { IfOk result (λ roots. AreReached rows.now roots.items) }
{
    let mut search = Roots::of(alloc, rows.len())?;
    for start in starts {
        search.search(rows, groups, *start)?;
    }
    let Roots {
        roots,
        found: _,
        gone: _,
    } = search;
    Ok(roots)
}
