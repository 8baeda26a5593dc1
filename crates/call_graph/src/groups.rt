//! Groups of points that lead to one another.
ghost use Rattle.std.specs.Prelude.{◌≡◌, ◌<◌, ◌↔◌, IfOk, IsTrue, not, nat_lt, length};
ghost use Rattle.std.specs.List.{list_all};
ghost use Rattle.numbered_graph.specs.Graphs.{IsGraph, IsReverse, Way};
ghost use Rattle.call_graph.specs.Grouping.{number_at, rises_from, AreGroups, is_apart as apart, are_one as one, is_joined as joined};

use crate::roots::{links_of, number_of, roots_of};
use crate::walk::{numbers_of, starts_of};
use numbered_graph::{Row, depth_of, leads};
use std::alloc::{AllocError, Global};
use std::marker::Model;

/// For each point the number of its group, and whether these numbers fall along no link; a point to which it leads; and a point
/// that leads to it.
#[derive(Drop)]
pub struct Groups {
    numbers: Vec<Option<usize>>,
    rise: bool,
    behind: Vec<Option<usize>>,
    before: Vec<Option<usize>>,
}

impl Model for Groups {
    ghost use Rattle.call_graph.specs.Grouping.{Grouped};

    ghost Value = { Grouped };

    ghost view = { λ s. record { numbers = s.numbers.items; rise = s.rise; behind = s.behind.items; before = s.before.items } };
}

fn is_below(numbers: &[Option<usize>], first: usize, second: usize) -> bool
    ensures { result ≡ nat_lt (number_at numbers.now first) (number_at numbers.now second) }
{
    number_of(numbers, first) < number_of(numbers, second)
}

/// Whether the numbers fall along none of the links of the point.
fn is_rising_at(numbers: &[Option<usize>], point: usize, links: &[usize]) -> bool
    ensures { result ≡ list_all (λ to. not (nat_lt (number_at numbers.now to) (number_at numbers.now point))) links.now }
{
    links.iter().all(|to| !is_below(numbers, *to, point))
}

/// Whether the numbers fall along no link.
fn is_rising(numbers: &[Option<usize>], rows: &[Row]) -> bool
    ensures { result ≡ rises_from numbers.now 0 rows.now }
{
    for (point, row) in rows.iter().enumerate() {
        if !is_rising_at(numbers, point, row.numbers()) {
            return false;
        }
    }
    true
}

fn are_one(first: Option<usize>, second: Option<usize>) -> bool
    ensures { result ≡ one first second }
{
    match (first, second) {
        (Some(first), Some(second)) => first == second,
        _ => false,
    }
}

impl Groups {
    /// The groups of a graph. The second graph has the links of the first the other way round. The time is linear in points and
    /// links.
    ///
    /// # Errors
    /// `AllocError` only where memory was refused.
    pub fn of(alloc: Global, rows: &[Row], back: &[Row]) -> Result<Groups, AllocError>
        requires { IsReverse rows.now back.now }
        ensures { IfOk result (λ groups. AreGroups rows.now groups) }
    {
        let starts = starts_of(alloc, rows)?;
        let behind = roots_of(alloc, back, &[], starts.as_slice())?;
        let before = roots_of(alloc, rows, behind.as_slice(), starts.as_slice())?;
        let numbers = numbers_of(alloc, starts.as_slice(), behind.as_slice())?;
        let rise = is_rising(numbers.as_slice(), rows);
        Ok(Groups {
            numbers,
            rise,
            behind,
            before,
        })
    }

    /// Whether the numbers say that nothing leads from the first point to the second.
    pub fn is_apart(&self, from: usize, to: usize) -> bool
        ensures { result ≡ apart self.now from to }
    {
        self.rise && is_below(self.numbers.as_slice(), to, from)
    }

    /// Whether a root says that the first point leads to the second.
    pub fn is_joined(&self, from: usize, to: usize) -> bool
        ensures { result ≡ joined self.now from to }
    {
        are_one(
            depth_of(self.behind.as_slice(), from),
            depth_of(self.before.as_slice(), to),
        )
    }

    /// Whether links lead from the first point to the second, any number of them. Where both are in one group, or a link leads
    /// from the second to the first, the answer is known at once.
    ///
    /// # Errors
    /// `AllocError` only where memory was refused.
    pub fn lead(
        &self,
        alloc: Global,
        rows: &[Row],
        from: usize,
        to: usize,
    ) -> Result<bool, AllocError>
        requires groups { AreGroups rows.now self.now }
        requires graph { IsGraph rows.now }
        requires starts { from < length rows.now }
        requires ends { to < length rows.now }
        ensures { IfOk result (λ led. IsTrue led ↔ Way rows.now from to) }
    {
        if self.is_apart(from, to) {
            return Ok(false);
        }
        if self.is_joined(from, to) {
            return Ok(true);
        }
        leads(alloc, rows, from, to)
    }
}
