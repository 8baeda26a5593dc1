//! The ranks of expressions.
ghost use Rattle.std.specs.Prelude.{◌≡◌};
ghost use Rattle.fort_tree.specs.Intrinsic.{intrinsic_named};
ghost use Rattle.sound_programs.specs.Placing.{placed_expr, placed_sub, placed_subs};
ghost use Rattle.sound_programs.specs.Ranking.{operand, operands, operands_in, operands_of_reference, count_of_sections as sections_in, rank as rank_meant, differing};
ghost use Rattle.sound_programs.specs.Places.{option_places};
ghost use Rattle.sound_programs.specs.Scopes.{is_array as array_test};
ghost use Rattle.sound_programs.specs.Placed.{No_more};
ghost use Rattle.fort_kinds.specs.Gathering.{gathered, none_yet, other_rank as other_than, or_zero};
ghost use Rattle.fort_kinds.specs.OneSub.{is_section_alone};
ghost use Rattle.fort_names.specs.Sights.{means};

use fort_names::Sight;
use fort_tree::{ByName, Expr, Intrinsic, Name, Place, Sub};

/// What is known of array operands: the rank of the first, and the place of the first that differs from it.
#[derive(Clone, Copy, Debug)]
pub struct Ranks {
    pub first: Option<usize>,
    pub other: Option<Place>,
}

fn with_operand(ranks: Ranks, at: Place, rank: usize) -> Ranks
    ensures { result ≡ gathered ranks (operand at rank) }
{
    if rank == 0 {
        return ranks;
    }
    match ranks.first {
        None => Ranks {
            first: Some(rank),
            other: ranks.other,
        },
        Some(first) => Ranks {
            first: Some(first),
            other: ranks.other.or(other_rank(first, at, rank)),
        },
    }
}

fn other_rank(first: usize, at: Place, rank: usize) -> Option<Place>
    ensures { result ≡ other_than first (record { at = at; rank = rank }) }
{
    if rank == first { None } else { Some(at) }
}

impl Ranks {
    pub fn new() -> Ranks
        ensures { result ≡ none_yet }
    {
        Ranks {
            first: None,
            other: None,
        }
    }

    fn add(&mut self, at: Place, rank: usize)
        ensures { self.new ≡ gathered self.old (operand at rank) }
    {
        *self = with_operand(*self, at, rank);
    }

    /// The rank of the first, or 0 where there is none.
    pub fn rank(&self) -> usize
        ensures { result ≡ or_zero self.now.first }
    {
        self.first.unwrap_or(0)
    }

    /// Adds the array operands of an expression.
    #[cycle(gather)]
    #[tactic(auto, using(crate::proofs::Gathers::gathered_append))]
    pub fn gather(&mut self, sight: &Sight, expr: &Expr)
        ensures { self.new ≡ gathered self.old (operands (means sight.now) (placed_expr expr.now)) }
    {
        match expr {
            Expr::Number(..) | Expr::Truth(..) => {}
            Expr::Ref(name, None, at) => self.add(*at, sight.rank(name)),
            Expr::Ref(name, Some(subs), at) => self.gather_reference(
                sight,
                name,
                subs.items(),
                *at,
            ),
            Expr::One(_, part, _) | Expr::Paren(part, _) => self.gather(sight, part.get()),
            Expr::Two(_, left, right) => {
                self.gather(sight, left.get());
                self.gather(sight, right.get());
            }
        }
    }

    #[cycle(gather)]
    fn gather_reference(&mut self, sight: &Sight, name: &Name, subs: &[Sub], at: Place)
        ensures { self.new ≡ gathered self.old (operands_of_reference (intrinsic_named name.now) (array_test (means sight.now name.now)) at (sections_in (placed_subs subs.now)) (operands_in (means sight.now) (placed_subs subs.now))) }
    {
        match Intrinsic::named(name) {
            None => {
                if sight.is_array(name) {
                    self.add(at, count_of_sections(subs));
                }
            }
            Some(Intrinsic::Size | Intrinsic::Sum) => {}
            Some(_) => self.gather_all(sight, subs),
        }
    }

    #[cycle(gather)]
    #[tactic(auto, using(crate::proofs::Gathers::gathered_append))]
    fn gather_all(&mut self, sight: &Sight, subs: &[Sub])
        ensures { self.new ≡ gathered self.old (operands_in (means sight.now) (placed_subs subs.now)) }
    {
        for sub in subs {
            self.gather_one(sight, sub);
        }
    }

    #[cycle(gather)]
    fn gather_one(&mut self, sight: &Sight, sub: &Sub)
        ensures { self.new ≡ gathered self.old (operands_in (means sight.now) (placed_sub sub.now No_more)) }
    {
        match sub {
            Sub::One(expr) => self.gather(sight, expr),
            Sub::Range(..) => {}
        }
    }
}

/// The number of sections.
pub fn count_of_sections(subs: &[Sub]) -> usize
    ensures { result ≡ sections_in (placed_subs subs.now) }
{
    let mut count = 0;
    for sub in subs {
        if is_section(sub) {
            count += 1;
        }
    }
    count
}

fn is_section(sub: &Sub) -> bool
    ensures { result ≡ is_section_alone (placed_sub sub.now) }
{
    match sub {
        Sub::One(_) => false,
        Sub::Range(..) => true,
    }
}

/// The rank of an expression: that of its first array operand, or 0.
pub fn rank_of(sight: &Sight, expr: &Expr) -> usize
    ensures { result ≡ rank_meant (means sight.now) (placed_expr expr.now) }
{
    let mut ranks = Ranks::new();
    ranks.gather(sight, expr);
    ranks.rank()
}

/// The first array operand of an expression whose rank isn't that of an earlier one.
pub fn first_differing(sight: &Sight, expr: &Expr) -> Option<Place>
    ensures { option_places result ≡ differing (operands (means sight.now) (placed_expr expr.now)) }
{
    let mut ranks = Ranks::new();
    ranks.gather(sight, expr);
    ranks.other
}
