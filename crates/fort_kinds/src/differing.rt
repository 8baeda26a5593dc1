//! Arguments of different kinds.
ghost use Rattle.std.specs.Prelude.{◌≡◌};
ghost use Rattle.sound_programs.specs.KindFaults.{differing_kinds};
ghost use Rattle.sound_programs.specs.Placed.{Subscripts};
ghost use Rattle.sound_programs.specs.Places.{option_places};
ghost use Rattle.sound_programs.specs.Placing.{placed_expr, placed_sub, placed_subs};
ghost use Rattle.sound_programs.specs.Walks.{single_subscripts};
ghost use Rattle.fort_kinds.specs.KindsSeen.{other_kind as other_than, with_kind as one_more, with_expr as one_expr_more, no_kind, kinds_seen};
ghost use Rattle.fort_names.specs.Sights.{means};

use crate::kinding::{is_integer, kind_of};
use crate::numbers::first;
use fort_names::Sight;
use fort_tree::{Expr, Kind, Place, Sub};

/// What is known of INTEGER kinds: the first, and the place of the first that differs from it.
#[derive(Clone, Copy, Debug)]
pub struct Kinds {
    pub first: Option<Kind>,
    pub other: Option<Place>,
}

fn other_kind(first: Kind, kind: Option<Kind>, at: Place) -> Option<Place>
    ensures { result ≡ other_than first kind at }
{
    if Some(first) == kind { None } else { Some(at) }
}

fn with_kind(kinds: Kinds, kind: Option<Kind>, at: Place) -> Kinds
    ensures { result ≡ one_more kinds.first kinds.other kind at }
{
    match kinds.first {
        None => Kinds {
            first: kind,
            other: kinds.other,
        },
        Some(first) => Kinds {
            first: Some(first),
            other: kinds.other.or(other_kind(first, kind, at)),
        },
    }
}

fn with_expr(kinds: Kinds, sight: &Sight, expr: &Expr) -> Kinds
    ensures { result ≡ one_expr_more (means sight.now) kinds (placed_expr expr.now) }
{
    let kind = kind_of(sight, expr);
    if is_integer(kind) {
        with_kind(kinds, kind, first(expr))
    } else {
        kinds
    }
}

fn with_sub(kinds: Kinds, sight: &Sight, sub: &Sub) -> Kinds
    ensures { (rest : Subscripts) → kinds_seen (means sight.now) result (single_subscripts rest) ≡ kinds_seen (means sight.now) kinds (single_subscripts (placed_sub sub.now rest)) }
{
    match sub {
        Sub::One(expr) => with_expr(kinds, sight, expr),
        Sub::Range(..) => kinds,
    }
}

fn kinds_of(sight: &Sight, args: &[Sub]) -> Kinds
    ensures { result ≡ kinds_seen (means sight.now) no_kind (single_subscripts (placed_subs args.now)) }
{
    let mut kinds = Kinds {
        first: None,
        other: None,
    };
    for arg in args {
        kinds = with_sub(kinds, sight, arg);
    }
    kinds
}

/// The first argument whose INTEGER kind isn't that of an earlier one.
#[tactic(auto, using(crate::proofs::Differs::kinds_differ))]
pub fn differing_kind(sight: &Sight, args: &[Sub]) -> Option<Place>
    ensures { option_places result ≡ differing_kinds (means sight.now) (single_subscripts (placed_subs args.now)) }
{
    kinds_of(sight, args).other
}
