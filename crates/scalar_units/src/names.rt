//! Names among others.
ghost use Rattle.std.specs.Prelude.{◌≡◌, map};
ghost use Rattle.scalar_units.specs.Units.{is_among as among_test, stands_once as once_test, names_of, is_ordinary as ordinary_test};
ghost use Rattle.claw_meaning.specs.Interface.{is_fresh as fresh_test};

use fort_tree::{ByName, Decl, Intrinsic, Name, Named};

/// Whether a dummy has the name.
pub fn is_among(dummies: &[Named], name: &Name) -> bool
    ensures { result ≡ among_test (map (λ d. d.name) dummies.now) name.now }
{
    dummies
        .iter()
        .map(|dummy| dummy.name)
        .any(|other| other == *name)
}

/// Whether just one dummy has the name.
#[tactic(auto, using(crate::proofs::Counting::counted))]
pub fn is_one_dummy(dummies: &[Named], name: &Name) -> bool
    ensures { result ≡ once_test (map (λ d. d.name) dummies.now) name.now }
{
    dummies.iter().filter(|dummy| dummy.name == *name).count() == 1
}

/// Whether just one declaration is of the name.
#[tactic(auto, using(crate::proofs::Counting::counted))]
pub fn is_declared_once(decls: &[Decl], name: &Name) -> bool
    ensures { result ≡ once_test (map (λ d. d.name) decls.now) name.now }
{
    decls.iter().filter(|decl| decl.name == *name).count() == 1
}

/// Whether the name stands just once in the list.
pub fn is_listed_once(listed: &[Name], name: &Name) -> bool
    ensures { result ≡ once_test listed.now name.now }
{
    listed.iter().filter(|other| **other == *name).count() == 1
}

fn is_made(text: &[u8]) -> bool
    ensures { result ≡ fresh_test text.now }
{
    text.starts_with(b"claw_")
}

/// Whether it is no intrinsic function's name, and none that a compiler made.
pub fn is_ordinary(name: &Name) -> bool
    ensures { result ≡ ordinary_test name.now }
{
    let intrinsic: Option<Intrinsic> = Intrinsic::named(name);
    intrinsic.is_none() && !is_made(name.text())
}
