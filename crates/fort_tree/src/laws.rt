//! Laws of the definitions. The functions do nothing; what they ensure holds of all trees and texts, or of the examples that are named.
ghost use Rattle.std.specs.Prelude.{◌≡◌, ◌↔◌, ◌++◌, ◌∷◌, [], true, false, codes};
ghost use Rattle.std.specs.List.{list_all, list_any};
ghost use Rattle.fort_tree.specs.declared.expr.Expr.{Expr};
ghost use Rattle.fort_tree.specs.Examples.{tokens, no_tokens, syntax_fault, profile_fault, clash_fault};
ghost use Rattle.fort_tree.specs.Report.{report_of};
ghost use Rattle.fort_tree.specs.Same.{same_expr};
ghost use Rattle.fort_tree.specs.Token.{is_token};
ghost use Rattle.fort_tree.specs.Unplaced.{unplaced};

/// Trees are the same exactly where they are equal once each place in them is set to one fixed place.
pub fn sameness_is_equality_without_places()
    ensures { (a b : Expr) → (same_expr a b ≡ true) ↔ (unplaced a ≡ unplaced b) }
{}

/// Each tree is the same as itself.
pub fn sameness_is_reflexive()
    ensures { (expr : Expr) → same_expr expr expr ≡ true }
{}

/// Of the examples those that should be tokens are, and no other.
pub fn tokens_by_example()
    ensures are { list_all is_token tokens ≡ true }
    ensures are_not { list_any is_token no_tokens ≡ false }
{}

/// Three faults as they are reported.
pub fn reports_by_example()
    ensures plain { report_of syntax_fault (codes "s.f90") ≡ codes "s.f90:4:9: E10 syntax" ++ 10 ∷ [] }
    ensures item { report_of profile_fault (codes "s.f90") ≡ codes "s.f90:12:1: E20 not in the profile 10" ++ 10 ∷ [] }
    ensures clash { report_of clash_fault (codes "s.f90") ≡ codes "s.f90:9:3: E61 fusion clash 7:5 11:12" ++ 10 ∷ [] }
{}
