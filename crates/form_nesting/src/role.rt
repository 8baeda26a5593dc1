//! What directives and marks do where they stand.
ghost use Rattle.std.specs.Prelude.{◌≡◌};
ghost use Rattle.form_nesting.specs.Steps.{role};

use fort_tree::DirectiveWord;

/// What a directive or mark does where it stands.
#[derive(Clone, Copy, Debug)]
pub enum Role {
    /// It belongs to its unit.
    OfUnit,
    /// It belongs to the statement behind it.
    Before,
    /// It begins a block.
    Begins,
    /// It ends a block.
    Ends,
    /// No text has it.
    Nowhere,
}

pub fn role_of(word: DirectiveWord) -> Role
    ensures { result ≡ role word }
{
    match word {
        DirectiveWord::Define | DirectiveWord::Parallelize | DirectiveWord::Routine => Role::OfUnit,
        DirectiveWord::Forward
        | DirectiveWord::Fusion
        | DirectiveWord::Interchange
        | DirectiveWord::Cache
        | DirectiveWord::OpenMpLoop
        | DirectiveWord::OpenAccLoop => Role::Before,
        DirectiveWord::Hoist | DirectiveWord::Transform => Role::Begins,
        DirectiveWord::EndHoist | DirectiveWord::EndTransform => Role::Ends,
        DirectiveWord::Column => Role::Nowhere,
    }
}
