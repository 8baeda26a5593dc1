//! Laws of the definitions. The functions do nothing; what they ensure holds of all tokens.
ghost use Rattle.std.specs.Prelude.{◌≡◌, List};
ghost use Rattle.fort_tree.specs.declared.statement.Statement.{Statement};
ghost use Rattle.fort_tree.specs.declared.statement.Token.{Token};
ghost use Rattle.fort_stmt.specs.declared.value.Draft.{Draft};
ghost use Rattle.fort_stmt.specs.Form.{IsStatement};
ghost use Rattle.fort_stmt.specs.Machine.{Spelled, start};
ghost use Rattle.fort_stmt.specs.Values.{blank};

/// The grammar derives just the statements: what tokens are as a statement is built where the grammar derives them, and what is built of tokens that it derives is
/// what they are.
pub fn statements_are_derived()
    ensures forms { (tokens : List Token) (statement : Statement) → IsStatement tokens statement
        → (built : Draft) × Spelled start tokens blank built × (built.statement ≡ statement) }
    ensures derived { (tokens : List Token) (built : Draft) → Spelled start tokens blank built → IsStatement tokens built.statement }
{}
