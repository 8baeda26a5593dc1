//! How the program for all columns is made.

ghost use Rattle.claw_meaning.specs.Interface.{Interface};
ghost use Rattle.claw_meaning.specs.Erasure.{Erased};
ghost use Rattle.claw_meaning.specs.Spread.{Spread};
ghost use Rattle.claw_meaning.specs.Units.{is_listed};
ghost use Rattle.fort_tree.specs.declared.choice.Target.TheVariants.{Cpu};
ghost use Rattle.fort_tree.specs.declared.choice.Directives.TheVariants.{Plain};
ghost use Rattle.std.specs.Prelude.{false};
ghost use Rattle.column_scalars.specs.Scalars.{Scalars, IsScalars, source_unit, wide_unit, program_of};

/// The program for all columns has the interface of a widened unit, erases to the source, and has its statements in one
/// loop over the columns, where the dummies are the wide variables.
pub fn made_for_all_columns()
    ensures interface { (u : Scalars) → IsScalars u → Interface (program_of (source_unit u)) (program_of (wide_unit u)) (λ i x. is_listed u.dummies x) }
    ensures erased { (u : Scalars) → IsScalars u → Erased (program_of (source_unit u)) (program_of (wide_unit u)) (λ i x. is_listed u.dummies x) }
    ensures spread { (u : Scalars) → IsScalars u → Spread (program_of (source_unit u)) (program_of (wide_unit u)) (λ i x. is_listed u.dummies x) (λ i x. false) Cpu Plain }
{}
