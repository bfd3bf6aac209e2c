//! What the answers say of runs.

ghost use Rattle.std.specs.Prelude.{◌≡◌, ℕ, Bool, IsSome, Some};
ghost use Rattle.fb_model.specs.Language.{holds, run};
ghost use Rattle.fb_model.specs.Values.{Values};
ghost use Rattle.fb_model.specs.Clear.{examined, guard_range};
ghost use Rattle.fb_model.specs.Shapes.{AlgorithmFits, HasShape, Keeps, Lies, Shape, TermFits, written};
ghost use Rattle.st_types.specs.Views.{term_of};
ghost use Rattle.st_types.specs.CommandViews.{commands_of};
ghost use Rattle.st_types.specs.declared.term.TypedExpr.{TypedExpr};
ghost use Rattle.st_types.specs.declared.whole.Algo.{Algo};
ghost use Rattle.fb_ranges.specs.Answers.{IsClear, most_steps};
ghost use Rattle.fb_ranges.specs.declared.rows.Ranges.{Ranges};
ghost use Rattle.fb_ranges.specs.Views.{spans_of};

/// A guard that is clear is true or false, whatever values the variables have in their rows.
pub fn clear_guards_answer()
    ensures { (rows : Ranges) (shape : Shape) (guard : TypedExpr) (values : Values) → IsSome (guard_range (spans_of rows) (term_of guard)) → TermFits shape (term_of guard) → HasShape shape values → Lies (spans_of rows) values → (b : Bool) × (holds (term_of guard) values ≡ Some b) }
{}

/// An algorithm that is clear, run from any values in the rows, neither traps nor leaves them, and writes nothing else.
pub fn clear_algorithms_keep()
    ensures { (rows : Ranges) (shape : Shape) (algo : Algo) (values : Values) → IsClear (examined (spans_of rows) (commands_of algo.statements.items)) → AlgorithmFits shape (commands_of algo.statements.items) → HasShape shape values → Lies (spans_of rows) values → (n : ℕ) × Keeps (spans_of rows) shape (written (commands_of algo.statements.items)) n values (run (commands_of algo.statements.items) values) }
{}

/// And it takes no more steps than its most, where they are known.
pub fn steps_are_enough()
    ensures { (rows : Ranges) (shape : Shape) (algo : Algo) (values : Values) (most : ℕ) → most_steps (examined (spans_of rows) (commands_of algo.statements.items)) ≡ Some most → AlgorithmFits shape (commands_of algo.statements.items) → HasShape shape values → Lies (spans_of rows) values → Keeps (spans_of rows) shape (written (commands_of algo.statements.items)) most values (run (commands_of algo.statements.items) values) }
{}
