//! Laws of clear algorithms: what is clear under the ranges of its variables neither traps nor leaves them.

ghost use Rattle.std.specs.Prelude.{◌≡◌, ◌≢◌, ◌≤◌, ℕ, suc, ℤ, pos, neg_ℤ, ◌+ℤ◌, ◌-ℤ◌, ◌*ℤ◌, int_div, Bool, not, List, [], Some};
ghost use Rattle.fb_words.specs.declared.elem_type.ElemType.{ElemType};
ghost use Rattle.fb_model.specs.StructuredText.{Expression, Statements};
ghost use Rattle.fb_model.specs.TextTyping.{AreCommands, Symbol, IsAsked, IsCondition};
ghost use Rattle.fb_model.specs.Names.{Name};
ghost use Rattle.fb_model.specs.Values.{Values};
ghost use Rattle.fb_model.specs.TypedText.{Term};
ghost use Rattle.fb_model.specs.Language.{Algorithm, Guard, Outcome, greatest, holds, is_zero, least, remainder, run, iteration_count, iterations, value_of};
ghost use Rattle.fb_model.specs.Spans.{Span, corners, differences, maxima, minima, opposites, rests, sizes, sums};
ghost use Rattle.fb_model.specs.Clear.{Clear, Spans, examined, guard_range, most_iterations, narrowed, range_of};
ghost use Rattle.fb_model.specs.Counts.{Ends, Taken, numbers, with_each};
ghost use Rattle.fb_model.specs.Exact.{HoldsOne, HoldsQuotients, HoldsTwo, ReachesOne, ReachesQuotients, ReachesTwo, size_of};
ghost use Rattle.fb_model.specs.Shapes.{AlgorithmFits, HasShape, IsIn, Keeps, Lies, Shape, TermFits, written, shape_of};

/// An expression that has a range has a value, which lies in it.
pub fn values_lie_in_ranges()
    ensures { (e : Term) (spans : Spans) (shape : Shape) (r : Span) (values : Values) → range_of e spans ≡ Some r → TermFits shape e → HasShape shape values → Lies spans values → (v : ℤ) × (value_of e values ≡ Some v) × IsIn r v }
{}

/// A guard that is clear is true or false.
pub fn clear_guards_answer()
    ensures { (rows : Spans) (shape : Shape) (g : Guard) (r : Span) (values : Values) → guard_range rows g ≡ Some r → TermFits shape g → HasShape shape values → Lies rows values → (b : Bool) × (holds g values ≡ Some b) }
{}

/// Values for which a condition is true (it is not 0), or false, lie in the ranges that it narrows so.
pub fn narrowing_keeps()
    ensures { (e : Term) (b : Bool) (spans : Spans) (shape : Shape) (values : Values) (v : ℤ) → TermFits shape e → HasShape shape values → Lies spans values → value_of e values ≡ Some v → is_zero v ≡ not b → Lies (narrowed e b spans) values }
{}

/// A FOR takes no more iterations than the ranges of its bounds allow, and its variable lies in the ranges that are said of it.
pub fn counts_stay_in_ranges()
    ensures iterations { (r s : Span) (k u v : ℤ) → IsIn r u → IsIn s v → iteration_count u v k ≤ most_iterations r s k }
    ensures numbers { (r s : Span) (k : ℤ) (n : ℕ) (u v : ℤ) → IsIn r u → IsIn s v → most_iterations r s k ≡ suc n → Taken r s k n u v }
{}

/// A FOR takes its first value and each number a step further, up to the last one that is not past its last value; no other count of iterations does.
pub fn counts_end_at_the_last()
    ensures ends { (u v k : ℤ) → k ≢ pos 0 → Ends u v k (iteration_count u v k) }
    ensures only { (u v k : ℤ) (n : ℕ) → Ends u v k n → n ≡ iteration_count u v k }
    ensures still { (u v : ℤ) → iteration_count u v (pos 0) ≡ 0 }
{}

/// The iterations of a FOR do its body with each of its numbers, from the first one on.
pub fn iterations_take_each_number()
    ensures { (body : Values → Outcome) (x : Name) (u k : ℤ) (n : ℕ) (values : Values) → iterations n body x u k values ≡ with_each body x (numbers u k n) values }
{}

/// An algorithm that is clear, run from any values in the rows, neither traps nor leaves them, writes nothing else, and takes at most its cost.
pub fn clear_algorithms_keep()
    ensures { (rows : Spans) (shape : Shape) (a : Algorithm) (end : Spans) (n : ℕ) → AlgorithmFits shape a → examined rows a ≡ Clear end n → (values : Values) → HasShape shape values → Lies rows values → Keeps rows shape (written a) n values (run a values) }
{}

/// The ranges of operations hold all exact results for operands in their ranges.
pub fn ranges_hold_results()
    ensures opposites { HoldsOne neg_ℤ opposites }
    ensures sizes { HoldsOne size_of sizes }
    ensures sums { HoldsTwo ◌+ℤ◌ sums }
    ensures differences { HoldsTwo ◌-ℤ◌ differences }
    ensures products { HoldsTwo ◌*ℤ◌ (corners ◌*ℤ◌) }
    ensures quotients { HoldsQuotients (corners int_div) }
    ensures rests { HoldsTwo remainder rests }
    ensures minima { HoldsTwo least minima }
    ensures maxima { HoldsTwo greatest maxima }
{}

/// Both ends of these ranges are results, but those of MOD, for operands in ranges that hold a number: no smaller range holds all results.
pub fn ends_are_reached()
    ensures opposites { ReachesOne neg_ℤ opposites }
    ensures sizes { ReachesOne size_of sizes }
    ensures sums { ReachesTwo ◌+ℤ◌ sums }
    ensures differences { ReachesTwo ◌-ℤ◌ differences }
    ensures products { ReachesTwo ◌*ℤ◌ (corners ◌*ℤ◌) }
    ensures quotients { ReachesQuotients (corners int_div) }
    ensures minima { ReachesTwo least minima }
    ensures maxima { ReachesTwo greatest maxima }
{}

/// What is well typed has the shape of its variables: each algorithm, each guard, and each expression where a type is asked for.
pub fn typed_texts_fit()
    ensures algorithms { (env : List Symbol) (xs : Statements) (a : Algorithm) → AreCommands env [] xs a → AlgorithmFits (shape_of env) a }
    ensures guards { (env : List Symbol) (e : Expression) (g : Guard) → IsCondition env e g → TermFits (shape_of env) g }
    ensures expressions { (env : List Symbol) (type : ElemType) (e : Expression) (x : Term) → IsAsked env type e x → TermFits (shape_of env) x }
{}
