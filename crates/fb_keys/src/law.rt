//! Counters over many lives.

ghost use Rattle.std.specs.Prelude.{◌<◌, ℕ, List, [], ◌∷◌, ◌++◌};
ghost use Rattle.std.specs.List.{AllByRecursion};
ghost use Rattle.fb_keys.specs.State.{Lives};

/// A counter that is used in a life with a file lies above every one that was used in any life with it before.
pub fn counters_only_grow()
    ensures { (held after : ℕ) (before : List (List ℕ)) (used : List ℕ) → Lives held (before ++ used ∷ []) after
        → AllByRecursion (λ life. AllByRecursion (λ old. AllByRecursion (λ counter. old < counter) used) life) before }
{}
