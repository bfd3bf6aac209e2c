//! Laws of what is answered of a text: said of the grammar alone, and in one way.

ghost use Rattle.std.specs.Prelude.{◌≡◌, ◌≤◌, ◌-◌, ℕ, List, take, length, Result, Err};
ghost use Rattle.fb_faults.specs.declared.text.TextFault.{TextFault};
ghost use Rattle.fb_model.specs.Tokens.{Token};
ghost use Rattle.fb_model.specs.Spelling.{text_limit};
ghost use Rattle.fb_read.specs.Reading.{syntax, too_deep};
ghost use Rattle.fb_tree.specs.declared.tree.FileTree.{FileTree};
ghost use Rattle.fb_text.specs.Reading.{whole_at};
ghost use Rattle.fb_text.specs.Answers.{ReadsText};
ghost use Rattle.fb_model.specs.RefusedTexts.{Begins, StartsTree, IsNoTree, IsTooDeep};
ghost use Rattle.fb_text_laws.specs.Answers.{IsAnswer, IsAlike};

/// Where reading stops, a tree that nests no deeper than is read begins with the tokens before that place.
pub fn what_was_read_goes_on()
    ensures syntax { (ts : List Token) (left : ℕ) → whole_at ts ≡ Err (syntax left) → Begins (take (length ts - left) ts) }
    ensures deep { (ts : List Token) (left : ℕ) → whole_at ts ≡ Err (too_deep left) → Begins (take (length ts - left) ts) }
{}

/// What a text has before the place where it goes wrong or nests too deep, a space and some more are the text of a tree.
pub fn texts_go_on()
    ensures wrong { (text : List ℕ) (at : ℕ) → IsNoTree text at → StartsTree (take at text) }
    ensures deep { (text : List ℕ) (at : ℕ) → IsTooDeep text at → StartsTree (take at text) }
{}

/// A text goes wrong at one place, or nests too deep at one place, and never both.
pub fn places_are_one()
    ensures wrong { (text : List ℕ) (a b : ℕ) → IsNoTree text a → IsNoTree text b → a ≡ b }
    ensures deep { (text : List ℕ) (a b : ℕ) → IsTooDeep text a → IsTooDeep text b → a ≡ b }
    ensures apart { (text : List ℕ) (a b : ℕ) → IsNoTree text a → IsTooDeep text b → ⊥ }
{}

/// What the reader of texts answers is what the grammar says: the tree, or why there is none and where.
pub fn answers_are_so()
    ensures { (text : List ℕ) (answer : Result FileTree TextFault) → ReadsText text answer → IsAnswer text answer }
{}

/// What the grammar says is what the reader answers.
pub fn answers_are_all()
    ensures { (text : List ℕ) (answer : Result FileTree TextFault) → IsAnswer text answer → ReadsText text answer }
{}

/// A text within the limit has one answer, unless memory runs out.
pub fn answers_are_one()
    ensures { (text : List ℕ) (a b : Result FileTree TextFault) → length text ≤ text_limit → IsAnswer text a → IsAnswer text b → IsAlike a b }
{}
