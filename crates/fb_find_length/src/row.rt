//! Rows of names, taken from what is left of a budget of characters; nothing where there is not enough.

ghost use Rattle.std.specs.Prelude.{◌≡◌, ◌+◌, ◌<◌, length, map, string_bytes};
ghost use Rattle.std.specs.Option.{MatchOption};
ghost use Rattle.fb_model.specs.Certificates.{is_boolean as is_true};
ghost use Rattle.fb_types_blocks.specs.Views.{variables_of};
ghost use Rattle.fb_find_length.specs.Counting.{names_length, range_length, ranges_length};

use fb_types_blocks::Variables;
use fb_words::ElemType;
use indexmap::IndexMap;

// What is left behind so many characters.
fn spend(left: usize, characters: usize) -> Option<usize>
    ensures { MatchOption result (left < characters) (λ rest. rest + characters ≡ left) }
{
    if left < characters {
        None
    } else {
        Some(left - characters)
    }
}

/// What is left behind the row of a name, which has so much beside it.
pub(crate) fn row(left: usize, beside: usize, name: &str) -> Option<usize>
    ensures { MatchOption result (left < beside + length name.now) (λ rest. rest + (beside + length name.now) ≡ left) }
{
    match spend(left, beside) {
        Some(left) => spend(left, name.len()),
        None => None,
    }
}

/// What is left behind the rows of names.
pub(crate) fn names(left: usize, beside: usize, names: &[&str]) -> Option<usize>
    ensures { MatchOption result (left < names_length beside (map (λ n. n.now) names.now)) (λ rest. rest + names_length beside (map (λ n. n.now) names.now) ≡ left) }
{
    let mut left = left;
    for name in names {
        match row(left, beside, *name) {
            Some(rest) => left = rest,
            None => return None,
        }
    }
    Some(left)
}

/// What is left behind the rows of the names of a table.
pub(crate) fn table<V>(left: usize, beside: usize, table: &IndexMap<String, V>) -> Option<usize>
    ensures { MatchOption result (left < names_length beside (map (λ p. string_bytes p.0) table.now.entries)) (λ rest. rest + names_length beside (map (λ p. string_bytes p.0) table.now.entries) ≡ left) }
{
    let mut left = left;
    for index in 0..table.len() {
        let Some((name, _)) = table.get_index(index) else {
            return Some(left);
        };
        match row(left, beside, name.as_str()) {
            Some(rest) => left = rest,
            None => return None,
        }
    }
    Some(left)
}

// Whether a type has the two truth values alone.
fn is_boolean(of: ElemType) -> bool
    ensures { result ≡ is_true of }
{
    match of {
        ElemType::Bool => true,
        _ => false,
    }
}

// What is left behind the row RANGE of a variable: BOOL has none.
fn range(left: usize, beside: usize, name: &str, of: ElemType) -> Option<usize>
    ensures { MatchOption result (left < range_length beside name.now of) (λ rest. rest + range_length beside name.now of ≡ left) }
{
    if is_boolean(of) {
        Some(left)
    } else {
        row(left, beside, name)
    }
}

/// What is left behind the rows RANGE of variables.
pub(crate) fn ranges(left: usize, beside: usize, variables: &Variables) -> Option<usize>
    ensures { MatchOption result (left < ranges_length beside (variables_of variables.now)) (λ rest. rest + ranges_length beside (variables_of variables.now) ≡ left) }
{
    let mut left = left;
    for index in 0..variables.len() {
        let Some((name, variable)) = variables.get_index(index) else {
            return Some(left);
        };
        match range(left, beside, name.as_str(), variable.of_type) {
            Some(rest) => left = rest,
            None => return None,
        }
    }
    Some(left)
}
