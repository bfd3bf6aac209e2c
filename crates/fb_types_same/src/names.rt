//! Names and labels that are the same.

ghost use Rattle.std.specs.Prelude.{◌≡◌, true, map, string_bytes};

/// Whether two lists of names are the same.
pub(crate) fn same_names(one: &[String], other: &[String]) -> bool
    ensures { result ≡ true → map string_bytes one.now ≡ map string_bytes other.now }
{
    if one.len() != other.len() {
        return false;
    }
    for at in 0..one.len() {
        if one[at] != other[at] {
            return false;
        }
    }
    true
}

// Whether two labels are the same.
fn same_label(one: &(i64, i64), other: &(i64, i64)) -> bool
    ensures { result ≡ true → one.now ≡ other.now }
{
    one.0 == other.0 && one.1 == other.1
}

/// Whether two lists of labels are the same.
pub(crate) fn same_labels(one: &[(i64, i64)], other: &[(i64, i64)]) -> bool
    ensures { result ≡ true → one.now ≡ other.now }
{
    if one.len() != other.len() {
        return false;
    }
    for at in 0..one.len() {
        if !same_label(&one[at], &other[at]) {
            return false;
        }
    }
    true
}
