//! Files into which is put what was kept of a run.

ghost use Rattle.std.specs.Prelude.{◌≡◌, ◌∷◌, false, true, IsSome, map, option_map};
ghost use Rattle.fbr_files.specs.Writing.{LeavesAll, LeavesAllBut};
ghost use Rattle.fbr_words.specs.Program.{kept_by};
ghost use Rattle.fbr_words.specs.Requests.{watching_of};
ghost use Rattle.fbr_runs.specs.Running as runs;
ghost use Rattle.fbr_runs.specs.Running.{AllApart, AreKeptApart, NamesKept};

use fbr_files::{Fault, Sources, into_another, put_text};
use fbr_watch::{Seen, Wish};
use fbr_words::Watched;

/// What people are told where a file that is read would be written.
pub const OVERWRITTEN: &str =
    "fbr: what is written would take the place of a file that is read: name another file";

/// What is asked of those who watch a run, for people or for programs.
pub fn wish_of<'b, 'a>(watched: &'b Watched<'a>, is_json: bool) -> Wish<'b, 'a> {
    Wish {
        paths: watched.paths.as_slice(),
        is_json,
        has_table: watched.table.is_some(),
        has_dump: watched.dump.is_some(),
        has_timeline: watched.timeline.is_some(),
    }
}

/// Whether nothing is watched.
pub fn is_plain(watched: &Watched<'_>) -> bool
    ensures { result ≡ runs.is_plain (watching_of watched.now) }
{
    watched.paths.as_slice().is_empty()
        && watched.dump.is_none()
        && watched.table.is_none()
        && watched.timeline.is_none()
}

/// Whether the file that is written, where one is, is one of those that are read.
pub fn is_read<S: Sources>(files: &S, into: Option<&str>, one: &str, others: &[&str]) -> bool
    ensures apart { result ≡ false → AllApart (S.same files.now) (option_map (λ name. name.now) into.entry) (one.now ∷ map (λ name. name.now) others.now) }
    ensures named { result ≡ true → IsSome (option_map (λ name. name.now) into.entry) }
{
    if !into_another(files, into, Some(one)) {
        return true;
    }
    for name in others {
        if !into_another(files, into, Some(*name)) {
            return true;
        }
    }
    false
}

/// Whether one of the files that are kept of a run is one of those that are read.
pub fn overwrites<S: Sources>(files: &S, watched: &Watched<'_>, one: &str, others: &[&str]) -> bool
    ensures apart { result ≡ false → AreKeptApart (S.same files.now) (watching_of watched.now) (one.now ∷ map (λ name. name.now) others.now) }
    ensures named { result ≡ true → NamesKept (watching_of watched.now) }
{
    if is_read(files, watched.dump, one, others) {
        return true;
    }
    if is_read(files, watched.table, one, others) {
        return true;
    }
    is_read(files, watched.timeline, one, others)
}

/// Puts a text into a file, where one is named.
pub fn put_maybe<'a, S: Sources>(
    files: &mut S,
    into: Option<&'a str>,
    text: &[u8],
) -> Result<(), Fault<'a>>
    ensures others { LeavesAllBut (S.same files.old) (option_map (λ name. name.now) into.entry) (S.contents files.old) (S.contents files.new) }
    ensures names { S.same files.new ≡ S.same files.old }
{
    match into {
        Some(name) => put_text(files, name, text),
        None => Ok(()),
    }
}

/// Puts what was kept of a run into the files that are named; or says which of them could not be written.
pub fn put_kept<'a, S: Sources>(
    files: &mut S,
    watched: &Watched<'a>,
    seen: &Seen,
) -> Result<(), Fault<'a>>
    ensures others { LeavesAll (S.same files.old) (kept_by (watching_of watched.now)) (S.contents files.old) (S.contents files.new) }
    ensures names { S.same files.new ≡ S.same files.old }
{
    let dump = put_maybe(files, watched.dump, &seen.dump);
    let table = put_maybe(files, watched.table, &seen.table);
    let timeline = put_maybe(files, watched.timeline, &seen.timeline);
    dump.and(table).and(timeline)
}
