//! An order in which each place stands after all that it demands, or a closed walk of demands.

ghost use Rattle.std.specs.Prelude.{◌≡◌, ◌≢◌, ◌+◌, ◌<◌, ◌≤◌, length, ℕ, List, IfOk, IfSome, IfNone, slice_index, slice_set, drop, MatchOption, ◌++◌, ◌∷◌, [], vec_len};
ghost use Rattle.fb_find_graph.specs.Graphs.{row, InRange, IsClosed, HasEdge};
ghost use Rattle.fb_find_graph.specs.Searches.{rows_of, mark, IsLast, work, IsSearching, IsSorted, IsRotated};

use std::alloc::{AllocError, Global};

/// How far the search has come at a place.
#[derive(Clone, Copy)]
pub(crate) enum Mark {
    /// The search has not come to it.
    New,
    /// It is on the path, at this depth, and this many of its demands are done.
    Open(usize, usize),
    /// It and all that it demands stand in the order.
    Done,
}

/// The last place of the path: itself, its depth, and how many of its demands are done.
#[derive(Clone, Copy)]
struct Top {
    place: usize,
    depth: usize,
    seen: usize,
}

/// What the search finds.
#[derive(Drop)]
pub enum Sorted {
    /// Each place, after all that it demands.
    Order(Vec<usize>),
    /// A closed walk of demands.
    Walk(Vec<usize>),
}

/// A place that was not yet come to is put on the path.
fn open_place(
    graph: &[Vec<usize>],
    marks: &mut Vec<Mark>,
    path: &mut Vec<usize>,
    order: &[usize],
    next: usize,
) -> Result<(), AllocError>
    requires known { next < length graph.now }
    requires searching { IsSearching (rows_of graph.now) marks.old.items path.old.items order.now }
    requires fresh { mark marks.old.items next ≡ Mark.New }
    requires follows { (k : ℕ) → k + 1 ≡ length path.old.items → HasEdge (rows_of graph.now) (slice_index path.old.items k) next }
    ensures searching { IfOk result (λ u. IsSearching (rows_of graph.now) marks.new.items path.new.items order.now) }
    ensures falls { IfOk result (λ u. work (rows_of graph.now) marks.new.items < work (rows_of graph.now) marks.old.items) }
    ensures begun { IfOk result (λ u. (p : ℕ) → mark marks.old.items p ≢ Mark.New → mark marks.new.items p ≢ Mark.New) }
    ensures opened { IfOk result (λ u. mark marks.new.items next ≢ Mark.New) }
{
    let depth = path.len();
    path.push(next)?;
    marks[next] = Mark::Open(depth, 0);
    Ok(())
}

/// All that the last place of the path demands is done.
fn close_place(
    graph: &[Vec<usize>],
    marks: &mut Vec<Mark>,
    path: &mut Vec<usize>,
    order: &mut Vec<usize>,
    top: Top,
) -> Result<(), AllocError>
    requires searching { IsSearching (rows_of graph.now) marks.old.items path.old.items order.old.items }
    requires last { IsLast path.old.items top.place }
    requires some { 0 < length path.old.items }
    requires was { mark marks.old.items top.place ≡ Mark.Open top.depth top.seen }
    requires full { length (row (rows_of graph.now) top.place) ≤ top.seen }
    ensures searching { IfOk result (λ u. IsSearching (rows_of graph.now) marks.new.items path.new.items order.new.items) }
    ensures falls { IfOk result (λ u. work (rows_of graph.now) marks.new.items < work (rows_of graph.now) marks.old.items) }
    ensures begun { IfOk result (λ u. (p : ℕ) → mark marks.old.items p ≢ Mark.New → mark marks.new.items p ≢ Mark.New) }
{
    order.push(top.place)?;
    let _last = path.pop();
    marks[top.place] = Mark::Done;
    Ok(())
}

/// The walk that an open demand of the last place closes.
fn cut_walk(
    alloc: Global,
    path: &[usize],
    depth: usize,
    next: usize,
) -> Result<Vec<usize>, AllocError>
    requires { depth ≤ length path.now }
    ensures { IfOk result (λ walk. walk.items ≡ drop depth path.now ++ next ∷ []) }
{
    let mut walk = path[depth..].to_vec(alloc)?;
    walk.push(next)?;
    Ok(walk)
}

/// Where the least of some places stands.
fn least_at(places: &[usize]) -> usize
    requires { 0 < length places.now }
    ensures within { result < length places.now }
    ensures least { (k : ℕ) → k < length places.now → slice_index places.now result ≤ slice_index places.now k }
{
    let mut at = 0;
    for (k, place) in places.iter().enumerate() {
        if *place < places[at] {
            at = k;
        }
    }
    at
}

/// The same closed walk, from its least place on.
fn rotate_walk(alloc: Global, walk: &[usize]) -> Result<Vec<usize>, AllocError>
    requires { 1 < length walk.now }
    ensures { IfOk result (IsRotated walk.now) }
{
    let last = walk.len() - 1;
    let at = least_at(&walk[..last]);
    let mut rotated = walk[at..last].to_vec(alloc)?;
    rotated.extend_from_slice(&walk[..at + 1])?;
    Ok(rotated)
}

/// The last place of the path.
fn last_place(path: &[usize]) -> Option<usize>
    ensures { MatchOption result (path.now ≡ []) (λ top. (0 < length path.now) × IsLast path.now top) }
{
    path.last().copied()
}

/// One step of the search, at the last place of the path: where a demand of it is on the path, its depth and itself.
fn advance(
    graph: &[Vec<usize>],
    marks: &mut Vec<Mark>,
    path: &mut Vec<usize>,
    order: &mut Vec<usize>,
    top: usize,
) -> Result<Option<(usize, usize)>, AllocError>
    requires range { InRange (rows_of graph.now) }
    requires searching { IsSearching (rows_of graph.now) marks.old.items path.old.items order.old.items }
    requires some { 0 < length path.old.items }
    requires last { IsLast path.old.items top }
    ensures searching { IfOk result (λ u. IsSearching (rows_of graph.now) marks.new.items path.new.items order.new.items) }
    ensures falls { IfOk result (λ w. IfNone w (work (rows_of graph.now) marks.new.items < work (rows_of graph.now) marks.old.items)) }
    ensures begun { IfOk result (λ u. (p : ℕ) → mark marks.old.items p ≢ Mark.New → mark marks.new.items p ≢ Mark.New) }
    ensures closes { IfOk result (λ w. IfSome w (λ at. (at.0 ≤ length path.new.items) × IsClosed (rows_of graph.now) (drop at.0 path.new.items ++ at.1 ∷ []))) }
{
    let Mark::Open(depth, seen) = marks[top] else {
        unreachable!()
    };
    let demands = &graph[top];
    if seen < demands.len() {
        let next = demands[seen];
        match marks[next] {
            Mark::New => open_place(graph, marks, path, order, next)?,
            Mark::Open(first, _) => return Ok(Some((first, next))),
            Mark::Done => marks[top] = Mark::Open(depth, seen + 1),
        }
    } else {
        let top = Top {
            place: top,
            depth,
            seen,
        };
        close_place(graph, marks, path, order, top)?;
    }
    Ok(None)
}

/// Each place after all that it demands, or a closed walk of demands.
pub fn sort_places(alloc: Global, graph: &[Vec<usize>]) -> Result<Sorted, AllocError>
    requires { InRange (rows_of graph.now) }
    ensures { IfOk result (IsSorted (rows_of graph.now)) }
{
    let mut marks = Vec::new(alloc);
    for _ in graph {
        marks.push(Mark::New)?;
    }
    let mut path: Vec<usize> = Vec::new(alloc);
    let mut order: Vec<usize> = Vec::new(alloc);
    for root in 0..graph.len() {
        if let Mark::New = marks[root] {
            open_place(graph, &mut marks, &mut path, &order, root)?;
            while let Some(top) = last_place(&path) {
                if let Some((first, next)) = advance(
                    graph, &mut marks, &mut path, &mut order, top,
                )? {
                    let walk = cut_walk(alloc, &path, first, next)?;
                    return Ok(Sorted::Walk(rotate_walk(alloc, &walk)?));
                }
            }
        }
    }
    Ok(Sorted::Order(order))
}
