//! The blocks reached from a block.

ghost use Rattle.std.specs.Prelude.{◌≡◌, ◌<◌, ◌↔◌, ℕ, IfOk, OnOk, get_or, length, replicate, slice_get, true, false};
ghost use Rattle.std.specs.List.{All};
ghost use Rattle.sim_flat_graph.specs.Graph.{successors, IsWhole, Reaches};
ghost use Rattle.sim_flat_graph.specs.Search as spec;

use sqlite_items::Items;
use std::alloc::{AllocError, Global};
use std::marker::Model;

/// The numbers found so far, and the order in which they were found.
#[derive(Drop)]
struct Search {
    marks: Vec<bool>,
    order: Vec<usize>,
}

impl Model for Search {
    ghost use Rattle.sim_flat_graph.specs.Search.{Found};

    ghost Value = { Found };

    ghost view = { λ s. record { marks = s.marks.items; order = s.order.items } };
}

/// This many marks, none of them set.
fn no_marks(alloc: Global, count: usize) -> Result<Vec<bool>, AllocError>
    ensures { IfOk result (λ m. m.items ≡ replicate count false) }
{
    let mut marks = Vec::new(alloc);
    marks.resize(count, false)?;
    Ok(marks)
}

/// Whether a number is marked.
pub fn is_marked(marks: &[bool], n: usize) -> bool
    ensures { result ≡ get_or marks.now n false }
{
    match marks.get(n) {
        None => false,
        Some(mark) => *mark,
    }
}

/// Records a number, unless it is already found.
#[tactic(auto, unfolding(crate::specs::Search::noted))]
fn note(search: &mut Search, n: usize) -> Result<(), AllocError>
    requires { n < length search.old.marks }
    ensures size { length search.new.marks ≡ length search.old.marks }
    ensures value { OnOk result (search.new ≡ spec.noted search.old n) }
{
    if !search.marks[n] {
        search.order.push(n)?;
        search.marks[n] = true;
    }
    Ok(())
}

/// Records each of these numbers.
#[tactic(auto, unfolding(crate::specs::Search::all_noted))]
fn note_all(search: &mut Search, numbers: &[usize]) -> Result<(), AllocError>
    requires { All (λ n. n < length search.old.marks) numbers.now }
    ensures size { length search.new.marks ≡ length search.old.marks }
    ensures value { OnOk result (search.new ≡ spec.all_noted search.old numbers.now) }
{
    for n in numbers {
        note(search, *n)?;
    }
    Ok(())
}

/// The start of a search: one number is found.
fn begun(alloc: Global, graph: &[Items<usize>], from: usize) -> Result<Search, AllocError>
    requires { from < length graph.now }
    ensures size { IfOk result (λ s. length s.marks ≡ length graph.now) }
    ensures value { IfOk result (λ s. s ≡ spec.begun graph.now from) }
{
    let mut search = Search {
        marks: no_marks(alloc, graph.len())?,
        order: Vec::new(alloc),
    };
    note(&mut search, from)?;
    Ok(search)
}

/// The numbers to which a number leads.
pub fn successors<'a>(graph: &'a [Items<usize>], n: usize) -> &'a [usize]
    requires { IsWhole graph.now }
    ensures value { result.now ≡ successors graph.now n }
    ensures within { All (λ m. m < length graph.now) result.now }
{
    match graph.get(n) {
        None => &[],
        Some(row) => row.as_slice(),
    }
}

/// Records the numbers to which the number at position `at` of the order leads, if there is one.
#[tactic(auto, unfolding(crate::specs::Search::all_noted))]
fn look_at(search: &mut Search, graph: &[Items<usize>], at: usize) -> Result<(), AllocError>
    requires whole { IsWhole graph.now }
    requires size { length search.old.marks ≡ length graph.now }
    ensures size { length search.new.marks ≡ length search.old.marks }
    ensures value { OnOk result (search.new ≡ spec.all_noted search.old (spec.successors_of graph.now (slice_get search.old.order at))) }
{
    match search.order.get(at).copied() {
        None => Ok(()),
        Some(n) => note_all(search, successors(graph, n)),
    }
}

/// The numbers reached from this one.
#[tactic(auto, unfolding(crate::specs::Search::searched))]
pub fn reached(alloc: Global, graph: &[Items<usize>], from: usize) -> Result<Vec<bool>, AllocError>
    requires whole { IsWhole graph.now }
    requires from { from < length graph.now }
    ensures length { IfOk result (λ m. length m.items ≡ length graph.now) }
    ensures marks { IfOk result (λ m. (n : ℕ) → (get_or m.items n false ≡ true) ↔ Reaches graph.now n from) }
{
    let mut search = begun(alloc, graph, from)?;
    for at in 0..graph.len() {
        look_at(&mut search, graph, at)?;
    }
    Ok(search.marks)
}
