//! Which topological order and which cycle are returned.
//!
//! A case has the nodes, the arcs and what is found of the graph, with a `;` after the first two. Most of the cycles in
//! the file are found by a way back that could have gone otherwise. In the cycle 3-6 6-3, 1 is placed. From 2, which is
//! on a cycle with 5, the way goes back to 4, its smaller predecessor, and on to 6 and 3, from which it returns to 6. The
//! smaller predecessor 1 of 6 no longer remains. In the last graph the way goes back from 1 to 4, 2, 3 and 1 again: the
//! cycle goes the other way.

ghost use Rattle.std.specs.Prelude.{◌≡◌, ◌==◌, ◌&&◌};
ghost use Rattle.std.specs.List.{list_any, list_all};

use adya_line::txn;
use digraph::{Arc, Outcome, each_once, topological_order};
use std::alloc::Global;

/// Returns the number, which is spelled as those of certificates.
fn number_of(text: &str) -> Option<u32> {
    Some(txn(text.as_bytes())?.get())
}

fn arc_of(text: &str) -> Option<Arc> {
    let (from, to) = text.split_once("-")?;
    let from = number_of(from)?;
    let to = number_of(to)?;
    Some(Arc { from, to })
}

fn numbers_of(alloc: Global, text: &str) -> Option<Vec<u32>> {
    let mut numbers = Vec::new(alloc);
    for word in text.split_whitespace() {
        numbers.push(number_of(word)?).ok()?;
    }
    Some(numbers)
}

fn arcs_of(alloc: Global, text: &str) -> Option<Vec<Arc>> {
    let mut arcs = Vec::new(alloc);
    for word in text.split_whitespace() {
        arcs.push(arc_of(word)?).ok()?;
    }
    Some(arcs)
}

fn is_node(nodes: &[u32], t: u32) -> bool
    ensures { result ≡ list_any (λ u. u == t) nodes.now }
{
    nodes.iter().any(|u| *u == t)
}

fn is_graph(nodes: &[u32], arcs: &[Arc]) -> bool
    ensures { result
        ≡ list_all (λ a. list_any (λ u. u == a.from) nodes.now && list_any (λ u. u == a.to) nodes.now) arcs.now }
{
    arcs.iter()
        .all(|a| is_node(nodes, a.from) && is_node(nodes, a.to))
}

/// Returns what is found of the graph; nothing if an end of an arc is no node.
fn outcome(alloc: Global, nodes: &[u32], arcs: Vec<Arc>) -> Option<Outcome> {
    if !is_graph(nodes, &arcs) {
        return None;
    }
    topological_order(alloc, nodes, arcs).ok()
}

/// Returns what is found of the graph of these texts.
fn outcome_of(alloc: Global, nodes: &str, arcs: &str) -> Option<Outcome> {
    let nodes = numbers_of(alloc, nodes)?;
    outcome(alloc, &nodes, arcs_of(alloc, arcs)?)
}

/// Whether the text lists these nodes.
fn are_nodes(alloc: Global, nodes: &[u32], text: &str) -> bool {
    match numbers_of(alloc, text) {
        Some(numbers) => numbers.as_slice() == nodes,
        None => false,
    }
}

/// Whether the text lists these arcs.
fn are_arcs(alloc: Global, arcs: &[Arc], text: &str) -> bool {
    match arcs_of(alloc, text) {
        Some(listed) => listed.as_slice() == arcs,
        None => false,
    }
}

/// Whether the order or the cycle of a graph is found.
pub(crate) fn is_found(alloc: Global, case: &str) -> bool {
    let (nodes, rest) = case.split_once(";").unwrap_or(("", ""));
    let (arcs, wanted) = rest.split_once(";").unwrap_or(("", ""));
    let (kind, list) = wanted.split_once(" ").unwrap_or((wanted, ""));
    match outcome_of(alloc, nodes, arcs) {
        Some(Outcome::Order(order)) => kind == "order" && are_nodes(alloc, &order, list),
        Some(Outcome::Cycle(cycle)) => kind == "cycle" && are_arcs(alloc, &cycle, list),
        None => false,
    }
}

/// Whether the arcs without repeats are those after the `;`, by their sources and then by their targets.
pub(crate) fn are_each_once(alloc: Global, case: &str) -> bool {
    let (arcs, wanted) = case.split_once(";").unwrap_or(("", ""));
    match arcs_of(alloc, arcs) {
        Some(arcs) => are_arcs(alloc, &each_once(arcs), wanted),
        None => false,
    }
}
