//! A list of transactions with a table of the places in it.

ghost use Rattle.std.specs.Prelude.{◌≡◌, ℕ, List, IfOk, map, option_map};
ghost use Rattle.std.specs.List.{find, list_all};
ghost use Rattle.adya_values.specs.Meaning.Edges.{Kind};
ghost use Rattle.adya_values.specs.Computing.EdgeList.{joined};
ghost use Rattle.adya_values.specs.Meaning.Orders.{place};
ghost use Rattle.adya_values.specs.Computing.Certificates.{is_forward};
ghost use Rattle.txn_table.specs.Mirror.{HasPlaces};
ghost use Rattle.adya_dsg.specs.Mirror.{edge_of};
ghost use Rattle.adya_dsg.specs.Machinery.PartEdges.{is_backward, line_edges};

use crate::Edge;
use adya_values::Txn;
use std::alloc::{AllocError, Global};
use txn_table::{TxnTable, places_of};

/// A list of transactions and their places in it. One that it doesn't have has the place after the last.
#[derive(Drop)]
pub(crate) struct TxnPlaces<'a> {
    txns: &'a [Txn],
    places: TxnTable<usize>,
    ghost placed: { HasPlaces places txns.now },
}

impl<'a> TxnPlaces<'a> {
    /// Makes the table for these transactions, with an array for the numbers below `small`; `AllocError` if memory is
    /// refused.
    pub fn of(alloc: Global, txns: &'a [Txn], small: usize) -> Result<TxnPlaces<'a>, AllocError>
        ensures { IfOk result (λ p. p.txns.now ≡ txns.now) }
    {
        let places = places_of(alloc, txns, small)?;
        Ok(TxnPlaces { txns, places })
    }

    /// Returns how many transactions come before this one.
    pub fn place(&self, txn: Txn) -> usize
        ensures { result ≡ place self.now.txns.now txn }
    {
        self.places.get(txn)
    }

    /// Returns whether the edge goes forward in the list.
    fn is_forward(&self, edge: Edge) -> bool
        ensures { result ≡ is_forward self.now.txns.now (edge_of edge) }
    {
        self.place(edge.from) < self.place(edge.to)
    }

    /// Returns whether an edge between the two transactions goes forward in the list, whatever its kind and key. There is
    /// no edge unless both are given and differ, and then nothing goes backward.
    pub fn goes_forward(&self, from: Option<Txn>, to: Option<Txn>) -> bool
        ensures { (kind : Kind) (key : List ℕ)
            → result ≡ list_all (is_forward self.now.txns.now) (joined kind key from to) }
    {
        let (Some(from), Some(to)) = (from, to) else {
            return true;
        };
        from == to || self.place(from) < self.place(to)
    }

    /// Returns whether all write dependencies of an order line with these writers go forward in the list, whatever its
    /// key.
    pub fn keeps_order(&self, writers: &[Txn]) -> bool
        ensures { (key : List ℕ) → result ≡ list_all (is_forward self.now.txns.now) (line_edges key writers.now) }
    {
        let [first, rest @ ..] = writers else {
            return true;
        };
        let mut last = *first;
        for to in rest {
            if !self.goes_forward(Some(last), Some(*to)) {
                return false;
            }
            last = *to;
        }
        true
    }

    /// Returns the first of the edges that doesn't go forward in the list.
    pub fn first_backward(&self, edges: &[Edge]) -> Option<Edge>
        ensures { option_map edge_of result ≡ find (is_backward self.now.txns.now) (map edge_of edges.now) }
    {
        for edge in edges {
            if !self.is_forward(*edge) {
                return Some(*edge);
            }
        }
        None
    }
}
