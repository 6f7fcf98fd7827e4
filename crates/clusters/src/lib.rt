// Nets found as source document 000 finds them (document 02, U3), from any values of X, whether group 1 holds or not.
//
// The paper's section III-A makes a network of a solved graph: Definition 2 has the graph's nodes and edges, Definition 3 says what a
// node cluster is, and the paragraph below it finds all clusters and merges the nodes of each, by breadth first search. It leaves the
// steps of that search out; they are the usual ones: a queue, and a mark on each node that is visited, which is its label. Document 01 has
// other words:
//
//     document 000                        document 01
//     node                                terminal
//     internal edge (i,j), x_{i,j} = 1    X(i,j) is true
//     path of internal edges              chain of true X (document 02)
//     node cluster                        net, where group 1 holds
//     a cluster's nodes are merged        its terminals have one label, the lowest of them
//
// Chains and labels are defined in specs/Chain.antt.
#![tactic(auto)]

ghost use Rattle.std.specs.Prelude.{◌≡◌, true, false, ◌+◌, ◌≤◌, ◌<◌};
ghost use Rattle.formula.specs.Formula.{X};
ghost use Rattle.network.specs.Value.{terminals_most};
ghost use Rattle.answer.specs.Values.{assigned};
ghost use Rattle.clusters.specs.Chain.{chain_label, chain_labels};
ghost use Rattle.clusters.specs.Search.{entered, visited_at, Labelled, Searching, Further};

use answer::Values;
use formula_clauses::variables;
use network::{Labels, TERMINALS};
use std::array;

// Definition 2: a graph of count nodes, with the values of X that give its internal edges.
#[derive(Clone, Copy)]
struct Graph {
    count: u8,
    values: Values,
    ghost few: { count ≤ terminals_most },
}

impl Graph {
    // The second kind of edge: whether the internal edge between two nodes is there.
    fn internal_edge(&self, i: u8, j: u8) -> bool
        ensures { result ≡ assigned self.now.values (X self.now.count i j) }
    {
        answer::is_true(&self.values, variables::joined_among(self.count, i, j))
    }
}

// A search: the labels of the nodes that are visited, by it or by one before, so that a node is visited exactly where it has a label; the
// queue, and how many nodes have entered it. The queue is an array with a length: there is no heap, and no node enters twice.
#[derive(Clone, Copy)]
struct Search {
    labels: [Option<u8>; TERMINALS],
    queue: [u8; TERMINALS],
    tail: u8,
}

impl Search {
    // Visits a node of the cluster that is searched from start: it gets its label, and enters the queue.
    #[tactic(auto, unfolding(crate::specs::Search::entered))]
    fn visit(&mut self, start: u8, node: u8)
        requires { (node < terminals_most) × (self.old.tail < terminals_most) }
        ensures { self.new ≡ entered start node self.old }
    {
        self.labels[node as usize] = Some(start);
        self.queue[self.tail as usize] = node;
        self.tail += 1;
    }

    // Visits the neighbours of a node, those to which it has an internal edge, that are not visited yet.
    fn visit_neighbours(&mut self, graph: &Graph, start: u8, node: u8)
        requires inside { node < graph.now.count }
        requires label { chain_label graph.now.count (assigned graph.now.values) node ≡ start }
        requires searching { Searching graph.now.count (assigned graph.now.values) start self.old }
        ensures { Further graph.now.count (assigned graph.now.values) start node self.old self.new graph.now.count }
    {
        for neighbour in 0..graph.count {
            if self.labels[neighbour as usize].is_none() && graph.internal_edge(node, neighbour) {
                self.visit(start, neighbour);
            }
        }
    }

    // Definition 3: finds the cluster of a node that is not visited yet, breadth first. The nodes leave the queue in the order in which they
    // entered it, and the neighbours of each are visited. No node enters twice, so that at most count do, and count - head falls.
    fn find_cluster(&mut self, graph: &Graph, start: u8)
        requires inside { start < graph.now.count }
        requires new { visited_at self.old.labels start ≡ false }
        requires labelled { Labelled graph.now.count (assigned graph.now.values) start self.old.labels }
        ensures { Labelled graph.now.count (assigned graph.now.values) (start + 1) self.new.labels }
    {
        self.tail = 0;
        self.visit(start, start);
        let mut head: u8 = 0;
        // A while: what is left of the queue grows as it is worked off.
        while head < self.tail {
            self.visit_neighbours(graph, start, self.queue[head as usize]);
            head += 1;
        }
    }
}

// The paragraph below Definition 3: finds all clusters of count nodes, each from the lowest node that has no label yet, and gives the
// labels, 0 past them. Of more nodes than an array holds there are no labels.
pub fn find_labels(count: u8, values: Values) -> Labels
    ensures { result ≡ chain_labels count (assigned values) }
{
    if TERMINALS < count as usize {
        return [0; TERMINALS];
    }
    let graph = Graph { count, values };
    let mut search = Search {
        labels: [None; TERMINALS],
        queue: [0; TERMINALS],
        tail: 0,
    };
    for start in 0..count {
        if search.labels[start as usize].is_none() {
            search.find_cluster(&graph, start);
        }
    }
    array::from_fn(|i| search.labels[i].unwrap_or(0))
}
