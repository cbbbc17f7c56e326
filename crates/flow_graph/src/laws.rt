//! What holds of the graphs of all code.

ghost use Rattle.std.specs.Prelude.{◌≡◌, ◌<◌, ◌↔◌, ℕ, Bool, List, [], ◌∷◌, IsTrue, length};
ghost use Rattle.std.specs.List.{Contains};
ghost use Rattle.flow_graph.specs.Control.{CodeBytes, IsSuccessor};
ghost use Rattle.flow_graph.specs.Reached.{Reaches, LeaderOf};
ghost use Rattle.flow_graph.specs.ReachedFrom.{ReachesFrom};
ghost use Rattle.flow_graph.specs.Graphs.{Graph, IsFlowGraph, IsFlowGraphFrom};

use decoder::reading_laws::bytes_have_one_reading;
use unlisted::laws::answers_are_unique;

/// Every set that contains the first byte, and with each offset its successors, contains the reached offsets.
pub fn reached_is_least()
    ensures { (code : CodeBytes) (chosen : ℕ → Bool) → (0 < length code.bytes → IsTrue (chosen 0))
        → ((p q : ℕ) → IsTrue (chosen p) → IsSuccessor code p q → IsTrue (chosen q))
        → (q : ℕ) → Reaches code q → IsTrue (chosen q) }
{}

/// An offset has at most one leader.
pub fn leaders_are_unique()
    ensures { (code : CodeBytes) (q leader other : ℕ) → LeaderOf code leader q → LeaderOf code other q → leader ≡ other }
{}

/// Some code has at most one graph.
pub fn graphs_are_unique()
    ensures { (code : CodeBytes) (graph other : Graph) → IsFlowGraph code graph → IsFlowGraph code other → graph ≡ other }
{
    bytes_have_one_reading();
    answers_are_unique();
}

/// Every set that contains the entries within the code, and with each offset its successors, contains what is reached from them.
pub fn reached_from_is_least()
    ensures { (code : CodeBytes) (entries : List ℕ) (chosen : ℕ → Bool)
        → ((q : ℕ) → Contains entries q → q < length code.bytes → IsTrue (chosen q))
        → ((p q : ℕ) → IsTrue (chosen p) → IsSuccessor code p q → IsTrue (chosen q))
        → (q : ℕ) → ReachesFrom code entries q → IsTrue (chosen q) }
{}

/// Some code has at most one graph for the same entries, in any order and with any repetition.
pub fn graphs_from_are_unique()
    ensures { (code : CodeBytes) (entries others : List ℕ) (graph other : Graph)
        → ((q : ℕ) → Contains entries q ↔ Contains others q)
        → IsFlowGraphFrom code entries graph → IsFlowGraphFrom code others other → graph ≡ other }
{
    bytes_have_one_reading();
    answers_are_unique();
}

/// The graph of some code is the graph from its first byte as the only entry.
pub fn one_entry_is_the_first_byte()
    ensures { (code : CodeBytes) (graph : Graph) → IsFlowGraphFrom code (0 ∷ []) graph ↔ IsFlowGraph code graph }
{}
