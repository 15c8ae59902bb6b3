//! What the definitions promise, as clauses of functions that do nothing.

ghost use Rattle.std.specs.Prelude.{◌≡◌, ◌≢◌, ◌<◌, ◌-◌, ◌^◌, ◌⊎◌, ◌↔◌, ◌∷◌, ◌++◌, ◌||◌, [], ℕ, true, false, List};
ghost use Rattle.std.specs.Prelude.{reverse, length, slice_index, Contains, AllPairs};
ghost use Rattle.domain_core.specs.Reducible.{IsEdge, IsReducible, IsCrossing, IsFalling, IsForwardEdge, Dominates};
ghost use Rattle.domain_core.specs.Reducible.{IsDecidedBack};
ghost use Rattle.domain_core.specs.Scopes.{Plan, leads, IsPlan, InScope, IsHeader, IsInside};
ghost use Rattle.domain_core.specs.Outlines.{Shape, IsOutline, Holds, LeadsTo, header_of, kind_of, scopes_around};
ghost use Rattle.domain_core.specs.FaultSets.{has_fault, no_faults, with_fault, either};
ghost use Rattle.domain_core.specs.Traces.{IsTrace};
ghost use Rattle.domain_core.specs.Stretches.{IsStretch};
ghost use Rattle.domain_core.specs.Executions.{IsExecution, IsIteration, executions, iterations, open_execution};
ghost use Rattle.domain_core.specs.Executions.{header_count, turns_of};
ghost use Rattle.domain_core.specs.OutlineOf.{IsOutlineOf};

use crate::{FaultSet, ScopeKind};
use alf_ops::RunFault;

/// Where three walks cross, the graph is not reducible.
pub fn crossing_is_irreducible()
    ensures { (edges : List (ℕ × ℕ)) (a b c : List ℕ) → IsCrossing (IsEdge edges) a b c → IsReducible (IsEdge edges)
        → ⊥ }
{}

/// Where numbers fall along all edges but back edges, the graph is reducible.
pub fn falling_is_reducible()
    ensures { (edges : List (ℕ × ℕ)) (number : ℕ → ℕ) → IsFalling (IsEdge edges) number → IsReducible (IsEdge edges) }
{}

/// Of two scopes of a graph with a common node, one lies in the other.
pub fn scopes_are_nested(k: ScopeKind, l: ScopeKind)
    ensures { (plan : Plan) → IsPlan plan → (g h x : ℕ) → IsHeader plan k g → IsHeader plan l h → g ≢ h
        → x < length plan.places
        → InScope plan k g x → InScope plan l h x → IsInside plan k g l h ⊎ IsInside plan l h k g }
{
    // Both are read, so that they are known to be of their type.
    let _ = k;
    let _ = l;
}

/// A scope of a graph is entered only at its header.
pub fn scopes_are_entered_at_their_headers(kind: ScopeKind)
    ensures { (plan : Plan) → IsPlan plan → (h u v : ℕ) → IsHeader plan kind h → leads plan u v → v < length plan.places
        → InScope plan kind h v
        → (v ≡ h) ⊎ InScope plan kind h u }
{
    // Read, so that it is known to be one of its type.
    let _ = kind;
}

/// The outline of a graph keeps what every outline keeps, where it is decided which edges are back edges.
pub fn the_outline_of_a_graph_is_an_outline()
    ensures kept { (plan : Plan) (o : Shape) → IsPlan plan → IsOutlineOf plan o → IsDecidedBack (leads plan)
        → AllPairs (λ e f. e ≢ f) o.edges
        → length o.own < 2 ^ 32 - 1 → length o.edges < 2 ^ 32 - 1 → length o.scopes < 2 ^ 32 - 1 → IsOutline o }
    ensures held { (plan : Plan) (o : Shape) → IsPlan plan → IsOutlineOf plan o → (t n : ℕ) → n < length plan.places
        → t < length o.scopes
        → Holds o t n ↔ InScope plan (kind_of o.scopes t) (header_of o.scopes t) n }
{}

/// In every outline, of two scopes that hold a node parents lead from one to the other, and the own
/// scope of a node lies in each scope that holds the node. The scopes around a node are those that
/// hold it.
pub fn an_outline_nests_its_scopes()
    ensures nested { (o : Shape) → IsOutline o → (s t n : ℕ) → Holds o s n → Holds o t n
        → LeadsTo o.scopes t s ⊎ LeadsTo o.scopes s t }
    ensures inside { (o : Shape) → IsOutline o → (s t n : ℕ) → LeadsTo o.scopes t s → Holds o s n → Holds o t n }
    ensures smallest { (o : Shape) → IsOutline o → (t n m : ℕ) → Holds o t n → Holds o (slice_index o.own n) m
        → Holds o t m }
    ensures around { (o : Shape) → IsOutline o → (t n : ℕ) → Contains (scopes_around o n) t ↔ Holds o t n }
{}

/// In every outline the header of a scope lies on every walk from node 0 to a node of the scope.
pub fn headers_lie_on_every_walk()
    ensures { (o : Shape) → IsOutline o → (t n : ℕ) → n < length o.own → Holds o t n
        → Dominates (IsEdge o.edges) (header_of o.scopes t) n }
{}

/// In every outline an edge that is no back edge goes to a greater rank.
pub fn forward_edges_rise()
    ensures { (o : Shape) → IsOutline o → (u v : ℕ) → IsForwardEdge (IsEdge o.edges) u v → v < length o.own
        → slice_index o.ranks u < slice_index o.ranks v }
{}

/// The executions found along a trace that is written newest first are the longest stretches of
/// the run's nodes that the scope holds, and each one starts at the scope's header.
pub fn executions_are_longest_stretches()
    ensures found { (o : Shape) → IsOutline o → (t : ℕ) (past e : List ℕ) → Contains (executions o t past) e
        → IsExecution o t (reverse past) (reverse e) }
    ensures all { (o : Shape) → IsOutline o → (t : ℕ) (past e : List ℕ) → IsExecution o t (reverse past) (reverse e)
        → Contains (executions o t past) e }
    ensures starts { (o : Shape) → IsOutline o → (t : ℕ) (past front : List ℕ) (h : ℕ) → IsTrace o past
        → IsStretch (λ n. Holds o t n) past (front ++ h ∷ [])
        → h ≡ header_of o.scopes t }
{}

/// The iterations found along such a trace are the parts of executions from one place at the header
/// to before the next, or to the execution's end.
pub fn iterations_are_parts_of_executions()
    ensures found { (o : Shape) → IsOutline o → (t : ℕ) (past p : List ℕ) → Contains (iterations o t past) p
        → IsIteration o t (reverse past) (reverse p) }
    ensures all { (o : Shape) → IsOutline o → (t : ℕ) (past p : List ℕ) → IsIteration o t (reverse past) (reverse p)
        → Contains (iterations o t past) p }
{}

/// The iteration number of a scope is the count of its header in the execution that is not over.
pub fn iteration_numbers_count_headers()
    ensures { (o : Shape) (t : ℕ) (past : List ℕ) → t < length o.scopes
        → slice_index (turns_of o past) t ≡ header_count o t (open_execution o t past) }
{}

/// A set of faults has what was put into it, and nothing else.
pub fn fault_sets_are_sets(a: FaultSet, b: FaultSet, kind: RunFault, other: RunFault)
    ensures empty { has_fault no_faults kind ≡ false }
    ensures new { has_fault (with_fault a kind) kind ≡ true }
    ensures kept { kind ≢ other → has_fault (with_fault a kind) other ≡ has_fault a other }
    ensures united { has_fault (either a b) kind ≡ (has_fault a kind || has_fault b kind) }
{
    // Read, so that each is known to be one of its type.
    let _ = (a, b, kind, other);
}
