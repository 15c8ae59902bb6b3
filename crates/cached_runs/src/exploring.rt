//! The exploration.

ghost use Rattle.std.specs.Prelude.{◌≡◌, ◌<◌, ◌-◌, ◌^◌, ◌++◌, ◌∷◌, not, ◌&&◌, if◌then◌else◌, [], length};
ghost use Rattle.std.specs.Prelude.{slice_index_or, false, IfOk, OnOk};
ghost use Rattle.domain_core.specs.Outlines.{shape_of};
ghost use Rattle.domain_core.specs.Machines.{IsAlong};
ghost use Rattle.abstract_exec.specs.Explorations.{IsPool};
ghost use Rattle.line_cache.specs.Lines.{IsNoted};
ghost use Rattle.line_cache.specs.MissRules.{may_miss, miss_recording};
ghost use Rattle.cached_runs.specs.Answers.{lines_of, answer_of, IfTold};
ghost use Rattle.cached_runs.specs.CachedRuns.{has_line, hits_below, told_lines, AreSoundLines, IsFound};

use crate::{Cached, CachedLines};
use abstract_exec::{Explored, Pool};
use domain_core::{Outline, Stepper};
use line_cache::Misses;
use std::alloc::{AllocError, Global};
use worklist_rules::Policy;

// The node has a line.
fn has_some_line(outline: &Outline, node: u32) -> bool
    requires noted { IsNoted outline.now }
    requires node { node < length outline.now.nodes }
    ensures { result ≡ has_line outline.now node }
{
    outline.kept();
    let notes = outline.notes();
    let at = 3 + 2 * node as usize;
    notes[at] < notes[at + 1]
}

// Each access at the node hits, and the node was stepped and has a line.
fn always_hits<S: Stepper>(outline: &Outline, pool: &Pool<S, Misses>, node: u32) -> bool
    requires kept { IsPool S.machine miss_recording pool.now }
    requires outline { pool.now.outline ≡ outline.now }
    requires noted { IsNoted outline.now }
    requires node { node < length outline.now.nodes }
    ensures { result
        ≡ (slice_index_or pool.now.stepped node false &&
        (has_line outline.now node && not (may_miss pool.now.book node))) }
{
    pool.stepped(node) && has_some_line(outline, node) && !pool.book().missed(node)
}

// Tells the node, if each access there hits.
fn tell_node(hits: &mut Vec<u32>, always: bool, node: u32) -> Result<(), AllocError>
    ensures { OnOk result (hits.new.items ≡ hits.old.items ++ (if always then node ∷ [] else [])) }
{
    if always {
        hits.push(node)?;
    }
    Ok(())
}

// The nodes at which each access hits.
fn hits<S: Stepper>(
    alloc: Global,
    outline: &Outline,
    pool: &Pool<S, Misses>,
) -> Result<Vec<u32>, AllocError>
    requires kept { IsPool S.machine miss_recording pool.now }
    requires outline { pool.now.outline ≡ outline.now }
    requires noted { IsNoted outline.now }
    ensures { IfOk result
        (λ hits. hits.items ≡ hits_below outline.now pool.now.book pool.now.stepped (length outline.now.nodes)) }
{
    let mut hits = Vec::new(alloc);
    for node in 0..outline.node_count() {
        let always = always_hits(outline, pool, node);
        tell_node(&mut hits, always, node)?;
    }
    Ok(hits)
}

/// What is told of a pool that has no place left.
fn told<S: Stepper>(
    alloc: Global,
    outline: &Outline,
    pool: &Pool<S, Misses>,
) -> Result<CachedLines, AllocError>
    requires kept { IsPool S.machine miss_recording pool.now }
    requires outline { pool.now.outline ≡ outline.now }
    requires noted { IsNoted outline.now }
    ensures told { IfOk result (λ lines. lines_of lines ≡ told_lines pool.now) }
    ensures sound { pool.now.spots ≡ []
        → IfOk result (λ lines. AreSoundLines (S.machine pool.now.stepper).system outline.now (lines_of lines)) }
{
    Ok(CachedLines {
        hits: hits(alloc, outline, pool)?,
        bound: pool.book().worst(),
    })
}

/// Explores along the outline, and tells of the cache of its notes at which nodes each access hits,
/// and what a run costs with its misses at most; or the scope in which the turns were used up.
pub fn cached<S: Stepper>(
    alloc: Global,
    stepper: &S,
    outline: &Outline,
    policy: Policy,
    turns: u32,
) -> Result<Cached, AllocError>
    requires noted { IsNoted outline.now }
    requires along { IsAlong S.State S.Concrete (shape_of outline.now) (S.machine stepper.now) }
    requires turns { turns < 2 ^ 32 - 1 }

    // What the policy finds over the pools of the stepper's machine.
    ensures found { IfOk result
        (λ cached. IsFound S.machine S.State.order stepper.now outline.now policy turns (answer_of cached)) }

    // Whatever the cache has at first, each run of the stepper's system ends, costs with its misses no more than the
    // bound, and hits at each node that is told.
    ensures sound { IfOk result
        (λ cached. IfTold (answer_of cached) (AreSoundLines (S.machine stepper.now).system outline.now)) }
{
    let mut pool: Pool<S, Misses> = Pool::start(alloc, stepper, outline)?;
    match pool.explore(alloc, policy, turns)? {
        Explored::Closed(_) => Ok(Cached::Told(told(alloc, outline, &pool)?)),
        Explored::Left(scope) => Ok(Cached::Unbounded(scope)),
    }
}
