//! Visits counted in the executions of scopes.

ghost use Rattle.std.specs.Prelude.{◌≡◌, ◌-◌, ◌^◌, ◌<◌, length, slice_get, replicate, Option, Some, None, IfOk, OnOk};
ghost use Rattle.domain_core.specs.Outlines.{shape_of};
ghost use Rattle.recorder_rules.specs.Spans.{greatest};
ghost use Rattle.recorder_rules.specs.TallyRules.{Ledger, spans_gone, spreads_gone, spreads_ended};
ghost use Rattle.flow_recorders.specs.Chained.{KeysBelow};
ghost use Rattle.flow_recorders.specs.Ledgers.{IsLedger};

use crate::chains::{Chains, chained};
use crate::leaving::left_scopes;
use crate::span_list::SpanList;
use crate::walked::{collect_scopes, enter, reset_scopes};
use domain_core::Outline;
use std::alloc::{AllocError, Global};
use std::marker::Model;

/// What is counted, by scope and by node, and what was collected of it.
#[derive(Drop)]
pub struct Tallies {
    scopes: Chains,
    nodes: Chains,
    spreads: Vec<Option<(u32, u32)>>,
}

impl Model for Tallies {
    ghost use Rattle.recorder_rules.specs.TallyRules.{Ledger};

    ghost Value = { Ledger };

    ghost view = { λ book. record { tally = record { scopes = book.scopes; nodes = book.nodes }; spreads = book.spreads.items } };
}

impl Tallies {
    /// A book in which nothing is collected.
    pub fn new(
        alloc: Global,
        outline: &Outline,
        scopes: Vec<Option<u32>>,
        nodes: Vec<Option<u32>>,
    ) -> Result<Tallies, AllocError>
        requires scopes { KeysBelow scopes.items (length outline.now.scopes) }
        requires nodes { KeysBelow nodes.items (length outline.now.nodes) }
        requires few { length scopes.items < 2 ^ 32 }
        requires same_length { length nodes.items ≡ length scopes.items }
        ensures { IfOk result
            (λ book. book
            ≡ record {
              tally = record { scopes = scopes.items; nodes = nodes.items };
              spreads = replicate (length scopes.items) None;
            }) }
    {
        let spreads = vec![in alloc; None; scopes.len()]?;
        let scopes = chained(alloc, scopes, outline.scope_count() as usize)?;
        let nodes = chained(alloc, nodes, outline.node_count() as usize)?;
        Ok(Tallies {
            scopes,
            nodes,
            spreads,
        })
    }

    /// What was collected of a number.
    pub fn spread_of(&self, i: u32) -> Option<(u32, u32)>
        requires { i < length self.now.spreads }
        ensures { slice_get self.now.spreads i ≡ Some result }
    {
        self.spreads[i as usize]
    }

    /// Collects what ends with the step, lets it begin anew, and counts the node that is entered.
    pub fn go_on(
        &mut self,
        alloc: Global,
        outline: &Outline,
        spans: &mut SpanList,
        from: u32,
        to: u32,
    ) -> Result<(), AllocError>
        requires ledger { IsLedger self.old (length spans.old) }
        requires from { from < length outline.now.nodes }
        requires to { to < length outline.now.nodes }
        requires room { greatest spans.old < 2 ^ 32 - 1 }
        ensures spans { OnOk result (spans.new ≡ spans_gone (shape_of outline.now) self.old.tally spans.old from to) }
        ensures book { OnOk result
            (self.new
            ≡ record {
              tally = self.old.tally;
              spreads = spreads_gone (shape_of outline.now) self.old.tally spans.old self.old.spreads from to;
            }) }
    {
        let left = left_scopes(alloc, outline, from, to)?;
        collect_scopes(&self.scopes, &left, spans, &mut self.spreads);
        reset_scopes(alloc, &self.scopes, &left, spans)?;
        enter(alloc, &self.nodes, to, spans)?;
        Ok(())
    }

    /// Collects what is open at the end of a run.
    pub fn end(
        &mut self,
        alloc: Global,
        outline: &Outline,
        spans: &SpanList,
        last: u32,
    ) -> Result<(), AllocError>
        requires ledger { IsLedger self.old (length spans.now) }
        requires last { last < length outline.now.nodes }
        ensures { OnOk result
            (self.new
            ≡ record {
              tally = self.old.tally;
              spreads = spreads_ended (shape_of outline.now) self.old.tally spans.now self.old.spreads last;
            }) }
    {
        let around = outline.around(alloc, last)?;
        collect_scopes(&self.scopes, &around, spans, &mut self.spreads);
        Ok(())
    }
}
