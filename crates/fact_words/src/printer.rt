//! The text of a report.

ghost use Rattle.std.specs.Prelude.{◌≡◌, ◌∷◌, [], map, OnOk, IfOk};
ghost use Rattle.std.specs.List.{flat_map};
ghost use Rattle.std.specs.Option.{option_map};
ghost use Rattle.flow_facts.specs.Reports.{node_of, certificate_of, reported};
ghost use Rattle.fact_words.specs.Printing.{all_put};
ghost use Rattle.fact_words.specs.Canonical.{nodes_marks, scopes_marks, fact_marks, event_marks, multiplier_marks};
ghost use Rattle.fact_words.specs.Canonical.{if_any, path_bound_marks, cert_marks, ending_marks, lists_marks};
ghost use Rattle.fact_words.specs.Canonical.{tail_marks, report_text};

use crate::lines::{
    put_count_bound, put_event, put_fact, put_multiplier, put_node, put_path_bound, put_scale,
    put_scope,
};
use crate::spaced_words::{put_line, put_number};
use domain_core::{Event, ScopeRow};
use flow_facts::{BoundWord, Cert, Fact, NodeLine, Report};
use std::alloc::{AllocError, Global};

fn put_nodes(out: &mut Vec<u8>, nodes: &[NodeLine]) -> Result<(), AllocError>
    ensures { OnOk result (out.new.items ≡ all_put out.old.items (nodes_marks 0 (map node_of nodes.now))) }
{
    let mut rest = nodes;
    let mut number: u64 = 0;
    while let Some((node, others)) = rest.split_first() {
        put_node(out, number, node)?;
        number += 1;
        rest = others;
    }
    Ok(())
}

fn put_scopes(out: &mut Vec<u8>, scopes: &[ScopeRow]) -> Result<(), AllocError>
    ensures { OnOk result (out.new.items ≡ all_put out.old.items (scopes_marks 0 scopes.now)) }
{
    let mut rest = scopes;
    let mut number: u64 = 0;
    while let Some((scope, others)) = rest.split_first() {
        put_scope(out, number, scope)?;
        number += 1;
        rest = others;
    }
    Ok(())
}

fn put_facts(out: &mut Vec<u8>, facts: &[Fact]) -> Result<(), AllocError>
    ensures { OnOk result (out.new.items ≡ all_put out.old.items (flat_map fact_marks facts.now)) }
{
    for fact in facts {
        put_fact(out, fact)?;
    }
    Ok(())
}

fn put_events(out: &mut Vec<u8>, events: &[Event]) -> Result<(), AllocError>
    ensures { OnOk result (out.new.items ≡ all_put out.old.items (flat_map event_marks events.now)) }
{
    for event in events {
        put_event(out, event)?;
    }
    Ok(())
}

fn put_multipliers(out: &mut Vec<u8>, multipliers: &[i128]) -> Result<(), AllocError>
    ensures { OnOk result (out.new.items ≡ all_put out.old.items (flat_map multiplier_marks multipliers.now)) }
{
    for multiplier in multipliers {
        put_multiplier(out, *multiplier)?;
    }
    Ok(())
}

fn put_path(out: &mut Vec<u8>, path: &Option<(u64, BoundWord)>) -> Result<(), AllocError>
    ensures { OnOk result (out.new.items ≡ all_put out.old.items (if_any path_bound_marks path.now)) }
{
    match path {
        Some((bound, word)) => put_path_bound(out, *bound, *word),
        None => Ok(()),
    }
}

fn put_certificate(out: &mut Vec<u8>, cert: &Cert) -> Result<(), AllocError>
    ensures { OnOk result (out.new.items ≡ all_put out.old.items (cert_marks (certificate_of cert.now))) }
{
    put_line(out, b"cert")?;
    put_events(out, &cert.events)?;
    put_scale(out, cert.scale)?;
    put_multipliers(out, &cert.multipliers)
}

fn put_cert(out: &mut Vec<u8>, cert: &Option<Cert>) -> Result<(), AllocError>
    ensures { OnOk result
        (out.new.items ≡ all_put out.old.items (if_any cert_marks (option_map certificate_of cert.now))) }
{
    match cert {
        Some(cert) => put_certificate(out, cert),
        None => Ok(()),
    }
}

fn put_end(out: &mut Vec<u8>) -> Result<(), AllocError>
    ensures { OnOk result (out.new.items ≡ all_put out.old.items ending_marks) }
{
    put_line(out, b"end")?;
    put_line(out, b"")
}

fn put_lists(out: &mut Vec<u8>, report: &Report) -> Result<(), AllocError>
    ensures { OnOk result (out.new.items ≡ all_put out.old.items (lists_marks (reported report.now))) }
{
    put_nodes(out, &report.nodes)?;
    put_scopes(out, &report.scopes)?;
    put_facts(out, &report.facts)
}

fn put_tail(out: &mut Vec<u8>, report: &Report) -> Result<(), AllocError>
    ensures { OnOk result (out.new.items ≡ all_put out.old.items (tail_marks (reported report.now))) }
{
    put_count_bound(out, report.count_bound)?;
    put_path(out, &report.path_bound)?;
    put_cert(out, &report.cert)?;
    put_end(out)
}

/// The text of a report.
///
/// Each line ends with a line feed, its words have one space between them, and a number has no zeros
/// before its digits. Takes memory for the text, and time in proportion to it.
pub fn print(alloc: Global, report: &Report) -> Result<Vec<u8>, AllocError>
    ensures { IfOk result (λ text. text.items ≡ report_text (reported report.now)) }
{
    let mut out = Vec::new(alloc);
    out.extend_from_slice(b"facts")?;
    put_number(&mut out, u64::from(report.form))?;
    put_lists(&mut out, report)?;
    put_tail(&mut out, report)?;
    Ok(out)
}
