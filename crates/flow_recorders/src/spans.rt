//! Spans of counts: the least and the greatest.

ghost use Rattle.std.specs.Prelude.{◌≡◌, ◌<◌, length, Option};
ghost use Rattle.recorder_rules.specs.Spans.{span_of, collected};
ghost use Rattle.recorder_rules.specs.TotalRules.{all_collected};

use crate::span_list::SpanList;

/// The least span around both.
pub fn span(a: (u32, u32), b: (u32, u32)) -> (u32, u32)
    ensures { result ≡ span_of a b }
{
    (a.0.min(b.0), a.1.max(b.1))
}

/// What a book has of a number once a span of it is collected.
pub fn with_span(spread: Option<(u32, u32)>, counted: (u32, u32)) -> Option<(u32, u32)>
    ensures { result ≡ collected spread counted }
{
    match spread {
        None => Some(counted),
        Some(spread) => Some(span(spread, counted)),
    }
}

/// Collects each span in its place.
pub fn collect_all(spreads: &mut [Option<(u32, u32)>], spans: &SpanList)
    requires { length spreads.old ≡ length spans.now }
    ensures { spreads.new ≡ all_collected spreads.old spans.now }
{
    for i in 0..spans.len() {
        spreads[i] = with_span(spreads[i], spans.at(i));
    }
}
