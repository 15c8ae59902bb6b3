//! Places in a text, told by what stands before them.

ghost use Rattle.std.specs.Prelude.{◌≡◌, ◌≤◌, length, filter, reverse};
ghost use Rattle.std.specs.List.{prefix_len};
ghost use Rattle.flow_base.specs.Places.{in_line, is_line_feed, place_after, place_of};

use crate::place::Place;

/// The place in a text where so many of its bytes are left. Takes no memory, and goes over what
/// stands before the place.
pub fn place_of(text: &[u8], left: usize) -> Place
    ensures { result ≡ place_of text.now left }
{
    let before = text.len().saturating_sub(left);
    place_after(&text[..before])
}

// The place after these bytes.
fn place_after(prefix: &[u8]) -> Place
    ensures { result ≡ place_after prefix.now }
{
    Place {
        offset: prefix.len() as u64,
        line: line_feeds(prefix) as u64 + 1,
        column: last_line_len(prefix) as u64 + 1,
    }
}

fn line_feeds(prefix: &[u8]) -> usize
    ensures count { result ≡ length (filter is_line_feed prefix.now) }
    ensures within { result ≤ length prefix.now }
{
    prefix.iter().filter(|byte| **byte == b'\n').count()
}

// How many bytes stand after the last line feed.
fn last_line_len(prefix: &[u8]) -> usize
    ensures count { result ≡ prefix_len in_line (reverse prefix.now) }
    ensures within { result ≤ length prefix.now }
{
    prefix
        .iter()
        .rev()
        .take_while(|byte| **byte != b'\n')
        .count()
}
