//! How great the numbers of certificates are.

ghost use Rattle.std.specs.Prelude.{◌≤ℤ◌, pos, All};
ghost use Rattle.flow_facts.specs.Writable.{EventIsWritable, IsLong, IsScale};

use domain_core::Event;

/// The numbers of an event fit 32 bits.
fn event_fits(event: Event)
    ensures { EventIsWritable event }
{
    match event {
        Event::Step(_) => {}
        Event::Merge(..) => {}
    }
}

/// The numbers of events fit 32 bits.
pub fn events_fit(events: &[Event])
    ensures { All EventIsWritable events.now }
{
    for event in events {
        event_fits(*event);
    }
}

/// A scale fits 128 bits.
pub fn scale_fits(scale: i128)
    requires { pos 1 ≤ℤ scale }
    ensures { IsScale scale }
{
    let _ = scale;
}

/// A multiplier fits 128 bits with its sign.
fn multiplier_fits(multiplier: i128)
    ensures { IsLong multiplier }
{
    let _ = multiplier;
}

/// Multipliers fit 128 bits with their signs.
pub fn multipliers_fit(multipliers: &[i128])
    ensures { All IsLong multipliers.now }
{
    for multiplier in multipliers {
        multiplier_fits(*multiplier);
    }
}
