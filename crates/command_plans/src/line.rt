//! Texts of one line.

ghost use Rattle.std.specs.Prelude.{◌≡◌};
ghost use Rattle.command_plans.specs.Lines.{is_line};

/// Whether the text is one line: a text without a line feed at its end is none, and one with a second is more.
pub fn is_line(text: &[u8]) -> bool
    ensures { result ≡ is_line text.now }
{
    match text.split_last() {
        Some((last, line)) => !line.contains(&b'\n') && *last == b'\n',
        None => false,
    }
}
