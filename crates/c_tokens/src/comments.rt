ghost use Rattle.std.specs.Prelude.{◌≡◌, ◌≤◌, length, IfSome};
ghost use Rattle.c_tokens.specs.Ends.{comment_end};

/// How many bytes there are up to the end of a comment, after its slash and star.
pub fn comment_end(bytes: &[u8]) -> Option<usize>
    ensures place { result ≡ comment_end bytes.now }
    ensures within { IfSome result (λ len. len ≤ length bytes.now) }
{
    let mut star = false;
    let mut len = 0;
    let mut rest = bytes;
    while let Some((byte, others)) = rest.split_first() {
        len += 1;
        if star && *byte == b'/' {
            return Some(len);
        }
        star = *byte == b'*';
        rest = others;
    }
    None
}
