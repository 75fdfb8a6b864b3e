ghost use Rattle.std.specs.Prelude.{MatchOption};
ghost use Rattle.run_log.specs.Lines.{HasNoLine, IsParted};

/// The first line of some bytes without its line feed, and what follows it.
pub fn first_line(bytes: &[u8]) -> Option<(&[u8], &[u8])>
    ensures { MatchOption result (HasNoLine bytes.now)
        (λ parts. IsParted bytes.now parts.0.now parts.1.now) }
{
    for (i, b) in bytes.iter().enumerate() {
        if *b == b'\n' {
            return Some((&bytes[..i], &bytes[i + 1..]));
        }
    }
    None
}
