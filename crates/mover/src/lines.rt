// Lines counted by their line feeds.
ghost use Rattle.std.specs.Prelude.{◌≡◌, ◌≤◌, ◌+◌, eqb, length, drop, position};
ghost use Rattle.mover.specs.Model.{line_length, lines_length};

// The first line feed.
fn line_feed(s: &[u8]) -> Option<usize>
    ensures { result ≡ position (λ b. eqb b 10) s.now }
{
    s.iter().position(|b| *b == b'\n')
}

// The place after the line that begins at a place.
fn line_end(s: &[u8], from: usize) -> usize
    requires { from ≤ length s.now }
    ensures { result ≡ from + line_length (drop from s.now) }
{
    match line_feed(&s[from..]) {
        Some(n) => from + n + 1,
        None => s.len(),
    }
}

// The place after the first n lines.
pub(crate) fn lines_end(s: &[u8], n: usize) -> usize
    ensures { result ≡ lines_length n s.now }
{
    let mut p = 0;
    for _line in 0..n {
        p = line_end(s, p);
    }
    p
}
