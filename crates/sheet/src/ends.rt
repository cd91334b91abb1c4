// The end of each token's subtree: one pass over the table, from the last token to the first.
ghost use Rattle.std.specs.Prelude.{◌≡◌, ◌≤◌, ◌<◌, length};
ghost use Rattle.tables.specs.Layout.{max_tokens, path_at};
ghost use Rattle.sheet.specs.Tables.{laid_ends};
ghost use Rattle.sheet.specs.Ends.{tokens_in, end_in, EndsAfter, end_from};

use crate::sorts;

// The end of token e's subtree from the table of n tokens, n behind the last.
fn end(w: &[u32], n: u32, e: u32) -> u32
    requires { (n ≤ max_tokens) × (path_at ≤ length w.now) }
    ensures { result ≡ end_from w.now n e }
{
    if n <= e {
        return n;
    }
    tables::end(w, e)
}

// The end of token i's subtree, where those of the tokens after it are in the table: past each operand.
fn subtree(w: &[u32], n: u32, i: u32) -> u32
    requires { (i < n) × (n ≤ max_tokens) × (path_at ≤ length w.now) × EndsAfter w.now n i }
    ensures { result ≡ end_in (tokens_in w.now 0 n) i }
{
    let mut e = i + 1;
    for _ in 0..sorts::arity(tables::code(w, i)) {
        e = end(w, n, e);
    }
    e
}

// The ends of the subtrees of n tokens, into the table.
pub(crate) fn ends(w: &mut [u32], n: u32)
    requires { (n ≤ max_tokens) × (path_at ≤ length w.old) }
    ensures { w.new ≡ laid_ends 0 (tokens_in w.old 0 n) w.old }
{
    for i in (0..n).rev() {
        let e = subtree(w, n, i);
        tables::set_end(w, i, e);
    }
}
