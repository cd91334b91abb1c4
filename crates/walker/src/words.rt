// Words of records: one that is read, one that is written, and some that go to where the records end. (`put` stands for w[i], so that a contract
// speaks of set.)
ghost use Rattle.std.specs.Prelude.{◌≡◌, ◌+◌, ◌≤◌, ◌<◌, length, get_or, set};
ghost use Rattle.search.specs.Kept.{Pushes};

// The word i.
pub fn at(w: &[u32], i: usize) -> u32
    requires { i < length w.now }
    ensures { result ≡ get_or w.now i 0 }
{
    w[i]
}

pub fn put(w: &mut [u32], i: usize, x: u32)
    requires { i < length w.old }
    ensures { w.new ≡ set w.old i x }
{
    w[i] = x;
}

// The words of a record go to where the records end.
pub fn push<const N: usize>(w: &mut [u32], top: usize, words: &[u32; N])
    requires { top + N ≤ length w.old }
    ensures { Pushes w.old w.new top words.now }
{
    // No `copy_from_slice`: its loop keeps a test of overlap, in a walk's every record.
    for i in 0..N {
        w[top + i] = words[i];
    }
}
