// The line of full ranges: the line written, and the first range that is not full.
ghost use Rattle.std.specs.Prelude.{◌≡◌, ◌++◌, drop};
ghost use Rattle.listing.specs.Put.{Room, Writes};
ghost use Rattle.mover.specs.Model.{full_range, mark_after, full_ranges, full_line, narrow_place};
ghost use Rattle.mover.specs.Steps.{placed};

use listing::Writer;

// The bytes of a full range with the mark after it, and of the line's key.
const RANGE: usize = 23;

pub(crate) const KEY: usize = 7;

// A full range that so many come after, with its mark.
fn full(after: u32) -> &'static [u8]
    ensures { result.now ≡ full_range ++ mark_after after }
{
    if after == 0 {
        b"-2147483648:2147483647\n"
    } else {
        b"-2147483648:2147483647,"
    }
}

fn full_ranges(out: &mut Writer, n: u32)
    requires { Room out.old.at (full_ranges n) }
    ensures { Writes out.old out.new (full_ranges n) }
{
    for after in (0..n).rev() {
        out.text(full(after));
    }
}

// The line of n full ranges.
pub(crate) fn full_line(out: &mut Writer, n: u32)
    requires { Room out.old.at (full_line n) }
    ensures { Writes out.old out.new (full_line n) }
{
    out.text(b"ranges=");
    if n == 0 {
        out.text(b"\n");
        return;
    }
    full_ranges(out, n);
}

// The place of the first of n ranges that is not full, where the first begins at a place.
pub(crate) fn narrow(s: &[u8], at: usize, n: u32) -> Option<usize>
    ensures { placed result ≡ narrow_place at n (drop at s.now) }
{
    let mut p = at;
    for after in (0..n).rev() {
        if !text::begins(s, p, full(after)) {
            return Some(p);
        }
        p += RANGE;
    }
    None
}
