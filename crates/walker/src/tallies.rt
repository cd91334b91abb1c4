// The tallies: one record that every leaf updates.
ghost use Rattle.std.specs.Prelude.{◌≡◌, ◌+◌, ◌<◌};
ghost use Rattle.search.specs.Registers.{max_word, counted, visited_tallies};

use search::Tally;
use specification::Tallies;

// The tallies are lent, and one of them is one more.
fn add(t: &mut Tallies, tally: Tally)
    requires { (t.old.answers < max_word) × (t.old.errors < max_word) × (t.old.fails < max_word) }
    ensures { t.new ≡ counted t.old tally }
{
    match tally {
        Tally::Answer => {
            t.answers += 1;
        }
        Tally::Error => {
            t.errors += 1;
        }
        Tally::Failure => {
            t.fails += 1;
        }
    }
}

// The tallies with one leaf more, as a caller has them that holds them by value.
pub fn counted(t: Tallies, tally: Tally) -> Tallies
    requires { (t.answers < max_word) × (t.errors < max_word) × (t.fails < max_word) }
    ensures { result ≡ counted t tally }
{
    let mut u = t;
    add(&mut u, tally);
    u
}

// With so many visits more.
pub fn visited(t: Tallies, visits: u32) -> Tallies
    requires { t.nodes + visits < 4294967296 }
    ensures { result ≡ visited_tallies t visits }
{
    Tallies {
        nodes: t.nodes + visits,
        ..t
    }
}
