// Sets of small numbers, of locals above all: bit l says whether l is in the set. A set is a bare word and no type of its own, since it stands in a
// word of the lent memory (the scope of what is due, a frame's tags), where it would be made and taken apart at each look.
ghost use Rattle.std.specs.Prelude.{◌≡◌, ◌<◌, ◌^◌};
ghost use Rattle.std.specs.Int.Bits.{bit_or};
ghost use Rattle.tables.specs.Layout.{max_locals};
ghost use Rattle.tables.specs.Locals.{in_set};

fn only(l: u32) -> u32
    requires { l < max_locals }
    ensures { result ≡ 2 ^ l }
{
    1u32 << l
}

#[tactic(auto, unfolding(crate::specs::Locals::in_set))]
pub fn has(m: u32, l: u32) -> bool
    requires { l < max_locals }
    ensures { result ≡ in_set m l }
{
    let p = only(l);
    m / p % 2 == 1
}

pub fn with(m: u32, l: u32) -> u32
    requires { l < max_locals }
    ensures { result ≡ bit_or m (2 ^ l) }
{
    m | only(l)
}
