// A set of cores as a mask: bit c is core c. A core number past the mask is no member, and changes nothing.
// A plain u32, as document 01 names it ("u32 masks with set, clear and test of bit c") and as the C interface has it.
#![tactic(auto)]

ghost use Rattle.std.specs.Prelude.{◌≡◌};
ghost use Rattle.coreset.specs.Set.{has, within_width, without_core, count, lowest};

// How many cores a mask has room for.
pub const WIDTH: u8 = 32;

// The number that stands for no core, no thread and no gang: document 01's "255 for none", in the C interface too, so it is no Option.
pub const NONE: u8 = 255;

// Whether core c is in the set.
#[tactic(auto, unfolding(crate::specs::Set::has, crate::specs::Set::bit))]
pub fn test(m: u32, c: u8) -> bool
    ensures { result ≡ has m c }
{
    c < WIDTH && (m >> c) & 1 == 1
}

// The set with core c.
#[tactic(auto, unfolding(crate::specs::Set::within_width))]
pub fn set(m: u32, c: u8) -> u32
    ensures { result ≡ within_width 32 m c }
{
    if c < WIDTH { m | (1 << c) } else { m }
}

// The set without core c.
pub fn clear(m: u32, c: u8) -> u32
    ensures { result ≡ without_core m c }
{
    if c < WIDTH { m & !(1 << c) } else { m }
}

// How many cores are in the set.
#[tactic(auto, unfolding(crate::specs::Set::count))]
pub fn size(m: u32) -> u8
    ensures { result ≡ count m }
{
    m.count_ones() as u8
}

// The lowest core of the set, or NONE: a number, as document 01's question answers "the lowest owing core or 255".
#[tactic(auto, unfolding(crate::specs::Set::lowest))]
pub fn first(m: u32) -> u8
    ensures { result ≡ lowest 32 m }
{
    if m == 0 {
        NONE
    } else {
        m.trailing_zeros() as u8
    }
}
