// What a list has at a place, and a list with another value there. Past the last place there is what an unused place has, and a store
// changes nothing: so that no reader and no writer needs a bound.
#![tactic(auto)]

ghost use Rattle.std.specs.Prelude.{◌≡◌, get_or, set};

mod every;

pub use every::every_place;

// What a list may hold: bytes, and larger numbers.
pub trait Number: Copy {
    ghost unused: { Self };

    // What an unused place holds.
    fn unused() -> Self
        ensures { result ≡ unused };
}

impl Number for u8 {
    ghost unused = { 0 };

    fn unused() -> u8 {
        0u8
    }
}

impl Number for u32 {
    ghost unused = { 0 };

    fn unused() -> u32 {
        0u32
    }
}

// What stands at place i, and `past` past the last place.
pub fn at_or<T: Copy>(xs: &[T], i: u8, past: T) -> T
    ensures { result ≡ get_or xs.now i past }
{
    let i = i as usize;
    if i < xs.len() { xs[i] } else { past }
}

// What stands at place i.
pub fn at<T: Number>(xs: &[T], i: u8) -> T
    ensures { result ≡ get_or xs.now i T.unused }
{
    at_or(xs, i, T::unused())
}

// Place i becomes v.
pub fn put<T: Copy>(xs: &mut [T], i: u8, v: T)
    ensures { xs.new ≡ set xs.old i v }
{
    let i = i as usize;
    if i < xs.len() {
        xs[i] = v;
    }
}
