// Whether every place meets a rule.
ghost use Rattle.std.specs.Prelude.{ℕ, ◌<◌, Bool, ◌≡◌};
ghost use Rattle.ranges.specs.Range.{every};

// Whether each of the first n places meets the rule. Every place is tested, with no way out before the last: so the tests run side by side.
pub fn every_place<F: Fn(u8) -> bool>(n: u8, rule: F) -> bool
    requires { F.IsAlwaysCallable rule }
    ensures { (p : ℕ → Bool) → ((i : ℕ) (r : Bool) → i < n → F.post rule i r → r ≡ p i) → result ≡ every n p }
{
    let mut ok = true;
    for i in 0..n {
        ok = ok & rule(i);
    }
    ok
}
