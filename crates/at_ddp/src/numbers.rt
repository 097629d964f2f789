//! Numbers that are drawn in turn, go round, and pass over those in use.
ghost use Rattle.std.specs.Prelude.{◌≡◌, Bool};
ghost use Rattle.at_ddp.specs.Numbers.{first_free};

/// The first number from `first` on that is not in use, if it takes at most `tries` tries. `following` is the number
/// after each.
pub fn first_free<N: Copy, Next: Fn(N) -> N, Used: Fn(N) -> bool>(
    first: N,
    tries: usize,
    following: Next,
    in_use: Used,
) -> Option<N>
    requires next { Next.IsAlwaysCallable following }
    requires used { Used.IsAlwaysCallable in_use }
    ensures { (next : N → N) (used : N → Bool) → ((n after : N) → Next.post following n after → after ≡ next n)
        → ((n : N) (is : Bool) → Used.post in_use n is → is ≡ used n) → result ≡ first_free next used tries first }
{
    let mut number = first;
    for _try in 0..tries {
        if !in_use(number) {
            return Some(number);
        }
        number = following(number);
    }
    None
}
