// The whole square root.
ghost use Rattle.std.specs.Prelude.{◌≡◌, ℕ, ◌^◌, ◌<◌};
ghost use Rattle.questions.specs.Roots.{IsRoot};

// The greatest number whose square is at most n: the one number that is such a root.
pub fn whole_root(n: u64) -> u64
    ensures root { IsRoot n result }
    ensures bound { result < 2 ^ 32 }
    ensures only { (s : ℕ) → IsRoot n s → s ≡ result }
{
    n.isqrt()
}
