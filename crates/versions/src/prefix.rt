// The front of a text whose bytes pass a test.
ghost use Rattle.std.specs.Prelude.{◌≡◌, ℕ, ◌<◌, Bool, take, drop};
ghost use Rattle.rules.specs.Bytes.{run};

// The text cut where its bytes first fail the test: those from the front on that pass, and the rest.
#[inline]
pub fn split_while<F: Fn(u8) -> bool>(passes: F, text: &[u8]) -> (&[u8], &[u8])
    requires { F.IsAlwaysCallable passes }
    ensures { (p : ℕ → Bool) → ((b : ℕ) (r : Bool) → b < 256 → F.post passes b r → r ≡ p b)
        → (result.0.now ≡ take (run p text.now) text.now) × (result.1.now ≡ drop (run p text.now) text.now) }
{
    for (i, b) in text.iter().enumerate() {
        if !passes(*b) {
            return text.split_at(i);
        }
    }
    (text, &[])
}
