// Sums over the numbers below a bound.
ghost use Rattle.std.specs.Prelude.{◌≡◌, ℕ, ◌+◌, ◌*◌, ◌≤◌, ◌<◌};
ghost use Rattle.prelude.specs.Sums.{sum};

// f(0) + f(1) + .. + f(n - 1), where each is at most `most`.
pub(crate) fn sum_below<F: Fn(u8) -> u32>(n: u8, most: u32, f: F) -> u32
    requires calls { (i : ℕ) → i < n → F.pre f i }
    requires few { (i : ℕ) (x : ℕ) → i < n → F.post f i x → x ≤ most }
    requires room { most ≤ 1000000 }
    ensures sum { (g : ℕ → ℕ) → ((i : ℕ) (x : ℕ) → i < n → F.post f i x → x ≡ g i) → result ≡ sum n g }
    ensures most { result ≤ n * most }
{
    let mut total: u32 = 0;
    for i in 0..n {
        total += f(i);
    }
    total
}
