// The least item that fails a test.
ghost use Rattle.std.specs.Prelude.{◌≡◌, ℕ, ◌+◌, ◌<◌, Some, None, true, false};

// The least of the items before n, by its number from 1.
pub fn first_failing<F: Fn(usize) -> bool>(n: usize, ok: F) -> Option<usize>
    requires { (j : ℕ) → j < n → F.pre ok j }
    ensures none { result ≡ None → (j : ℕ) → j < n → F.post ok j true }
    ensures some { (k : ℕ) → result ≡ Some k → (j : ℕ) × (k ≡ j + 1) × (j < n) × F.post ok j false × ((i : ℕ) → i < j → F.post ok i true) }
{
    for j in 0..n {
        if !ok(j) {
            return Some(j + 1);
        }
    }
    None
}
