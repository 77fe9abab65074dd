//! Versions of cells: how they rise.

ghost use Rattle.std.specs.Prelude.{◌≡◌, ℕ, ◌+◌, ◌<◌, ◌^◌, length, slice_index, All};
ghost use Rattle.ih_snapshot.specs.Noting.{times_listed};

/// Each version rises by how often its cell is listed.
pub(crate) fn raise(versions: &mut [u32], cells: &[u32])
    requires cells { All (λ n. n < length versions.old) cells.now }
    requires small { (n : ℕ) → slice_index versions.old n + length cells.now < 2 ^ 32 }
    ensures len { length versions.new ≡ length versions.old }
    ensures each { (n : ℕ) → slice_index versions.new n ≡ slice_index versions.old n + times_listed n cells.now }
{
    for &cell in cells {
        versions[cell as usize] += 1;
    }
}
