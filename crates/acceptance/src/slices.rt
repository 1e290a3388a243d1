//! Lists that are cut into slices, for concurrent threads.
ghost use Rattle.std.specs.Prelude.{◌≤◌};

/// Returns the index at which a list of `count` elements is cut, so that `front` of its `slices` slices come before the
/// cut.
pub fn cut_at(count: usize, front: usize, slices: usize) -> usize
    requires { 1 ≤ slices }
    ensures { result ≤ count }
{
    (count / slices).saturating_mul(front).min(count)
}
