// Places in a slice.
ghost use Rattle.std.specs.Prelude.{◌≡◌, ◌-◌, min};
ghost use Rattle.octets.specs.Appended.{past};

// The place k bytes behind `at`; behind the end of every slice stands the largest.
pub(crate) fn past(at: usize, k: usize) -> usize
    ensures { result ≡ past at k }
{
    at.saturating_add(k)
}

// How many of k bytes from `at` on stand within a slice.
pub(crate) fn within(len: usize, at: usize, k: usize) -> usize
    ensures { result ≡ min k (len - at) }
{
    k.min(len.saturating_sub(at))
}
