// Counts that are kept in a u64.
ghost use Rattle.std.specs.Prelude.{◌≡◌, ◌≤◌};
ghost use Rattle.outside.specs.Counts.{raised};

// The count after `by` more. It stops at the greatest u64.
pub(crate) fn raise(count: u64, by: u64) -> u64
    ensures later { count ≤ result }
    ensures value { result ≡ raised count by }
{
    count.saturating_add(by)
}
