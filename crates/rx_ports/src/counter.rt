//! Counts that stand still at the last number of their type.
ghost use Rattle.std.specs.Prelude.{◌≡◌};
ghost use Rattle.rx_ports.specs.Counts.{count_raised};

/// One more, or the same at the last number.
pub fn raise(count: u64) -> u64
    ensures { result ≡ count_raised count }
{
    count.saturating_add(1)
}
