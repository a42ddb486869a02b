// What an interrupted wait leaves of the timeout.
ghost use Rattle.std.specs.Prelude.{◌≡◌};
ghost use Rattle.model.specs.Retries.{remaining_of};

// The timeout less the time since the dispatch began; none where no time is left.
pub fn remaining(timeout: u64, start: u64, clock: u64) -> Option<u64>
    ensures { result ≡ remaining_of timeout start clock }
{
    let elapsed = clock.saturating_sub(start);
    timeout.checked_sub(elapsed).filter(|left| *left > 0)
}
