// Whether a message is in time: not past its expiry, and the expiry not too far ahead. The sums are true sums, which may pass 64 bits.
ghost use Rattle.std.specs.Prelude.{◌≡◌};
ghost use Rattle.message.specs.Checks.{not_expired, not_too_far};

// How many seconds past its expiry a message is still taken.
const GRACE: u64 = 30;

// How many seconds ahead an expiry may lie.
const HORIZON: u64 = 86_400;

/// Is the clock at most 30 seconds past the expiry? Without one it is.
pub fn not_expired(clock: u64, exp: Option<u64>) -> bool
    ensures { result ≡ not_expired clock exp }
{
    exp.is_none_or(|exp| clock.saturating_sub(exp) <= GRACE)
}

/// Is the expiry at most a day past the clock? Without one it is.
pub fn not_too_far(clock: u64, exp: Option<u64>) -> bool
    ensures { result ≡ not_too_far clock exp }
{
    exp.is_none_or(|exp| exp.saturating_sub(clock) <= HORIZON)
}
