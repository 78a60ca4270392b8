//! The rate at which a vCPU dirties memory.
#![tactic(auto)]

ghost use Rattle.std.specs.Prelude.{◌≡◌, ◌≤◌};
ghost use Rattle.dr_types.specs.Rates.{rate as rate_of};

#[cfg(test)]
mod tests;

/// The rate, in KiB a second, of a vCPU that dirtied so many pages of 4 KiB in so many
/// microseconds. A time of 0 counts as 1.
pub fn rate(entries: u64, us: u64) -> u64
    requires { entries ≤ 200000 }
    ensures value { result ≡ rate_of entries us }
    ensures fits { result ≤ 800000000000 }
{
    entries * 4 * 1_000_000 / us.max(1)
}
