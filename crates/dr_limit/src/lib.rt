//! How long a vCPU that dirties memory faster than its quota is held up.
#![tactic(auto)]

ghost use Rattle.std.specs.Prelude.{◌≡◌, ◌≤◌};
ghost use Rattle.dr_types.specs.Rates.{next_throttle};

use dr_types::Throttle;

#[cfg(test)]
mod tests;

/// The throttle of a vCPU after an answer that found this rate: `quota` and `current` in KiB a
/// second, `ring` the size of its ring in entries.
#[tactic(auto, using(crate::proofs::Products::sleep_fits))]
pub fn next(throttle: Throttle, quota: u64, current: u64, ring: u32) -> Throttle
    requires us { throttle.us ≤ 25952256000000 }
    requires some_quota { 1 ≤ quota }
    requires quota { quota ≤ 1000000000 }
    requires current { current ≤ 800000000000 }
    requires ring { ring ≤ 65536 }
    ensures value { result ≡ next_throttle throttle quota current ring }
    ensures fits { result.us ≤ 25952256000000 }
{
    // The numbers are QEMU's: it tolerates 25 MiB a second of distance, leaps where that is more
    // than half, and never lets a vCPU sleep for more than 99 parts in 100.
    let high = quota.max(current);
    let low = quota.min(current);
    if high - low <= 25_600 {
        return throttle;
    }
    if current == 0 {
        return Throttle {
            us: 0,
            peak: throttle.peak,
        };
    }
    let peak = throttle.peak.max(current);
    let time = u64::from(ring) * 4_000_000 / peak;
    let percent = (high - low) * 100 / high;
    let step = if percent > 50 {
        time * percent / (100 - percent)
    } else {
        time / 10
    };
    let us = if quota < current {
        throttle.us + step
    } else {
        throttle.us.saturating_sub(step)
    };
    Throttle {
        us: us.min(99 * time),
        peak,
    }
}
