ghost use Rattle.std.specs.Prelude.{◌≤◌};

use crate::next;
use dr_types::Throttle;
use std::test::Fail;

/// The sleep and the greatest rate after a rate is found, for a ring of 4,096 entries.
fn after(us: u64, peak: u64, quota: u64, current: u64) -> (u64, u64)
    requires us { us ≤ 10000000 }
    requires some_quota { 1 ≤ quota }
    requires quota { quota ≤ 1000000 }
    requires current { current ≤ 1000000 }
{
    let next = next(Throttle { us, peak }, quota, current, 4_096);
    (next.us, next.peak)
}

#[test]
fn rates_near_the_quota_change_nothing(rt: HostRuntime) -> Result<(), Fail> {
    assert_eq!(rt; after(500, 100_000, 100_000, 100_000), (500, 100_000));
    assert_eq!(rt; after(0, 0, 100_000, 125_600), (0, 0));
    Ok(())
}

#[test]
fn rates_above_the_quota_sleep_longer(rt: HostRuntime) -> Result<(), Fail> {
    assert_eq!(rt; after(0, 0, 100_000, 125_601), (13_044, 125_601));
    assert_eq!(rt; after(0, 0, 100_000, 200_000), (8_192, 200_000));
    assert_eq!(rt; after(0, 0, 98_000, 200_000), (85_263, 200_000));
    assert_eq!(rt; after(8_110_080, 200_000, 1, 200_000), (8_110_080, 200_000));
    Ok(())
}

#[test]
fn rates_below_the_quota_sleep_shorter(rt: HostRuntime) -> Result<(), Fail> {
    assert_eq!(rt; after(1_000, 200_000, 200_000, 98_000), (0, 200_000));
    assert_eq!(rt; after(700, 200_000, 100_000, 0), (0, 200_000));
    Ok(())
}
