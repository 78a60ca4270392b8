use crate::rate;
use std::test::Fail;

#[test]
fn rates_of_a_few_spans(rt: HostRuntime) -> Result<(), Fail> {
    assert_eq!(rt; rate(25, 0), 100_000_000);
    assert_eq!(rt; rate(100, 1_000_000), 400);
    assert_eq!(rt; rate(3, 7), 1_714_285);
    assert_eq!(rt; rate(0, 5), 0);
    Ok(())
}
