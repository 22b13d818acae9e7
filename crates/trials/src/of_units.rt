use std::num::NonZeroU32;
use std::test::Fail;
use units::amount::Amount;
use units::floor::{floor, rest};
use units::refusal::Refusal;

// 0 where the grains are out of range.
fn made(cents: i64, grains: u32) -> Amount {
    Amount::of_row(cents, grains).unwrap_or(Amount::of_grains(0))
}

fn parts(a: Amount) -> (i64, u32) {
    (a.cents(), a.grains())
}

#[test]
fn minus_one_grain(rt: HostRuntime) {
    assert_eq!(rt; parts(Amount::of_grains(-1)), (-1, 9_999_999));
    assert_eq!(rt; parts(Amount::of_grains(10_000_001)), (1, 1));
    assert_eq!(rt; Amount::of_row(3, 10_000_000).is_some(), false);
}

#[test]
fn carries(rt: HostRuntime) {
    let sum = made(-5, 9_999_999).plus(made(2, 2));
    assert_eq!(rt; parts(sum.unwrap_or(made(0, 0))), (-2, 1));
    let most = made(i64::MAX, 9_999_999);
    assert_eq!(rt; most.plus(Amount::of_grains(1)).is_some(), false);
    assert_eq!(rt; most.plus(Amount::of_grains(-1)).is_some(), true);
}

#[test]
fn rounds_down(rt: HostRuntime) {
    let by = NonZeroU32::new(3).unwrap();
    assert_eq!(rt; (floor(7, by), rest(7, by)), (2, 1));
    assert_eq!(rt; (floor(-7, by), rest(-7, by)), (-3, 2));
    assert_eq!(rt; (floor(-6, by), rest(-6, by)), (-2, 0));
}

#[test]
fn refusals_print(rt: HostRuntime) -> Result<(), Fail> {
    let broken = format!(in rt.alloc(); "{}", Refusal::BrokenReference(1025))?;
    assert_eq!(rt; broken.as_str(), "refused 8 register 1025");
    let owners = format!(in rt.alloc(); "{}", Refusal::TooManyOwners)?;
    assert_eq!(rt; owners.as_str(), "refused 16 payout 65");
    Ok(())
}
