use sharing::derogation::Derogation;
use sharing::equal::Equal;
use sharing::nearest::Nearest;
use sharing::rule::SharingRule;
use sharing::running::Running;

#[test]
fn equal_parts(rt: HostRuntime) {
    let mut rule = Equal::new();
    assert_eq!(rt; rule.fill(65).is_ok(), false);
    assert_eq!(rt; rule.owners(), 1);
    assert_eq!(rt; rule.fill(3).is_ok(), true);
    let mut row = [7; 4];
    rule.give(100, &mut row);
    assert_eq!(rt; row, [33, 33, 34, 7]);
    rule.give(-100, &mut row[0..2]);
    assert_eq!(rt; row, [-34, -33, 34, 7]);
}

#[test]
fn derogations(rt: HostRuntime) {
    let mut two = Equal::new();
    assert_eq!(rt; two.fill(2).is_ok(), true);
    let one = Derogation::new(2_500, two);
    let mut row = [7; 5];
    one.give(101, &mut row);
    assert_eq!(rt; row, [25, 38, 38, 7, 7]);
    let piled = Derogation::new(1_000, one);
    piled.give(-101, &mut row);
    assert_eq!(rt; piled.owners(), 4);
    assert_eq!(rt; row, [-11, -23, -34, -33, 7]);
}

#[test]
fn weights(rt: HostRuntime) {
    let mut running = Running::new();
    assert_eq!(rt; running.fill(&[3, 3, 1]).is_ok(), true);
    assert_eq!(rt; running.fill(&[]).is_ok(), false);
    let mut nearest = Nearest::new();
    assert_eq!(rt; nearest.fill(&[3, 3, 1]).is_ok(), true);
    let mut row = [0; 3];
    running.give(100, &mut row);
    assert_eq!(rt; row, [42, 43, 15]);
    nearest.give(100, &mut row);
    assert_eq!(rt; row, [43, 43, 14]);
    nearest.give(-1, &mut row);
    assert_eq!(rt; row, [0, -1, 0]);
    nearest.give(1_000_000_000_001, &mut row);
    assert_eq!(rt; row, [0, 0, 0]);
}
