use crate::told::told;
use register::entry::Region;
use register::roll::Roll;

#[test]
fn memory_for_two(rt: HostRuntime) {
    let mut memory = [Region { code: 5 }; 2];
    let mut roll = Roll::new(&mut memory);
    assert_eq!(rt; roll.len(), 0);
    assert_eq!(rt; told(roll.enter(Region { code: 7 })), Ok(0));
    assert_eq!(rt; told(roll.enter(Region { code: 0 })), Err((11, 0)));
    assert_eq!(rt; told(roll.enter(Region { code: 8 })), Ok(1));
    assert_eq!(rt; told(roll.enter(Region { code: 9 })), Err((10, 2)));
    assert_eq!(rt; told(roll.enter(Region { code: 0 })), Err((11, 0)));
    let mut copy = [Region { code: 1 }; 3];
    assert_eq!(rt; roll.copy_to(&mut copy), 2);
    assert_eq!(rt; copy[0].code + copy[2].code, 8);
    assert_eq!(rt; roll.get(1).is_some(), true);
    assert_eq!(rt; roll.get(2).is_some(), false);
}
