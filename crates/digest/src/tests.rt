// What the calls refuse, and the working area afterwards.
use crate::fault::DigestFault;
use crate::{digest, tag};

#[test]
fn a_long_message_is_refused_before_a_long_key(rt: HostRuntime) {
    let long = [7; 65_537];
    let mut area = [9; 65];
    assert_eq!(rt; digest(&long).err(), Some(DigestFault::MessageTooLong));
    assert_eq!(rt;
        tag(&long, &long, &mut area).err(),
        Some(DigestFault::MessageTooLong)
    );
    assert!(rt; area[0] == 0 && area[63] == 0 && area[64] == 9);
}

#[test]
fn a_long_key_is_refused_before_a_short_area(rt: HostRuntime) {
    let long = [7; 65_537];
    let mut area = [9; 63];
    let refused = tag(&long, b"text", &mut area).err();
    assert_eq!(rt; refused, Some(DigestFault::KeyTooLong));
    assert!(rt; area[0] == 9 && area[62] == 9);
}

#[test]
fn a_short_area_is_refused_and_left_alone(rt: HostRuntime) {
    let mut area = [9; 63];
    let refused = tag(b"key", b"text", &mut area).err();
    assert_eq!(rt; refused, Some(DigestFault::ShortWorkingArea));
    assert!(rt; area[0] == 9 && area[62] == 9);
}
