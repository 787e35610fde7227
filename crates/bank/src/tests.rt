// What the banks do to areas that the caller sees again.
use crate::counters::Bank;
use crate::fault::BankFault;
use crate::{TallyBank, WordBank};

#[test]
fn a_word_is_written_and_seen_again(rt: HostRuntime) {
    let mut area = [0u8; 64];
    let mut bank = WordBank::open(&mut area);
    assert_eq!(rt; bank.area_fault(), None);
    assert_eq!(rt; bank.raise(3, 0x0102_0304), Ok(()));
    assert_eq!(rt; bank.raise(3, 0x0102_0304), Err(BankFault::NotHigher(3)));
    assert_eq!(rt; bank.raise(3, 4_000_000_001), Err(BankFault::AboveLimit(3)));
    assert_eq!(rt; bank.value(3), Ok(0x0102_0304));
    let seen: &[u8] = &area[11..17];
    assert!(rt; seen == [0, 1, 2, 3, 4, 0].as_slice());
}

#[test]
fn bits_are_cleared_and_seen_again(rt: HostRuntime) {
    let mut area = [0xffu8; 16];
    let mut bank = TallyBank::open(&mut area);
    assert_eq!(rt; bank.raise(1, 3), Ok(()));
    assert_eq!(rt; bank.raise(1, 9), Err(BankFault::AboveLimit(1)));
    assert_eq!(rt; bank.value(1), Ok(3));
    let seen = bank.into_area();
    assert!(rt; &seen[0..3] == [0xff, 0x1f, 0xff].as_slice());
}

#[test]
fn a_wrong_area_is_left_alone(rt: HostRuntime) {
    let mut area = [0xffu8; 65];
    let mut bank = WordBank::open(&mut area);
    assert_eq!(rt; bank.area_fault(), Some(BankFault::WrongArea));
    assert_eq!(rt; bank.raise(16, 0), Err(BankFault::NoCounter(16)));
    assert_eq!(rt; bank.raise(0, 0), Err(BankFault::NotHigher(0)));
    assert_eq!(rt; bank.raise(0, 1), Err(BankFault::AboveLimit(0)));
    assert_eq!(rt; bank.limit(), 0);
    assert!(rt; area[0] == 0xff);
}
