// Sets in the bits of a word.
use words::WordSet;

#[test]
fn members_of_a_narrow_word(rt: HostRuntime) {
    let set = 0x8000_0005u32;
    assert!(rt; set.contains(0) && !set.contains(1) && set.contains(2) && set.contains(31));
    assert!(rt;
        !set.contains(32) && !set.contains(63) && !set.contains(64) && !set.contains(u32::MAX)
    );
    assert_eq!(rt; set.count(), 3);
    assert_eq!(rt; set.lowest_from(1), Some(2));
    assert_eq!(rt; set.lowest_from(3), Some(31));
    assert_eq!(rt; set.lowest_from(32), None);
    assert_eq!(rt; set.lowest_from(u32::MAX), None);
}

#[test]
fn members_of_a_wide_word(rt: HostRuntime) {
    let set = 0x8000_0000_0000_0002u64;
    assert!(rt; set.contains(1) && set.contains(63) && !set.contains(31) && !set.contains(0));
    assert!(rt; !set.contains(64) && !set.contains(u32::MAX));
    assert_eq!(rt; set.count(), 2);
    assert_eq!(rt; set.lowest_from(0), Some(1));
    assert_eq!(rt; set.lowest_from(2), Some(63));
    assert_eq!(rt; set.lowest_from(64), None);
}

#[test]
fn changes_of_a_set(rt: HostRuntime) {
    let none = <u32 as WordSet>::empty();
    assert!(rt; none.is_empty());
    assert_eq!(rt; none.with(31), 0x8000_0000);
    assert_eq!(rt; none.with(32), 0);
    assert_eq!(rt; none.with(u32::MAX), 0);
    assert_eq!(rt; 7u32.without(1), 5);
    assert_eq!(rt; 5u32.without(1), 5);
    assert_eq!(rt; 7u32.without(32), 7);
    assert_eq!(rt; 3u32.union(6), 7);
    assert_eq!(rt; 0u64.with(63).with(63), 0x8000_0000_0000_0000);
    assert_eq!(rt; 0u64.with(64), 0);
    assert_eq!(rt; u64::MAX.without(63), 0x7fff_ffff_ffff_ffff);
    assert_eq!(rt; u64::MAX.count(), 64);
    assert_eq!(rt; 0u64.lowest_from(0), None);
}
