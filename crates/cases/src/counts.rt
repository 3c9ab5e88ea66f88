// Tallies, and what they count.
use rules::FormulaRule;
use tallies::{PlateauCounter, RowFault, StretchCounter, Tally};

// The numbers around and above the bounds of hatchings and states.
const OUTSIDE: [u32; 4] = [32, 63, 64, u32::MAX];

#[test]
fn stretches(rt: HostRuntime) {
    let equal = StretchCounter {
        rule: FormulaRule::Equal,
    };
    let less = StretchCounter {
        rule: FormulaRule::Less,
    };
    assert_eq!(rt; equal.stretches(&[2, 2, 5, 5]), Ok(2));
    assert_eq!(rt; less.stretches(&[2, 2, 5, 5]), Ok(3));
    assert_eq!(rt; equal.stretches(&[5]), Ok(1));
    assert_eq!(rt; less.stretches(&[0; 60]), Ok(60));
    assert_eq!(rt; less.stretches(&[0; 70]), Ok(63));
    assert_eq!(rt; equal.stretches(&[]), Err(RowFault::Empty));
    assert_eq!(rt;
        equal.stretches(&[1, 31, 32, 33]),
        Err(RowFault::TooHigh(2))
    );
}

#[test]
fn longest_runs(rt: HostRuntime) {
    assert_eq!(rt; PlateauCounter.longest_run(&[3, 3, 1, 1, 1]), Ok(3));
    assert_eq!(rt; PlateauCounter.longest_run(&[1, 1, 1, 3, 3]), Ok(3));
    assert_eq!(rt; PlateauCounter.longest_run(&[4; 8]), Ok(8));
    assert_eq!(rt; PlateauCounter.longest_run(&[4; 9]), Ok(8));
    assert_eq!(rt; PlateauCounter.longest_run(&[5]), Ok(1));
    assert_eq!(rt; PlateauCounter.longest_run(&[7, 6, 7, 6]), Ok(1));
    assert_eq!(rt; PlateauCounter.longest_run(&[]), Err(RowFault::Empty));
    assert_eq!(rt;
        PlateauCounter.longest_run(&[u32::MAX]),
        Err(RowFault::TooHigh(0))
    );
}

#[test]
fn stretch_counter_outside(rt: HostRuntime) {
    let counter = StretchCounter {
        rule: FormulaRule::Equal,
    };
    assert_eq!(rt; counter.step(62, 0, 1), 63);
    assert_eq!(rt; counter.step(63, 0, 1), 63);
    assert_eq!(rt; counter.result(63), 63);
    for k in OUTSIDE {
        assert_eq!(rt; counter.start(k), 0);
        assert!(rt; counter.step(1, k, 0) == 0 && counter.step(1, 0, k) == 0);
        assert_eq!(rt; counter.step(k, 0, 0), if k < 64 { k } else { 0 });
        assert_eq!(rt; counter.result(k), if k < 64 { k } else { 0 });
    }
}

#[test]
fn plateau_counter_outside(rt: HostRuntime) {
    assert_eq!(rt; PlateauCounter.start(31), 0);
    assert_eq!(rt; PlateauCounter.step(0, 4, 4), 9);
    assert_eq!(rt; PlateauCounter.step(9, 4, 5), 1);
    assert_eq!(rt; PlateauCounter.step(63, 4, 4), 63);
    assert_eq!(rt; PlateauCounter.result(9), 2);
    for k in OUTSIDE {
        assert_eq!(rt; PlateauCounter.start(k), 0);
        assert!(rt; PlateauCounter.step(9, k, k) == 0 && PlateauCounter.step(9, 0, k) == 0);
        assert_eq!(rt;
            PlateauCounter.step(k, 4, 5),
            if k < 64 { k % 8 } else { 0 }
        );
        assert_eq!(rt;
            PlateauCounter.result(k),
            if k < 64 { k % 8 + 1 } else { 0 }
        );
    }
}
