// Neighbour rules.
use rules::{FormulaRule, Mirror, NeighbourRule, TableRule};
use std::test::Fail;

// Each formula, with the largest r where it carries one.
const LARGEST: [FormulaRule; 7] = [
    FormulaRule::Always,
    FormulaRule::Equal,
    FormulaRule::Different,
    FormulaRule::Less,
    FormulaRule::AtMost,
    FormulaRule::Within(u32::MAX),
    FormulaRule::BothAtLeast(u32::MAX),
];

#[test]
fn formulas_at_five_and_two(rt: HostRuntime) {
    // for each formula what it says of (5, 2) and of (2, 5)
    let wanted: [(bool, bool); 7] = [
        (true, true),
        (false, false),
        (true, true),
        (false, true),
        (false, true),
        (true, true),
        (false, false),
    ];
    for (rule, (first, turned)) in LARGEST.iter().zip(&wanted) {
        assert_eq!(rt; rule.allows(5, 2), *first);
        assert_eq!(rt; rule.allows(2, 5), *turned);
    }
}

#[test]
fn no_formula_holds_above_31(rt: HostRuntime) {
    let above = [32, 63, 64, u32::MAX];
    for rule in LARGEST {
        for a in above {
            assert!(rt; !rule.allows(a, 0) && !rule.allows(0, a) && !rule.allows(a, a));
        }
    }
    assert!(rt; FormulaRule::BothAtLeast(0).allows(31, 31));
}

#[test]
fn within_and_both_at_least(rt: HostRuntime) {
    let within = FormulaRule::Within(3);
    assert!(rt;
        within.allows(4, 7) && within.allows(7, 4) && !within.allows(4, 8) && !within.allows(8, 4)
    );
    assert!(rt; FormulaRule::Within(0).allows(9, 9) && !FormulaRule::Within(0).allows(9, 10));
    let both = FormulaRule::BothAtLeast(3);
    assert!(rt; both.allows(3, 31) && !both.allows(2, 31) && !both.allows(31, 2));
}

#[test]
fn codes(rt: HostRuntime) -> Result<(), Fail> {
    for code in 0..7u32 {
        let rule = FormulaRule::from_code(code, 4).ok_or("no formula")?;
        assert_eq!(rt; rule.number(), code);
    }
    assert_eq!(rt; FormulaRule::from_code(5, 4), Some(FormulaRule::Within(4)));
    assert_eq!(rt;
        FormulaRule::from_code(6, 4),
        Some(FormulaRule::BothAtLeast(4))
    );
    assert_eq!(rt; FormulaRule::from_code(7, 0), None);
    assert_eq!(rt; FormulaRule::from_code(u32::MAX, 0), None);
    Ok(())
}

#[test]
fn tables_and_mirrors(rt: HostRuntime) {
    let mut words = [0u32; 32];
    words[5] = 0x8000_0004;
    let table = TableRule { words };
    assert!(rt;
        table.allows(5, 2) && table.allows(5, 31) && !table.allows(2, 5) && !table.allows(5, 32)
    );
    assert!(rt; !table.allows(32, 2) && !table.allows(63, 64) && !table.allows(u32::MAX, u32::MAX));
    let mirror = Mirror { rule: table };
    assert!(rt;
        mirror.allows(2, 5) && mirror.allows(31, 5) && !mirror.allows(5, 2) && !mirror.allows(2, 32)
    );
    let less = Mirror {
        rule: FormulaRule::Less,
    };
    assert!(rt; less.allows(5, 2) && !less.allows(2, 5));
    let twice = Mirror { rule: less };
    assert!(rt; twice.allows(2, 5) && !twice.allows(5, 2) && twice.allows_as_innermost(2, 5));
}
