//! Chains and branches of small maps, found by hand.
use crate::trial::map_of;
use plural_reach::*;
use std::test::*;

#[test]
fn a_chain_leads_through_tasks_between(rt: HostRuntime) -> Result<(), Fail> {
    // a, then b and c, then d after both, then e after d; f stands alone
    let text = b"memory 8
cache 1 1
task a regular entry e budget 9
task b regular entry e budget 9
after a any
task c regular entry e budget 9
after a 0
task d regular entry e budget 9
after b 1
after c any
task e regular entry e budget 9
after d any
task f regular entry e budget 9";
    let map = map_of(rt.alloc(), text.as_slice())?;
    let order = reach(&map);
    let rows = [
        [false, true, true, true, true, false],
        [false, false, false, true, true, false],
        [false, false, false, true, true, false],
        [false, false, false, false, true, false],
        [false, false, false, false, false, false],
        [false, false, false, false, false, false],
    ];
    for (t, row) in rows.iter().enumerate() {
        for (u, want) in row.iter().enumerate() {
            if t < 256 && u < 256 {
                assert_eq!(rt; order.before(t as u32, u as u32), *want, "{t} before {u}");
            }
        }
    }
    Ok(())
}

#[test]
fn branches_on_different_codes_are_exclusive(rt: HostRuntime) -> Result<(), Fail> {
    // b needs a's 0 and c its 1; d needs what b needs and b's 1; g is after b whatever its code
    let text = b"memory 8
cache 1 1
task a regular entry e budget 9
task b regular entry e budget 9
after a 0
task c regular entry e budget 9
after a 1
task d regular entry e budget 9
after b 1
task g regular entry e budget 9
after b any
task h regular entry e budget 9
after b 0";
    let map = map_of(rt.alloc(), text.as_slice())?;
    let branches = needs(&map);
    let rows = [
        [false, false, false, false, false, false],
        [false, false, true, false, false, false],
        [false, true, false, true, false, true],
        [false, false, true, false, false, true],
        [false, false, false, false, false, false],
        [false, false, true, true, false, false],
    ];
    for (t, row) in rows.iter().enumerate() {
        for (u, want) in row.iter().enumerate() {
            if t < 256 && u < 256 {
                assert_eq!(rt;
                    branches.exclusive(t as u32, u as u32),
                    *want,
                    "{t} and {u}"
                );
            }
        }
    }
    Ok(())
}
