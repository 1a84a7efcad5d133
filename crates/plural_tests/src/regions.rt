//! Rows computed by hand.
ghost use Rattle.std.specs.Prelude.{◌≤◌, ◌<◌};

use plural_regions::{Meet, Mode, Outside, Region, least_residue, meet, meet_by_scan};

#[test]
fn an_instance_has_its_own_run_of_words(rt: HostRuntime) {
    let pairs = Region {
        mode: Mode::Write,
        base: 1,
        stride: 3,
        count: 2,
    };
    for (k, a, want) in [
        (0, 0, false),
        (0, 1, true),
        (0, 2, true),
        (0, 3, false),
        (2, 6, false),
        (2, 8, true),
        (2, 9, false),
    ] {
        assert_eq!(rt; pairs.contains(k, a), want, "instance {k}, word {a}");
    }
}

#[test]
fn the_least_instance_that_leaves_the_memory_is_named(rt: HostRuntime) {
    let triples = Region {
        mode: Mode::Read,
        base: 0,
        stride: 2,
        count: 3,
    };
    let still = Region {
        mode: Mode::Write,
        base: 65_535,
        stride: 0,
        count: 1,
    };
    for (region, q, w, want) in [
        (triples, 4, 8, Err(Outside { k: 3 })),
        (triples, 3, 8, Ok(())),
        (triples, 9, 2, Err(Outside { k: 0 })),
        (still, 16_384, 65_536, Ok(())),
        (still, 1, 65_535, Err(Outside { k: 0 })),
        (still, 0, 8, Ok(())),
    ] {
        assert_eq!(rt; region.inside(q, w), want, "{q} instances in {w} words");
    }
}

#[test]
fn the_least_multiple_with_a_small_remainder_is_found(rt: HostRuntime) {
    for (n, hi, want) in [
        (6, 0, Some(5)),
        (5, 0, None),
        (5, 1, Some(1)),
        (0, 6, None),
        (1, 3, Some(0)),
    ] {
        assert_eq!(rt;
            least_residue(n, 5, 3, 7, hi),
            want,
            "below {n}, at most {hi}"
        );
    }
}

fn run_of(base: u32, stride: u32, count: u32) -> Region
    requires base { base ≤ 1048575 }
    requires stride { stride ≤ 1048575 }
    requires count { 1 ≤ count }
    requires count_limit { count ≤ 1048576 }
{
    Region {
        mode: Mode::Write,
        base,
        stride,
        count,
    }
}

/// What `meet` and the scan answer, which has to be the same, if the words of the instances are few enough.
fn met(r: &Region, q1: u32, s: &Region, q2: u32, same_task: bool) -> (Option<Meet>, Option<Meet>)
    requires first { q1 ≤ 16384 }
    requires second { q2 ≤ 16384 }
{
    match r.inside(q1, 1_048_576) {
        Err(_) => (None, None),
        Ok(()) => match s.inside(q2, 1_048_576) {
            Err(_) => (None, None),
            Ok(()) => (
                meet(r, q1, s, q2, same_task),
                meet_by_scan(r, q1, s, q2, same_task),
            ),
        },
    }
}

#[test]
fn the_least_meeting_is_found(rt: HostRuntime) {
    let sevens = run_of(0, 7, 1);
    let elevens = run_of(5, 11, 1);
    let odd = run_of(1, 6, 1);
    let even = run_of(0, 4, 1);
    let wide = run_of(0, 3, 4);
    let pairs = run_of(0, 3, 2);
    let fives = run_of(2, 5, 1);
    let still = run_of(5, 0, 1);
    for (r, s, q, same_task, want) in [
        (sevens, elevens, 16_384, false, Some((7, 4, 49))),
        (odd, even, 16_384, false, None),
        (wide, wide, 9, true, Some((0, 1, 3))),
        (pairs, pairs, 9, true, None),
        (pairs, fives, 4, false, Some((2, 1, 7))),
        (still, still, 2, true, Some((0, 1, 5))),
        (still, still, 1, true, None),
    ] {
        let want = match want {
            None => None,
            Some((k, l, a)) => Some(Meet { k, l, a }),
        };
        let (fast, plain) = met(&r, q, &s, q, same_task);
        assert_eq!(rt; fast, want, "the search, quota {q}");
        assert_eq!(rt; plain, want, "the scan, quota {q}");
    }
}

/// The next number of a fixed sequence, below `n`.
fn next(state: &mut u64, n: u32) -> u32
    requires { 1 ≤ n }
    ensures { result < n }
{
    *state = state
        .wrapping_mul(6_364_136_223_846_793_005)
        .wrapping_add(1_442_695_040_888_963_407);
    let high = (*state >> 40) as u32;
    high % n
}

fn next_run(state: &mut u64) -> Region {
    let base = next(state, 90);
    let stride = next(state, 40);
    let count = 1 + next(state, 4);
    run_of(base, stride, count)
}

#[test]
fn the_search_answers_what_the_scan_answers(rt: HostRuntime) {
    let mut state = 7;
    let mut meetings: u32 = 0;
    for i in 0..8_000 {
        let r = next_run(&mut state);
        let s = next_run(&mut state);
        let q1 = next(&mut state, 24);
        let q2 = next(&mut state, 24);
        let (fast, plain) = met(&r, q1, &s, q2, i % 2 == 0);
        assert_eq!(rt; fast, plain, "{r:?} below {q1}, {s:?} below {q2}");
        meetings = meetings.saturating_add(u32::from(fast.is_some()));
    }
    assert!(rt; meetings >= 1_000 && meetings <= 7_000);
}
