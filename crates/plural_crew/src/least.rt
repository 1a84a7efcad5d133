//! The least triple at which regions of two tasks meet, one of them a write region.
ghost use Rattle.std.specs.Prelude.{◌≡◌, ◌↔◌, IsTrue};
ghost use Rattle.std.specs.List.{All};
ghost use Rattle.plural_regions.specs.Search.{IsSearchable};
ghost use Rattle.plural_crew.specs.Search.{IsLeastOf, OneWrites, MeetWriting, MeetsSome, SomeMeet, is_less, lesser};

use plural_regions::{Meet, Mode, Region, meet};

fn is_less(m: Meet, n: Meet) -> bool
    ensures { result ≡ is_less m n }
{
    m.k < n.k || m.k == n.k && (m.l < n.l || m.l == n.l && m.a < n.a)
}

/// The lesser of two meetings, if they are there.
fn lesser(first: Option<Meet>, second: Option<Meet>) -> Option<Meet>
    ensures { result ≡ lesser first second }
{
    match first {
        None => second,
        Some(m) => match second {
            None => Some(m),
            Some(n) => { if is_less(n, m) { Some(n) } else { Some(m) } }
        },
    }
}

fn one_writes(r: &Region, s: &Region) -> bool
    ensures { IsTrue result ↔ OneWrites r.now s.now }
{
    r.mode == Mode::Write || s.mode == Mode::Write
}

/// The least meeting of two regions, if one of them is a write region.
fn meet_writing(r: &Region, q1: u32, s: &Region, q2: u32, same_task: bool) -> Option<Meet>
    requires first { IsSearchable r.now q1 }
    requires second { IsSearchable s.now q2 }
    ensures { IsLeastOf (MeetWriting r.now q1 s.now q2 same_task) result }
{
    if one_writes(r, s) {
        meet(r, q1, s, q2, same_task)
    } else {
        None
    }
}

/// The least meeting of a region with those of a list.
fn meets_some(r: &Region, q1: u32, regions: &[Region], q2: u32, same_task: bool) -> Option<Meet>
    requires first { IsSearchable r.now q1 }
    requires second { All (λ s. IsSearchable s q2) regions.now }
    ensures { IsLeastOf (MeetsSome r.now q1 regions.now q2 same_task) result }
{
    let mut least = None;
    for s in regions {
        least = lesser(least, meet_writing(r, q1, s, q2, same_task));
    }
    least
}

/// The least meeting of a region of one list with one of another.
pub(crate) fn some_meet(
    firsts: &[Region],
    q1: u32,
    seconds: &[Region],
    q2: u32,
    same_task: bool,
) -> Option<Meet>
    requires first { All (λ r. IsSearchable r q1) firsts.now }
    requires second { All (λ s. IsSearchable s q2) seconds.now }
    ensures { IsLeastOf (SomeMeet firsts.now q1 seconds.now q2 same_task) result }
{
    let mut least = None;
    for r in firsts {
        least = lesser(least, meets_some(r, q1, seconds, q2, same_task));
    }
    least
}
