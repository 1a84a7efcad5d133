//! The least meeting of two regions.
ghost use Rattle.std.specs.Prelude.{◌≡◌, ◌<◌, true, false, IfSome, IfNone};
ghost use Rattle.plural_regions.specs.Meeting.{IsLeastMeet, NeverMeet};
ghost use Rattle.plural_regions.specs.Search.{IsSearchable, IsFirstReaching, NeverReaches, IsLeastAt, NeverAt, IsCandidate};

use crate::region::Region;
use crate::residue::least_residue;
use crate::triple::Meet;

/// The least instance from `low` up to `q` that has one of the `count` words from `start` on.
fn first_reaching(region: &Region, start: u32, count: u32, low: u32, q: u32) -> Option<u32>
    ensures found { IfSome result (λ l. IsFirstReaching region.now start count low q l) }
    ensures none { IfNone result (NeverReaches region.now start count low q) }
{
    let first = region.first_outside(start)?;
    let l = first.max(low);
    if l < q && region.start(l) < u64::from(start) + u64::from(count) {
        Some(l)
    } else {
        None
    }
}

/// The least meeting of instance `k` of `r`.
fn meet_at(r: &Region, q1: u32, s: &Region, q2: u32, same_task: bool, k: u32) -> Option<Meet>
    requires below { k < q1 }
    requires first { IsSearchable r.now q1 }
    requires second { IsSearchable s.now q2 }
    ensures found { IfSome result (λ m. (m.k ≡ k) × IsLeastAt r.now q1 s.now q2 same_task k m.l m.a) }
    ensures none { IfNone result (NeverAt r.now q1 s.now q2 same_task k) }
{
    let start = r.start(k) as u32;
    let low = if same_task { k + 1 } else { 0 };
    let l = first_reaching(s, start, r.count, low, q2)?;
    let a = start.max(s.start(l) as u32);
    Some(Meet { k, l, a })
}

/// The least meeting, found by going over all instances of `r`: the program of the definition, beside `meet`.
///
/// The condition is that of `meet`.
pub fn meet_by_scan(r: &Region, q1: u32, s: &Region, q2: u32, same_task: bool) -> Option<Meet>
    requires first { IsSearchable r.now q1 }
    requires second { IsSearchable s.now q2 }
    ensures found { IfSome result (λ m. IsLeastMeet r.now q1 s.now q2 same_task m.k m.l m.a) }
    ensures none { IfNone result (NeverMeet r.now q1 s.now q2 same_task) }
{
    for k in 0..q1 {
        let found = meet_at(r, q1, s, q2, same_task, k);
        if found.is_some() {
            return found;
        }
    }
    None
}

/// The first instance of `r` that can meet one of `s`, a region of another task.
fn candidate_apart(r: &Region, q1: u32, s: &Region, q2: u32) -> Option<u32>
    requires first { IsSearchable r.now q1 }
    requires second { IsSearchable s.now q2 }
    ensures found { IfSome result (λ k. IsCandidate r.now q1 s.now q2 false k) }
    ensures none { IfNone result (NeverMeet r.now q1 s.now q2 false) }
{
    if s.stride == 0 {
        return first_reaching(r, s.base, s.count, 0, q1);
    }
    let low = r.first_outside(s.base)?;
    if q1 <= low {
        return None;
    }
    let past = r.start(low) + u64::from(r.count) - 1 - u64::from(s.base);
    let room = u64::from(r.count) + u64::from(s.count) - 2;
    let steps = least_residue(
        u64::from(q1 - low),
        u64::from(r.stride),
        past,
        u64::from(s.stride),
        room,
    )?;
    Some(low + steps as u32)
}

/// The first instance of `r` that can meet one of `s`, if a scan isn't needed: the regions are of different tasks,
/// or of one task and have one stride, so that only the distance of two instances counts.
fn candidate(r: &Region, q1: u32, s: &Region, q2: u32, same_task: bool) -> Option<u32>
    requires first { IsSearchable r.now q1 }
    requires second { IsSearchable s.now q2 }
    requires even { same_task ≡ true → r.now.stride ≡ s.now.stride }
    ensures found { IfSome result (λ k. IsCandidate r.now q1 s.now q2 same_task k) }
    ensures none { IfNone result (NeverMeet r.now q1 s.now q2 same_task) }
{
    if !same_task {
        candidate_apart(r, q1, s, q2)
    } else if q1 == 0 {
        None
    } else {
        Some(0)
    }
}

/// The least triple of an instance of `r` below `q1`, an instance of `s` below `q2` and a word that both have; within
/// one task the first instance is below the second. The modes play no part.
///
/// The quotas are at most 16,384, and all words of these instances are below 1,048,576. All instances are gone over
/// only for regions of one task with different strides.
pub fn meet(r: &Region, q1: u32, s: &Region, q2: u32, same_task: bool) -> Option<Meet>
    requires first { IsSearchable r.now q1 }
    requires second { IsSearchable s.now q2 }
    ensures found { IfSome result (λ m. IsLeastMeet r.now q1 s.now q2 same_task m.k m.l m.a) }
    ensures none { IfNone result (NeverMeet r.now q1 s.now q2 same_task) }
{
    if same_task && r.stride != s.stride {
        return meet_by_scan(r, q1, s, q2, same_task);
    }
    let k = candidate(r, q1, s, q2, same_task)?;
    meet_at(r, q1, s, q2, same_task, k)
}
