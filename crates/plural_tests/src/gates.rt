//! Runs under gates that count their calls and hold some instances back. Threads must run side by side to meet them.
use crate::trial::call;
use plural_cli::Gate;
use std::sync::atomic::{AtomicU64, Ordering};
use std::test::*;
use std::thread::yield_now;

/// How many turns an instance is held at most.
const PATIENCE: u32 = 10_000_000;

/// Something that an instance is held for.
#[derive(Clone, Copy)]
enum Event {
    /// So many instances of this task have begun.
    Begun { task: usize, count: u64 },
    /// So many have ended.
    Ended { task: usize, count: u64 },
}

/// All instances of this task are held in `begin` until this event.
#[derive(Clone, Copy)]
struct Hold {
    task: u32,
    until: Event,
}

/// A gate that counts, by task, the instances that begin and those that end, and holds some of them.
#[derive(Drop)]
struct Holding<'h> {
    holds: &'h [Hold],
    begun: [AtomicU64; 6],
    ended: [AtomicU64; 6],
    /// How many instances were held for nothing.
    late: AtomicU64,
}

fn zeros() -> [AtomicU64; 6] {
    [
        AtomicU64::new(0),
        AtomicU64::new(0),
        AtomicU64::new(0),
        AtomicU64::new(0),
        AtomicU64::new(0),
        AtomicU64::new(0),
    ]
}

/// Counts one more of a task.
fn count(words: &[AtomicU64; 6], task: usize) {
    if let Some(word) = words.get(task) {
        word.fetch_add(1, Ordering::SeqCst);
    }
}

/// How many were counted of a task.
fn counted(words: &[AtomicU64; 6], task: usize) -> u64 {
    match words.get(task) {
        Some(word) => word.load(Ordering::SeqCst),
        None => 0,
    }
}

impl<'h> Holding<'h> {
    fn new(holds: &'h [Hold]) -> Holding<'h> {
        Holding {
            holds,
            begun: zeros(),
            ended: zeros(),
            late: AtomicU64::new(0),
        }
    }

    fn has_come(&self, event: Event) -> bool {
        match event {
            Event::Begun { task, count } => count <= counted(&self.begun, task),
            Event::Ended { task, count } => count <= counted(&self.ended, task),
        }
    }

    fn hold(&self, until: Event) {
        for _ in 0..PATIENCE {
            if self.has_come(until) {
                return;
            }
            yield_now();
        }
        self.late.fetch_add(1, Ordering::SeqCst);
    }

    /// How many instances of each task have begun, and how many have ended.
    fn counts(&self) -> ([u64; 6], [u64; 6]) {
        let (mut begun, mut ended) = ([0; 6], [0; 6]);
        for task in 0..6 {
            begun[task] = counted(&self.begun, task);
            ended[task] = counted(&self.ended, task);
        }
        (begun, ended)
    }
}

impl Gate for Holding<'_> {
    fn begin(&self, _core: u32, t: u32, _k: u32) {
        count(&self.begun, t as usize);
        for hold in self.holds {
            if hold.task == t {
                self.hold(hold.until);
            }
        }
    }

    fn end(&self, _core: u32, t: u32, _k: u32) {
        count(&self.ended, t as usize);
    }
}

/// Two instances, each with its own word.
const PAIR: &str = "plural 1\n[map]\nmemory 8\ncache 1 1\n\
    task put dup 2 entry put budget 9\nwrite 0 1 1\n\
    [kernels]\nput: slli x5, x10, 2\nsw x10, 0(x5)\nli x10, 0\necall\n[image]\n[end]\n";

/// Two tasks that wait for none, and a third after the second.
const THREE: &str = "plural 1\n[map]\nmemory 8\ncache 1 1\n\
    task a regular entry e budget 9\n\
    task b regular entry e budget 9\n\
    task c regular entry e budget 9\nafter b any\n\
    [kernels]\ne: ecall\n[image]\n[end]\n";

#[test]
fn two_begin(rt: HostRuntime) -> Result<(), Fail> {
    let both = Hold {
        task: 0,
        until: Event::Begun { task: 0, count: 2 },
    };
    let holds = [both];
    let gate = Holding::new(&holds);
    let command = ["run", "--cores", "2"];
    let left = call(&rt, rt.alloc(), &command, PAIR.as_bytes(), &gate)?;
    assert_eq!(rt; left.status, 0);
    assert_eq!(rt; gate.late.load(Ordering::SeqCst), 0);
    assert_eq!(rt; gate.counts(), ([2, 0, 0, 0, 0, 0], [2, 0, 0, 0, 0, 0]));
    Ok(())
}

#[test]
fn no_barrier(rt: HostRuntime) -> Result<(), Fail> {
    let second = Hold {
        task: 1,
        until: Event::Begun { task: 0, count: 1 },
    };
    let first = Hold {
        task: 0,
        until: Event::Ended { task: 2, count: 1 },
    };
    let holds = [second, first];
    let gate = Holding::new(&holds);
    let command = ["run", "--cores", "2"];
    let left = call(&rt, rt.alloc(), &command, THREE.as_bytes(), &gate)?;
    assert_eq!(rt; left.status, 0);
    assert_eq!(rt; gate.late.load(Ordering::SeqCst), 0);
    assert_eq!(rt; gate.counts(), ([1, 1, 1, 0, 0, 0], [1, 1, 1, 0, 0, 0]));
    Ok(())
}

/// What is made of the seed 1, run. (Its numbers are those of another program's serial run.)
const MADE: &str =
    "made: instances 1036 ran 1035 instructions 2565371 stores 16395 best 403722 result 1\n";

#[test]
fn each_instance_of_a_made_bundle_begins_and_ends_once(rt: HostRuntime) -> Result<(), Fail> {
    for (word, cores) in [("1", 1), ("8", 8), ("64", 64)] {
        let gate = Holding::new(&[]);
        let command = ["make", "1", "--cores", word];
        let left = call(&rt, rt.alloc(), &command, b"", &gate)?;
        assert_eq!(rt; left.status, 0);
        assert_eq!(rt; left.text.as_slice(), MADE.as_bytes());
        let all = [1024, 8, 1, 0, 1, 1];
        assert_eq!(rt; gate.counts(), (all, all));
        let kept = left.kept.ok_or("a machine")?;
        assert_eq!(rt; (kept.cores(), kept.entries().len()), (cores, 1035));
    }
    Ok(())
}
