//! The order of tasks, and the cycle if it doesn't reach each.

ghost use Rattle.std.specs.Prelude.{◌≡◌, ◌<◌, ◌≤◌, ◌++◌, ◌∷◌, [], not, ◌&&◌, ◌==◌, length, map, position, IfOk, OnOk};
ghost use Rattle.std.specs.List.{All, position_or_len, range_with_len};
ghost use Rattle.plural_map.specs.Value.{task_of};
ghost use Rattle.plural_map.specs.Lookup.{name_at};
ghost use Rattle.plural_map.specs.Order.{is_among, has_all_done, is_ready, next_ready, order_of};
ghost use Rattle.plural_map.specs.Cycle.{depends_on, IsCycleNamed, AreWithin};

use crate::names::Names;
use crate::task::Task;
use plural_base::Memory;
use std::alloc::Global;
use std::marker::Model;

/// How many tasks a map has at most.
const LIMIT: usize = 256;

/// Tasks of a map by their numbers, in the order in which they were reached.
#[derive(Drop)]
pub struct Reached {
    numbers: Vec<u32>,
    flags: Vec<bool>,
}

impl Model for Reached {
    ghost use Rattle.std.specs.Prelude.{ℕ, List};
    ghost use Rattle.plural_map.specs.Flags.{Tells};

    ghost Value = { List ℕ };

    ghost view = { λ r. r.numbers.items };

    ghost invariant = { λ r. Tells r.flags.items r.numbers.items };
}

impl Reached {
    fn nothing(alloc: Global) -> Result<Reached, Memory>
        ensures { IfOk result (λ r. r ≡ []) }
    {
        Ok(Reached {
            numbers: Vec::new(alloc),
            flags: vec![in alloc; false; LIMIT]?,
        })
    }

    /// The numbers of the tasks, in their order.
    pub fn numbers(&self) -> &[u32]
        ensures { result.now ≡ self.now }
    {
        self.numbers.as_slice()
    }

    /// The numbers of the tasks, in their order.
    pub fn into_numbers(self) -> Vec<u32>
        ensures { result.items ≡ self }
    {
        self.numbers
    }

    fn has(&self, t: u32) -> bool
        ensures { result ≡ is_among t self.now }
    {
        match self.flags.get(t as usize) {
            None => false,
            Some(flag) => *flag,
        }
    }

    fn push(&mut self, t: u32) -> Result<(), Memory>
        requires { t < 256 }
        ensures { OnOk result (self.new ≡ self.old ++ t ∷ []) }
    {
        self.numbers.push(t)?;
        self.flags[t as usize] = true;
        Ok(())
    }
}

fn has_all_done(done: &Reached, task: &Task) -> bool
    ensures { result ≡ has_all_done done.now task.now }
{
    task.deps().iter().all(|d| done.has(d.task))
}

fn is_ready(tasks: &[Task], done: &Reached, t: u32) -> bool
    ensures { result ≡ is_ready tasks.now done.now t }
{
    match tasks.get(t as usize) {
        None => false,
        Some(task) => !done.has(t) && has_all_done(done, task),
    }
}

fn next_ready(tasks: &[Task], done: &Reached) -> Option<u32>
    requires { length tasks.now ≤ 256 }
    ensures { result ≡ next_ready tasks.now done.now }
{
    for t in 0..tasks.len() as u32 {
        if is_ready(tasks, done, t) {
            return Some(t);
        }
    }
    None
}

/// The tasks that the order reaches, in the order: the next is the task of the least number that isn't in it yet and
/// whose predecessors all are.
pub fn order(alloc: Global, tasks: &[Task]) -> Result<Reached, Memory>
    requires { length tasks.now ≤ 256 }
    ensures { IfOk result (λ r. r ≡ order_of tasks.now) }
{
    let mut done = Reached::nothing(alloc)?;
    for _n in 0..tasks.len() {
        match next_ready(tasks, &done) {
            None => return Ok(done),
            Some(t) => done.push(t)?,
        }
    }
    Ok(done)
}

fn first_left(n: u32, reached: &Reached) -> u32
    ensures { result ≡ position_or_len (λ t. not (is_among t reached.now)) (range_with_len 0 n) }
{
    for t in 0..n {
        if !reached.has(t) {
            return t;
        }
    }
    n
}

fn depends_on(task: &Task, u: u32) -> bool
    ensures { result ≡ depends_on task.now u }
{
    task.deps().iter().any(|d| d.task == u)
}

fn next_left(tasks: &[Task], reached: &Reached, t: u32) -> u32
    requires few { length tasks.now ≤ 256 }
    requires task { t < length tasks.now }
    ensures { result
        ≡ position_or_len (λ u. not (is_among u reached.now) && depends_on (task_of tasks.now t) u)
        (range_with_len 0 (length tasks.now)) }
{
    let task = &tasks[t as usize];
    let n = tasks.len() as u32;
    for u in 0..n {
        if !reached.has(u) && depends_on(task, u) {
            return u;
        }
    }
    n
}

fn place(walk: &[u32], t: u32) -> Option<usize>
    ensures { result ≡ position (λ u. u == t) walk.now }
{
    walk.iter().position(|u| *u == t)
}

fn names(alloc: Global, tasks: &[Task], numbers: &[u32]) -> Result<Names, Memory>
    requires { All (λ t. t < length tasks.now) numbers.now }
    ensures { IfOk result (λ n. n ≡ map (name_at tasks.now) numbers.now) }
{
    let mut list = Vec::new(alloc);
    for t in numbers {
        list.push(*tasks[*t as usize].name())?;
    }
    Ok(Names::of(list))
}

/// The names of the tasks of the cycle, if the order doesn't reach each of the tasks. `reached` is their order.
///
/// The walk to it begins with the least task that isn't reached, and goes from each to the least of these that it
/// depends on, until one repeats; the cycle is what stands from there on.
pub fn cycle(alloc: Global, tasks: &[Task], reached: &Reached) -> Result<Names, Memory>
    requires few { length tasks.now ≤ 256 }
    requires within { AreWithin tasks.now }
    requires order { reached.now ≡ order_of tasks.now }
    requires left { length (order_of tasks.now) < length tasks.now }
    ensures { IfOk result (IsCycleNamed tasks.now) }
{
    let mut walk = Vec::new(alloc);
    let mut t = first_left(tasks.len() as u32, reached);
    for _n in 0..tasks.len() + 1 {
        match place(&walk, t) {
            Some(from) => return names(alloc, tasks, &walk[from..]),
            None => walk.push(t)?,
        }
        t = next_left(tasks, reached, t);
    }
    names(alloc, tasks, &walk)
}
