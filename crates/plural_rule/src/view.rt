//! What the root and each seat know. No value of these types is ever made: they are what contracts see.
ghost use Rattle.std.specs.Prelude.{ℕ, List};
ghost use Rattle.std.specs.Borrow.{ftrue};
ghost use Rattle.plural_map.specs.declared.outcome.Outcome.{Outcome};
ghost use Rattle.plural_counters.specs.declared.duty.Duty.{Duty};
ghost use Rattle.plural_rule.specs.Opening.{Opening};
ghost use Rattle.plural_rule.specs.declared.view.Stage.{Stage};
ghost use Rattle.plural_rule.specs.declared.view.Role.{Role};

use std::collections::LinkedList;
use std::marker::Model;

/// How far a seat is with an instance. Instances are named by the number of their task and their own.
pub enum Stage {
    /// It has none.
    Free,
    /// It was handed this one.
    Got(u32, u32),
    /// It has begun it: the start ticket, how many stores it has made, and how many words of the memory it has read.
    Begun(u32, u32, u64, u64, u64),
    /// It has ended it: the start and the end ticket, the words that it read, and what it noted so far, each a field
    /// of the record with its value, the latest first.
    Ended(u32, u32, u64, u64, u64, LinkedList<(u32, u64)>),
}

/// Whose view it is.
pub enum Role {
    /// That of the seat with this core number.
    Seat(u32),
    /// That of the root, with the core numbers of the seats that are out.
    Root(LinkedList<u32>),
    /// That of a seat that was joined.
    Spent,
}

/// What the root or a seat knows: what the words were opened with; what it last found in the alloc word of each task,
/// how often it loaded that word and how often it lost an exchange of it; whose view it is; its stage; the duties that
/// it owes, the next one first; and the tasks that it told, each with its outcome.
pub struct View {
    pub ghost opening: { Opening },
    pub ghost found: { List ℕ },
    pub ghost looks: { List ℕ },
    pub ghost losses: { List ℕ },
    pub ghost role: { Role },
    pub ghost stage: { Stage },
    pub ghost owes: { List Duty },
    pub ghost told: { List (ℕ × Outcome) },
}

impl Model for View {
    ghost also_owns = { λ _. ftrue };
}
