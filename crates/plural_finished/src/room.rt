//! The memory for what a finished machine has, taken before the machine runs.
ghost use Rattle.std.specs.Prelude.{◌≡◌, IfOk};
ghost use Rattle.plural_finished.specs.Rooms.{room_for, instance_count};

use plural_base::Memory;
use plural_map::Outcome;
use plural_serial::Program;
use plural_trace::Entry;
use std::alloc::Global;
use std::marker::Model;

/// Empty lists with room for an image, the outcomes of its tasks and the entries of all their instances. Contracts see
/// how many of each have room.
#[derive(Drop)]
pub struct Room {
    pub(crate) image: Vec<u32>,
    pub(crate) outcomes: Vec<Outcome>,
    pub(crate) entries: Vec<Entry>,
}

impl Model for Room {
    ghost use Rattle.std.specs.Prelude.{◌≡◌, [], vec_capacity};
    ghost use Rattle.plural_finished.specs.Rooms.{RoomSeen, room_of};

    ghost Value = { RoomSeen };

    ghost view = { λ r. room_of (vec_capacity r.image) (vec_capacity r.outcomes) (vec_capacity r.entries) };

    ghost invariant = { λ r. (r.image.items ≡ []) × (r.outcomes.items ≡ []) × (r.entries.items ≡ []) };
}

impl Room {
    /// Takes as much memory as a machine of this program can want.
    pub fn open(alloc: Global, program: &Program) -> Result<Room, Memory>
        ensures { IfOk result (λ r. r ≡ room_for program.now) }
    {
        let map = program.map();
        let instances = instances(program);
        Ok(Room {
            image: Vec::with_capacity(alloc, map.words() as usize)?,
            outcomes: Vec::with_capacity(alloc, map.tasks().len())?,
            entries: Vec::with_capacity(alloc, instances)?,
        })
    }
}

// How many instances all tasks have.
fn instances(program: &Program) -> usize
    ensures { result ≡ instance_count program.now }
{
    let mut count = 0;
    for task in program.map().tasks() {
        count += task.quota() as usize;
    }
    count
}
