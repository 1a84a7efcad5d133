ghost use Rattle.std.specs.Prelude.{◌≡◌};
ghost use Rattle.plural_map.specs.Value.{map_value};
ghost use Rattle.plural_map.specs.Limits.{IsMap};

use crate::task::Task;
use std::marker::Model;

/// A task map: the memory's words, the caches' shape, the tasks by their numbers, and the order that they run in.
#[derive(Drop)]
pub struct Map {
    words: u32,
    sets: u32,
    ways: u32,
    tasks: Vec<Task>,
    order: Vec<u32>,
}

impl Model for Map {
    ghost use Rattle.plural_map.specs.Value.{MapValue, map_value};
    ghost use Rattle.plural_map.specs.Limits.{IsMap};

    ghost Value = { MapValue };

    ghost view = { λ m. map_value m.words m.sets m.ways m.tasks.items m.order.items };

    ghost invariant = { λ m. IsMap (map_value m.words m.sets m.ways m.tasks.items m.order.items) };
}

impl Map {
    /// The map of these parts, which are within the limits of a map.
    pub fn of(words: u32, sets: u32, ways: u32, tasks: Vec<Task>, order: Vec<u32>) -> Map
        requires { IsMap (map_value words sets ways tasks.items order.items) }
        ensures { result ≡ map_value words sets ways tasks.items order.items }
    {
        Map {
            words,
            sets,
            ways,
            tasks,
            order,
        }
    }

    /// The number of the memory's words.
    pub fn words(&self) -> u32
        ensures value { result ≡ self.now.words }
        ensures limits { IsMap self.now }
    {
        self.words
    }

    /// The number of a cache's sets.
    pub fn sets(&self) -> u32
        ensures value { result ≡ self.now.sets }
        ensures limits { IsMap self.now }
    {
        self.sets
    }

    /// The number of ways of each set.
    pub fn ways(&self) -> u32
        ensures value { result ≡ self.now.ways }
        ensures limits { IsMap self.now }
    {
        self.ways
    }

    /// The tasks, by their numbers from 0.
    pub fn tasks(&self) -> &[Task]
        ensures value { result.now ≡ self.now.tasks }
        ensures limits { IsMap self.now }
    {
        self.tasks.as_slice()
    }

    /// The numbers of all tasks in the order that they run in.
    pub fn order(&self) -> &[u32]
        ensures value { result.now ≡ self.now.order }
        ensures limits { IsMap self.now }
    {
        self.order.as_slice()
    }
}
