ghost use Rattle.std.specs.Prelude.{◌≡◌, ◌<◌, length};
ghost use Rattle.plural_map.specs.Value.{with_dep, with_region, with_some};

use crate::outcome::Dep;
use arrayvec::ArrayVec;
use plural_base::Name;
use plural_regions::Region;
use std::marker::Model;

/// What a task is made of.
#[derive(Drop)]
pub struct TaskParts {
    /// The task's name.
    pub name: Name,
    /// Whether the task is duplicable.
    pub dup: bool,
    /// The number of its instances.
    pub quota: u32,
    /// The name of the label that its instances begin at.
    pub entry: Name,
    /// How many instructions an instance completes at most.
    pub budget: u32,
    /// Whether one satisfied dependency is enough for it to run.
    pub some: bool,
    /// Its dependencies, in the order of their lines.
    pub deps: ArrayVec<Dep, 16>,
    /// Its regions, in the order of their lines.
    pub regions: ArrayVec<Region, 8>,
}

/// A task of a map: a kernel that runs once, or once for each instance, after the tasks that it depends on.
#[derive(Drop)]
pub struct Task {
    parts: TaskParts,
}

impl Model for Task {
    ghost use Rattle.plural_map.specs.Value.{TaskValue};
    ghost use Rattle.plural_map.specs.Parts.{task_of_parts};

    ghost Value = { TaskValue };

    ghost view = { λ t. task_of_parts t.parts };
}

impl Task {
    ghost use Rattle.plural_map.specs.Parts.{task_of_parts};

    /// The task of these parts. A map that it becomes part of asks for the limits of each.
    pub fn of(parts: TaskParts) -> Task
        ensures { result ≡ task_of_parts parts }
    {
        Task { parts }
    }

    /// The task's name.
    pub fn name(&self) -> &Name
        ensures { result.now ≡ self.now.name }
    {
        &self.parts.name
    }

    /// Whether the task is duplicable.
    pub fn is_dup(&self) -> bool
        ensures { result ≡ self.now.dup }
    {
        self.parts.dup
    }

    /// The number of its instances.
    pub fn quota(&self) -> u32
        ensures { result ≡ self.now.quota }
    {
        self.parts.quota
    }

    /// The name of the label that its instances begin at.
    pub fn entry(&self) -> &Name
        ensures { result.now ≡ self.now.entry }
    {
        &self.parts.entry
    }

    /// How many instructions an instance completes at most.
    pub fn budget(&self) -> u32
        ensures { result ≡ self.now.budget }
    {
        self.parts.budget
    }

    /// Whether one satisfied dependency is enough for it to run.
    pub fn joins_some(&self) -> bool
        ensures { result ≡ self.now.some }
    {
        self.parts.some
    }

    /// Its dependencies, in the order of their lines.
    pub fn deps(&self) -> &[Dep]
        ensures { result.now ≡ self.now.deps }
    {
        self.parts.deps.as_slice()
    }

    /// Its regions, in the order of their lines.
    pub fn regions(&self) -> &[Region]
        ensures { result.now ≡ self.now.regions }
    {
        self.parts.regions.as_slice()
    }

    /// Gives the task one more dependency.
    pub fn add_dep(&mut self, dep: Dep)
        requires { length self.old.deps < 16 }
        ensures { self.new ≡ with_dep dep self.old }
    {
        self.parts.deps.push(dep);
    }

    /// Makes one satisfied dependency enough for the task to run.
    pub fn join_some(&mut self)
        ensures { self.new ≡ with_some self.old }
    {
        self.parts.some = true;
    }

    /// Gives the task one more region.
    pub fn add_region(&mut self, region: Region)
        requires { length self.old.regions < 8 }
        ensures { self.new ≡ with_region region self.old }
    {
        self.parts.regions.push(region);
    }
}
