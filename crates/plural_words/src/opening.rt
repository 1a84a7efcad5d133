//! The words before any step.
ghost use Rattle.std.specs.Prelude.{◌≡◌, ◌+◌, ◌*◌, ◌^◌, ◌<◌, ◌++◌, length, replicate, IfOk, OnOk};
ghost use Rattle.std.specs.List.{flat_map};
ghost use Rattle.plural_rule.specs.Opening.{task_count};
ghost use Rattle.plural_rule.specs.Layout.{instances_before};
ghost use Rattle.plural_rule.specs.First.{first_five, first_words};

use plural_base::Memory;
use plural_map::Task;
use plural_serial::Program;
use std::alloc::Global;

fn push_image(words: &mut Vec<u64>, image: &[u32]) -> Result<(), Memory>
    ensures { OnOk result (words.new.items ≡ words.old.items ++ image.now) }
{
    for word in image {
        words.push(*word as u64)?;
    }
    Ok(())
}

fn push_zeros(words: &mut Vec<u64>, count: usize) -> Result<(), Memory>
    requires { length words.old.items + count < 2 ^ 40 }
    ensures { OnOk result (words.new.items ≡ words.old.items ++ replicate count 0) }
{
    words.resize(words.len() + count, 0)?;
    Ok(())
}

fn push_five(words: &mut Vec<u64>, task: &Task) -> Result<(), Memory>
    ensures { OnOk result (words.new.items ≡ words.old.items ++ first_five task.now) }
{
    let deps = task.deps().len();
    let armed = if deps == 0 { 1 } else { 0 };
    words.push(armed)?;
    words.push(0)?;
    words.push(task.quota() as u64)?;
    words.push(0)?;
    words.push(deps as u64)?;
    Ok(())
}

fn push_fives(words: &mut Vec<u64>, tasks: &[Task]) -> Result<(), Memory>
    ensures { OnOk result (words.new.items ≡ words.old.items ++ flat_map first_five tasks.now) }
{
    for task in tasks {
        push_five(words, task)?;
    }
    Ok(())
}

/// The first words of a program over an image, if its records have this many words.
pub(crate) fn opening_words(
    alloc: Global,
    program: &Program,
    image: &[u32],
    records: usize,
) -> Result<Vec<u64>, Memory>
    requires image { length image.now < 2 ^ 32 }
    requires few { records < 2 ^ 32 }
    requires records { records ≡ 8 * instances_before program.now (task_count program.now) }
    ensures { IfOk result (λ v. v.items ≡ first_words program.now image.now) }
{
    let mut words = Vec::new(alloc);
    push_image(&mut words, image)?;
    push_zeros(&mut words, records)?;
    push_fives(&mut words, program.map().tasks())?;
    words.push(0)?;
    Ok(words)
}
