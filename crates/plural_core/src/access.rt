//! Loads and stores under the guard.
ghost use Rattle.std.specs.Prelude.{◌≡◌, ◌<◌, ◌/◌, ◌%◌, [], slice_index};
ghost use Rattle.plural_base.specs.Told.{Foresees};
ghost use Rattle.plural_core.specs.Act.{Read, Write};
ghost use Rattle.plural_core.specs.Turn.{does_at};
ghost use Rattle.plural_core.specs.Progress.{live, counted};
ghost use Rattle.plural_core.specs.Recent.{IsRecent};
ghost use Rattle.plural_core.specs.Port.{IsReady, Makes};

use crate::execute::next;
use crate::guard::{Recent, may_read, may_write};
use crate::port::DataPort;
use crate::progress::{Next, Progress};
use crate::subword::{Width, merged, part, size};
use plural_isa::Reg;
use plural_regions::Region;

/// A load access: how much of its word it takes and with which extension, the byte address, and the register that it
/// fills.
#[derive(Clone, Copy)]
pub struct Load {
    pub width: Width,
    pub sign: bool,
    pub address: u32,
    pub rd: Reg,
}

/// A store access: how much of its word it changes, the byte address, and the value whose low bytes it stores.
#[derive(Clone, Copy)]
pub struct Store {
    pub width: Width,
    pub address: u32,
    pub value: u32,
}

/// A load under the guard.
#[inline(always)]
pub(crate) fn read<P: DataPort>(
    at: Progress,
    registers: &mut [u32; 32],
    regions: &[Region],
    recent: &mut Recent,
    port: &mut P,
    load: Load,
) -> Next
    requires zero { slice_index registers.old 0 ≡ 0 }
    requires recent { IsRecent regions.now at.k recent.old }
    requires ready { IsReady P.told P.counts P.is_sound regions.now at.k at.count port.old }
    requires room { at.count < 100000000 }
    ensures state { counted (live at registers.old) result registers.new
        ≡ (does_at regions.now (live at registers.old) (P.told port.old).words
        (Read load.address load.width load.sign load.rd)).state }
    ensures zero { slice_index registers.new 0 ≡ 0 }
    ensures recent { IsRecent regions.now at.k recent.new }
    ensures port { Makes P.told P.counts P.stands_for P.keeps P.is_sound port.old port.new
        (does_at regions.now (live at registers.old) (P.told port.old).words
        (Read load.address load.width load.sign load.rd)) }
{
    let Load {
        width,
        sign,
        address,
        rd,
    } = load;
    if address % size(width) != 0 {
        Next::Trap { cause: 4 }
    } else if !may_read(regions, recent, at.k, address / 4) {
        Next::Trap { cause: 5 }
    } else {
        let word = port.load(address / 4);
        next(at, registers, rd, part(width, sign, word, address))
    }
}

/// A store under the guard; of less than a word it loads its word first.
#[inline(always)]
pub(crate) fn write<P: DataPort>(
    at: Progress,
    registers: &[u32; 32],
    regions: &[Region],
    recent: &mut Recent,
    port: &mut P,
    store: Store,
) -> Next
    requires zero { slice_index registers.now 0 ≡ 0 }
    requires recent { IsRecent regions.now at.k recent.old }
    requires ready { IsReady P.told P.counts P.is_sound regions.now at.k at.count port.old }
    requires room { at.count < 100000000 }
    requires expected { Foresees (P.told port.old).expects
        (does_at regions.now (live at registers.now) (P.told port.old).words
        (Write store.address store.width store.value)).stores }
    ensures state { counted (live at registers.now) result registers.now
        ≡ (does_at regions.now (live at registers.now) (P.told port.old).words
        (Write store.address store.width store.value)).state }
    ensures recent { IsRecent regions.now at.k recent.new }
    ensures port { Makes P.told P.counts P.stands_for P.keeps P.is_sound port.old port.new
        (does_at regions.now (live at registers.now) (P.told port.old).words
        (Write store.address store.width store.value)) }
{
    let Store {
        width,
        address,
        value,
    } = store;
    if address % size(width) != 0 {
        Next::Trap { cause: 6 }
    } else if !may_write(regions, recent, at.k, address / 4) {
        Next::Trap { cause: 7 }
    } else {
        let word = match width {
            Width::Word => value,
            _ => merged(width, port.load(address / 4), address, value),
        };
        port.store(address / 4, word);
        Next::Go {
            pc: at.pc.wrapping_add(4),
        }
    }
}
