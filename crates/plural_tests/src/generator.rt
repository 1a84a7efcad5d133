//! The text against the template of the filter with its numbers filled in by hand, and the image against the words of
//! another program of PCG32.
use plural_generator::make;
use std::test::*;

/// The map lines of the large size.
const MAP_LINES: &str = "memory 32816
cache 16 2
task fir dup 1024 entry fir budget 10000
read 0 16 31
read 16400 0 16
write 16416 16 16
task top dup 8 entry top budget 100000
after fir any
read 16416 2048 2048
write 32800 1 1
task best regular entry best budget 1000
after top any
read 32800 0 8
read 32810 0 1
write 32808 0 1
task loud regular entry loud budget 100
after best 1
write 32809 0 1
task quiet regular entry quiet budget 100
after best 0
write 32811 0 1
task done regular entry done budget 100
after loud any
after quiet any
read 32809 0 1
read 32811 0 1
write 32812 0 1
";

/// The kernel lines of the large size.
const KERNEL_LINES: &str = "fir: slli x5, x10, 6
li x6, 65664
add x6, x6, x5
li x15, 65600
li x7, 16
fo: li x8, 0
li x9, 0
fi: add x11, x5, x9
lw x12, 0(x11)
add x13, x15, x9
lw x13, 0(x13)
mul x12, x12, x13
add x8, x8, x12
addi x9, x9, 4
slti x14, x9, 64
bnez x14, fi
sw x8, 0(x6)
addi x5, x5, 4
addi x6, x6, 4
addi x7, x7, -1
bnez x7, fo
li x10, 0
ecall
top: slli x5, x10, 13
li x6, 65664
add x5, x5, x6
li x7, 2048
li x8, 0x80000000
tl: lw x9, 0(x5)
blt x9, x8, ts
mv x8, x9
ts: addi x5, x5, 4
addi x7, x7, -1
bnez x7, tl
slli x6, x10, 2
li x9, 131200
add x6, x6, x9
sw x8, 0(x6)
li x10, 0
ecall
best: li x5, 131200
li x7, 8
li x8, 0x80000000
bl: lw x9, 0(x5)
blt x9, x8, bs
mv x8, x9
bs: addi x5, x5, 4
addi x7, x7, -1
bnez x7, bl
sw x8, 0(x5)
lw x9, 8(x5)
slt x10, x8, x9
xori x10, x10, 1
ecall
loud: li x5, 131236
li x6, 1
sw x6, 0(x5)
ecall
quiet: li x5, 131244
li x6, 1
sw x6, 0(x5)
ecall
done: li x5, 131236
lw x6, 0(x5)
lw x7, 8(x5)
add x6, x6, x6
add x6, x6, x7
sw x6, 12(x5)
ecall
";

/// The last lines for the seed 1: the last samples, the taps, the limit.
const LAST_LINES: &str =
    "00004008: 00000f82 00000462 00000b69 00000f9d 00000b3c 00000016 00000fe6 00000000
00004010: 0000000c 00000003 00000003 00000008 00000004 00000003 00000008 00000003
00004018: 0000000a 00000009 00000002 00000009 0000000e 0000000f 00000009 0000000d
00008028: 00000000 00000000 000cf982 00000000 00000000 00000000 00000000 00000000
[end]
";

/// The text for a seed.
fn text(rt: &HostRuntime, seed: u64) -> Result<Vec<u8>, Fail> {
    Ok(make(rt.alloc(), seed).ok().ok_or("memory")?)
}

/// A number for all bytes of a text, in their order.
fn digest(text: &[u8]) -> u64 {
    let mut number: u64 = 0;
    for byte in text {
        number = number.wrapping_mul(31).wrapping_add(u64::from(*byte));
    }
    number
}

#[test]
fn the_text_is_the_template_filled_in(rt: HostRuntime) -> Result<(), Fail> {
    let text = text(&rt, 1)?;
    let mut before = Vec::from_slice(rt.alloc(), b"plural 1\n[map]\n")?;
    before.extend_from_slice(MAP_LINES.as_bytes())?;
    before.extend_from_slice(b"[kernels]\n")?;
    before.extend_from_slice(KERNEL_LINES.as_bytes())?;
    before.extend_from_slice(
        b"[image]\n00000000: 00000be6 000003ee 00000751 000001c0 00000e3b 00000ee8 00000f38 00000dc0\n",
    )?;
    assert_eq!(rt; before.len(), 1640);
    assert!(rt; text.starts_with(&before));
    assert_eq!(rt; text.len(), 169_910);
    assert!(rt; text.ends_with(LAST_LINES.as_bytes()));
    Ok(())
}

#[test]
fn each_seed_draws_its_own_image(rt: HostRuntime) -> Result<(), Fail> {
    for (seed, want) in [
        (0, 4136783281921077340),
        (1, 2016318878830439569),
        (2, 13406839717582220774),
        (u64::MAX, 12178461966362071250),
    ] {
        assert_eq!(rt; digest(&text(&rt, seed)?), want);
    }
    Ok(())
}
