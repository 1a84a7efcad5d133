//! The kernel lines.
ghost use Rattle.std.specs.Prelude.{◌≡◌, ◌++◌, OnOk};
ghost use Rattle.plural_generator.specs.Kernels.{fir_text, top_text, best_text, loud_text, quiet_text, done_text, kernel_text};

use plural_bytes::Memory;

fn fir() -> &'static [u8]
    ensures { result.now ≡ fir_text }
{
    b"fir: slli x5, x10, 6
li x6, 65664
add x6, x6, x5
li x15, 65600
li x7, 16
fo: li x8, 0
li x9, 0
fi: add x11, x5, x9
lw x12, 0(x11)
add x13, x15, x9
lw x13, 0(x13)
mul x12, x12, x13
add x8, x8, x12
addi x9, x9, 4
slti x14, x9, 64
bnez x14, fi
sw x8, 0(x6)
addi x5, x5, 4
addi x6, x6, 4
addi x7, x7, -1
bnez x7, fo
li x10, 0
ecall
"
}

fn top() -> &'static [u8]
    ensures { result.now ≡ top_text }
{
    b"top: slli x5, x10, 13
li x6, 65664
add x5, x5, x6
li x7, 2048
li x8, 0x80000000
tl: lw x9, 0(x5)
blt x9, x8, ts
mv x8, x9
ts: addi x5, x5, 4
addi x7, x7, -1
bnez x7, tl
slli x6, x10, 2
li x9, 131200
add x6, x6, x9
sw x8, 0(x6)
li x10, 0
ecall
"
}

fn best() -> &'static [u8]
    ensures { result.now ≡ best_text }
{
    b"best: li x5, 131200
li x7, 8
li x8, 0x80000000
bl: lw x9, 0(x5)
blt x9, x8, bs
mv x8, x9
bs: addi x5, x5, 4
addi x7, x7, -1
bnez x7, bl
sw x8, 0(x5)
lw x9, 8(x5)
slt x10, x8, x9
xori x10, x10, 1
ecall
"
}

fn loud() -> &'static [u8]
    ensures { result.now ≡ loud_text }
{
    b"loud: li x5, 131236
li x6, 1
sw x6, 0(x5)
ecall
"
}

fn quiet() -> &'static [u8]
    ensures { result.now ≡ quiet_text }
{
    b"quiet: li x5, 131244
li x6, 1
sw x6, 0(x5)
ecall
"
}

fn done() -> &'static [u8]
    ensures { result.now ≡ done_text }
{
    b"done: li x5, 131236
lw x6, 0(x5)
lw x7, 8(x5)
add x6, x6, x6
add x6, x6, x7
sw x6, 12(x5)
ecall
"
}

/// Puts the kernel lines after the text.
pub(crate) fn put_kernels(out: &mut Vec<u8>) -> Result<(), Memory>
    ensures { OnOk result (out.new.items ≡ out.old.items ++ kernel_text) }
{
    out.extend_from_slice(fir())?;
    out.extend_from_slice(top())?;
    out.extend_from_slice(best())?;
    out.extend_from_slice(loud())?;
    out.extend_from_slice(quiet())?;
    out.extend_from_slice(done())?;
    Ok(())
}
