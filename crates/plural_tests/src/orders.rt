//! Runs in drawn orders, through the public call.
use crate::trial::{answered, call};
use plural_cli::OpenGate;
use std::alloc::Global;
use std::process::Abort;
use std::test::*;
use std::thread::Threads;

/// Bundles that no order may change, and what `verify` says of each of their runs.
const BUNDLES: [(&str, &str); 4] = [
    (
        "plural 1\n[map]\nmemory 8\ncache 1 1\n\
        task put dup 4 entry put budget 9\nwrite 0 1 1\n\
        [kernels]\nput: slli x5, x10, 2\nsw x10, 0(x5)\nli x10, 0\necall\n[image]\n[end]\n",
        "legal: entries 4\n",
    ),
    (
        "plural 1\n[map]\nmemory 8\ncache 1 1\n\
        task a regular entry one budget 9\n\
        task b regular entry put budget 9\nafter a 0\n\
        task c regular entry put budget 9\nafter b any\nwrite 0 0 1\n\
        [kernels]\none: li x10, 1\necall\nput: li x5, 9\nsw x5, 0(x0)\necall\n[image]\n[end]\n",
        "legal: entries 2\n",
    ),
    (
        "plural 1\n[map]\nmemory 8\ncache 1 1\n\
        task inc dup 2 entry inc budget 9\nwrite 0 1 1\n\
        [kernels]\ninc: slli x5, x10, 2\nlw x6, 0(x5)\naddi x6, x6, 1\nsw x6, 0(x5)\nli x10, 0\necall\n\
        [image]\n00000000: 0000000a 00000014\n[end]\n",
        "legal: entries 2\n",
    ),
    (
        "plural 1\n[map]\nmemory 16\ncache 1 1\n\
        task r regular entry r budget 9\nread 8 0 1\nwrite 0 0 1\n\
        task w dup 7 entry w budget 9\nwrite 9 1 1\n\
        [kernels]\nr: lw x5, 32(x0)\nsw x5, 0(x0)\necall\n\
        w: addi x5, x10, 9\nslli x5, x5, 2\nsw x10, 0(x5)\nli x10, 0\necall\n\
        [image]\n00000008: 00000055\n[end]\n",
        "legal: entries 8\n",
    ),
];

/// What a bundle is run with: a number of cores, and the seed of an order.
#[derive(Clone, Copy)]
struct Way {
    cores: u32,
    seed: u64,
}

/// The text of a run.
fn text_of<R: Threads + Sync + Abort>(
    rt: &R,
    alloc: Global,
    bundle: &str,
    way: Way,
) -> Result<Vec<u8>, Fail> {
    let Way { cores, seed } = way;
    let (cores, seed) = (format!(in alloc; "{cores}")?, format!(in alloc; "{seed}")?);
    let command = ["run", "--cores", cores.as_str(), "--order", seed.as_str()];
    let left = call(rt, alloc, &command, bundle.as_bytes(), &OpenGate)?;
    assert_eq!(rt; left.status, 0);
    Ok(left.text)
}

/// What `verify` says of a bundle with the text of a run.
fn verdict_on<R: Threads + Sync>(
    rt: &R,
    alloc: Global,
    bundle: &str,
    text: &[u8],
) -> Result<Vec<u8>, Fail> {
    let mut whole = Vec::from_slice(alloc, bundle.as_bytes())?;
    whole.extend_from_slice(text)?;
    let (_, verdict) = answered(rt, alloc, &["verify"], whole)?;
    Ok(verdict)
}

/// How many of the seeds from 1 up give another text than the seed 0 does.
fn other_texts<R: Threads + Sync + Abort>(
    rt: &R,
    alloc: Global,
    bundle: &str,
    verdict: &str,
    cores: u32,
) -> Result<u32, Fail> {
    let first = text_of(rt, alloc, bundle, Way { cores, seed: 0 })?;
    let again = text_of(rt, alloc, bundle, Way { cores, seed: 0 })?;
    assert!(rt; first == again, "two texts of one order");
    let mut others: u32 = 0;
    for seed in 0..100 {
        let text = text_of(rt, alloc, bundle, Way { cores, seed })?;
        let said = verdict_on(rt, alloc, bundle, &text)?;
        assert_eq!(rt; said.as_slice(), verdict.as_bytes(), "seed {seed}");
        if text != first {
            others = others.saturating_add(1);
        }
    }
    Ok(others)
}

#[test]
fn orders(rt: HostRuntime) -> Result<(), Fail> {
    for (bundle, verdict) in BUNDLES {
        for cores in 1..5 {
            let others = other_texts(&rt, rt.alloc(), bundle, verdict, cores)?;
            // One core has one order.
            assert!(rt;
                (cores == 1) == (others == 0),
                "{others} other texts on {cores} cores"
            );
        }
    }
    Ok(())
}
