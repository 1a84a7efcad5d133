//! Multiples with a small remainder, found as Euclid's algorithm goes down.
ghost use Rattle.std.specs.Prelude.{◌<◌, ◌≤◌, ◌^◌, IfSome, IfNone};
ghost use Rattle.plural_regions.specs.Residue.{IsLeastResidue, HasNoResidue};

/// The least x below `n` with `(a * x + b) % m <= hi`, if there is one.
///
/// The remainders rise by `a` until they pass `m`, and only the first one after each pass can be small. Which passes
/// are followed by a small one is the same question with `a` for `m`, and `m` for `a`.
pub fn least_residue(n: u64, a: u64, b: u64, m: u64, hi: u64) -> Option<u64>
    requires modulus { 1 ≤ m }
    requires n_limit { n < 2 ^ 31 }
    requires a_limit { a < 2 ^ 31 }
    requires b_limit { b < 2 ^ 31 }
    requires m_limit { m < 2 ^ 31 }
    requires hi_limit { hi < 2 ^ 31 }
    ensures found { IfSome result (λ x. IsLeastResidue n a b m hi x) }
    ensures none { IfNone result (HasNoResidue n a b m hi) }
{
    let step = a % m;
    let start = b % m;
    if n == 0 {
        return None;
    }
    if start <= hi {
        return Some(0);
    }
    if step == 0 {
        return None;
    }
    let passes = (step * (n - 1) + start) / m;
    let pass = least_residue(passes, m, hi + (m - start), step, hi)?;
    Some(((pass + 1) * m - start - 1) / step + 1)
}
