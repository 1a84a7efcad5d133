/// A word that two regions share: instance `k` of the first and instance `l` of the second have word `a`.
#[derive(Clone, Copy, Debug, PartialEq, Eq)]
pub struct Meet {
    /// The instance of the first region, from 0.
    pub k: u32,
    /// The instance of the second region, from 0.
    pub l: u32,
    /// The word, from 0.
    pub a: u32,
}
