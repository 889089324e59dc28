//! Forks that part keys at a bit.
ghost use Rattle.std.specs.Prelude.{ℕ, ◌≡◌, ◌<◌, ◌↔◌, IsTrue};
ghost use Rattle.ordered_map.specs.Bits.{IsForkKey, IsInSpan, PartsKeys, place_between};

/// The key and the level of a fork that parts keys at a bit.
#[derive(Clone, Copy, Debug, PartialEq, Eq)]
pub struct ForkPlace {
    pub key: u64,
    pub level: u64,
}

/// The fork that parts two keys at the highest bit in which they differ.
pub fn fork_between(one: u64, other: u64) -> ForkPlace
    ensures rising { one < other → PartsKeys one other result.key result.level }
    ensures falling { other < one → PartsKeys other one result.key result.level }
    ensures is { result ≡ place_between one other }
{
    // One key twice has no such bit: then it goes by the lowest.
    let zeros = (one ^ other).leading_zeros().min(63);
    let bit = 63 - zeros;
    ForkPlace {
        key: one.max(other) >> bit << bit,
        level: u64::from(zeros) + 2,
    }
}

/// Whether a key may stand below the fork with this key, which parts keys at a bit: the two agree in
/// all bits above the lowest of the fork's.
pub fn shares(fork: u64, key: u64) -> bool
    ensures { (level : ℕ) → IsForkKey fork level → (IsTrue result ↔ IsInSpan fork level key) }
{
    key ^ fork <= fork ^ fork.wrapping_sub(1)
}
