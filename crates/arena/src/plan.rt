//! The word `plan` of an SCX-record.
ghost use Rattle.std.specs.Prelude.{◌≡◌, ℕ, ◌+◌, ◌*◌, ◌/◌, ◌%◌, ◌^◌, ◌<◌, ◌≤◌, ◌↔◌, true, false, IsTrue, IsSome, IfSome, IfNone};
ghost use Rattle.arena.specs.MemberIndex.{member_index};
ghost use Rattle.arena.specs.ScxRecords.{IsPlan, count_of, raw_count, side_of, side_no, field_index_of, plan_finalizes, removed_bits};

use crate::number::MemberIndex;
use crate::word::Side;

/// How many nodes an SCX-record covers, which of them it finalizes, and which field of which
/// node it changes: `count + 8 * removed + 128 * member_index at + 512 * side`, where bit j of
/// `removed` is set for the j-th node if it is to be finalized.
#[derive(Clone, Copy, Debug, PartialEq, Eq)]
pub struct Plan(pub u64);

impl Plan {
    /// The plan of an SCX-record over `count` nodes, 1 to 4, where `removed` says of each whether
    /// it is to be finalized.
    #[inline(always)]
    pub fn new(count: usize, removed: [bool; 4], at: MemberIndex, side: Side) -> Plan
        requires { count ≤ 4 }
        ensures { result.0 ≡ count + 8 * removed_bits removed + 128 * member_index at + 512 * side_no side }
    {
        let [a, b, c, d] = removed;
        let removed = u64::from(a) + 2 * u64::from(b) + 4 * u64::from(c) + 8 * u64::from(d);
        let side = match side {
            Side::Left => 0,
            Side::Right => 512,
        };
        Plan(count as u64 + 8 * removed + 128 * at.index() as u64 + side)
    }

    /// How many nodes the plan covers: none where the word is no plan, for it is too large or names
    /// more than four.
    pub fn count(self) -> u8
        ensures count { result ≡ count_of self.0 }
        ensures few { result ≤ 4 }
    {
        if self.0 < 1024 && self.0 % 8 <= 4 {
            (self.0 % 8) as u8
        } else {
            0
        }
    }

    /// Whether the word is a plan: of one to four nodes, with those that are finalized and that of
    /// the field among them.
    pub fn is_valid(self) -> bool
        ensures { IsTrue result ↔ IsPlan self.0 }
    {
        let count = self.count();
        0 < count && self.0 / 8 % 16 < power(count) && self.at().number() < count
    }

    /// The place after this one, if the plan covers that many nodes.
    pub fn member_behind(self, j: MemberIndex) -> Option<MemberIndex>
        ensures valid { IsSome result ↔ ((member_index j < 3) × (member_index j + 1 < raw_count self.0)) }
        ensures value { IfSome result (λ k. member_index k ≡ member_index j + 1) }
    {
        let next = j.next()?;
        if (next.index() as u64) < self.0 % 8 {
            Some(next)
        } else {
            None
        }
    }

    /// Whether the j-th node is to be finalized.
    pub fn finalizes(self, j: MemberIndex) -> bool
        ensures { result ≡ plan_finalizes self.0 (member_index j) }
    {
        (self.0 / 8 >> j.index()) % 2 == 1
    }

    /// The first node to be finalized, from the j-th on.
    pub fn first_finalized_from(self, j: MemberIndex) -> Option<MemberIndex>
        ensures removed { IfSome result (λ k. (member_index j ≤ member_index k) × (plan_finalizes self.0 (member_index k) ≡ true)
            × ((i : ℕ) → member_index j ≤ i → i < member_index k → plan_finalizes self.0 i ≡ false)) }
        ensures none { IfNone result ((i : ℕ) → member_index j ≤ i → i < 4 → plan_finalizes self.0 i ≡ false) }
    {
        for index in j.index()..4 {
            let j = MemberIndex::new(index)?;
            if self.finalizes(j) {
                return Some(j);
            }
        }
        None
    }

    /// The place of the node whose field is changed.
    #[inline(always)]
    pub fn at(self) -> MemberIndex
        ensures { member_index result ≡ field_index_of self.0 }
    {
        MemberIndex::new((self.0 / 128 % 4) as usize).unwrap()
    }

    /// The side of the field that is changed.
    #[inline(always)]
    pub fn side(self) -> Side
        ensures { result ≡ side_of self.0 }
    {
        if self.0 / 512 == 0 {
            Side::Left
        } else {
            Side::Right
        }
    }
}

/// A power of two.
fn power(exponent: u8) -> u64
    requires { exponent ≤ 4 }
    ensures { result ≡ 2 ^ exponent }
{
    match exponent {
        0 => 1,
        1 => 2,
        2 => 4,
        3 => 8,
        _ => 16,
    }
}
