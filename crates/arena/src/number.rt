//! Numbers of nodes, SCX-records, passes and members.
use std::fmt;

/// The number of a node. Words hold numbers of nodes, so it is as wide as a word.
#[derive(Clone, Copy, Debug, Default, PartialEq, Eq)]
pub struct NodeNo(pub u64);

/// The number of an SCX-record. Number 0 is the dummy, which is aborted from the start.
#[derive(Clone, Copy, Debug, Default, PartialEq, Eq)]
pub struct ScxNo(pub u64);

impl fmt::Display for NodeNo {
    fn fmt<W: fmt::Write>(&self, f: &mut fmt::Formatter<W>) -> fmt::Result {
        let number = self.0;
        write!(f, "{number}")
    }
}

impl fmt::Display for ScxNo {
    fn fmt<W: fmt::Write>(&self, f: &mut fmt::Formatter<W>) -> fmt::Result {
        let number = self.0;
        write!(f, "{number}")
    }
}

/// The number of a pass, counted from 0: of a client in the player.
#[derive(Clone, Copy, Debug, PartialEq, Eq)]
pub struct PassNo(pub u32);

/// Which of the nodes that an SCX-record covers: 0 to 3.
#[derive(Clone, Copy, Debug, PartialEq, Eq)]
pub enum MemberIndex {
    First,
    Second,
    Third,
    Fourth,
}

impl MemberIndex {
    ghost use Rattle.std.specs.Prelude.{◌≡◌, ◌+◌, ◌<◌, ◌↔◌, IsSome, IfSome};
    ghost use Rattle.arena.specs.MemberIndex.{member_index};

    /// The member of this index; none where it is 4 or more.
    pub fn new(index: usize) -> Option<MemberIndex>
        ensures valid { IsSome result ↔ (index < 4) }
        ensures value { IfSome result (λ m. member_index m ≡ index) }
    {
        match index {
            0 => Some(MemberIndex::First),
            1 => Some(MemberIndex::Second),
            2 => Some(MemberIndex::Third),
            3 => Some(MemberIndex::Fourth),
            _ => None,
        }
    }

    /// The next one, if there is one.
    pub fn next(self) -> Option<MemberIndex>
        ensures valid { IsSome result ↔ (member_index self < 3) }
        ensures value { IfSome result (λ m. member_index m ≡ member_index self + 1) }
    {
        match self {
            MemberIndex::First => Some(MemberIndex::Second),
            MemberIndex::Second => Some(MemberIndex::Third),
            MemberIndex::Third => Some(MemberIndex::Fourth),
            MemberIndex::Fourth => None,
        }
    }

    /// Its place among the nodes covered, 0 to 3.
    pub fn index(self) -> usize
        ensures value { result ≡ member_index self }
        ensures small { result < 4 }
    {
        match self {
            MemberIndex::First => 0,
            MemberIndex::Second => 1,
            MemberIndex::Third => 2,
            MemberIndex::Fourth => 3,
        }
    }

    /// The same number as words name it.
    pub fn number(self) -> u8
        ensures value { result ≡ member_index self }
        ensures small { result < 4 }
    {
        self.index() as u8
    }
}
