//! What is read of a node.
ghost use Rattle.std.specs.Prelude.{◌≡◌};
ghost use Rattle.edits.specs.Readings.{next_in_pair};

use crate::pairs::Pairs;
use arena::{Head, SettledPart, Slot};
use ordered_map::{Pair, slot_behind, wide_value};

/// What is read of a node, word by word: its head; of a fork of class 0 its key; of a leaf of class
/// 0 how many pairs it has after its first, and then key, value and high half of each.
#[derive(Clone, Copy, Debug)]
pub struct Reading {
    /// Its head, once that is read.
    pub head: Option<Head>,
    /// How many pairs a leaf has after its first.
    pub more: Option<u64>,
    /// The slot of the pair that is read, none once all are.
    pub slot: Option<Slot>,
    /// The key of that pair, or of a fork.
    pub key: Option<u64>,
    /// The value of that pair without its high half.
    pub low: Option<u64>,
    /// The pairs that are read.
    pub pairs: Pairs,
}

/// What is known of a node before its words are read.
#[derive(Clone, Copy, Debug, PartialEq, Eq)]
pub enum Known {
    /// Nothing.
    Nothing,
    /// It is a leaf with this head and this many pairs after its first.
    Leaf { head: Head, more: u64 },
}

impl Reading {
    ghost use Rattle.std.specs.Prelude.{◌≡◌, None};
    ghost use Rattle.edits.specs.Readings.{known_reading, nothing_read, next_read, next_in_leaf, is_at_pair, read_with, pair_read_with};

    /// Nothing.
    #[inline(always)]
    pub fn new() -> Reading
        ensures { result ≡ nothing_read }
    {
        Reading {
            head: None,
            more: None,
            slot: Some(Slot::First),
            key: None,
            low: None,
            pairs: Pairs::new(),
        }
    }

    /// Begins with what is known.
    #[inline(always)]
    pub fn begin(&mut self, known: Known)
        ensures { self.new ≡ known_reading known }
    {
        match known {
            Known::Nothing => {
                self.head = None;
                self.more = None;
            }
            Known::Leaf { head, more } => {
                // By its parts: copied as a whole it would take the bytes between them along.
                self.head = Some(Head {
                    level: head.level,
                    leaf: head.leaf,
                    class: head.class,
                });
                self.more = Some(more);
            }
        }
        self.slot = Some(Slot::First);
        self.key = None;
        self.low = None;
        self.pairs.clear();
    }

    /// The word that is read next, none at the end.
    #[inline(always)]
    pub fn next(&self) -> Option<SettledPart>
        ensures { result ≡ next_read self.now }
    {
        let Some(head) = self.head else {
            return Some(SettledPart::Head);
        };
        if head.class != 0 {
            None
        } else if head.leaf {
            self.next_in_leaf()
        } else if self.key.is_none() {
            Some(SettledPart::Key(Slot::First))
        } else {
            None
        }
    }

    /// The same of a leaf of class 0.
    #[inline(always)]
    fn next_in_leaf(&self) -> Option<SettledPart>
        ensures { result ≡ next_in_leaf self.now self.now.more }
    {
        if self.more.is_none() {
            return Some(SettledPart::More);
        }
        next_in_pair(self.slot, self.key, self.low)
    }

    /// Whether the word that is read next, if it is a key, begins a pair of a leaf.
    #[inline(always)]
    pub fn is_at_pair(&self) -> bool
        ensures { result ≡ is_at_pair self.now }
    {
        match self.head {
            Some(head) => head.leaf && self.low.is_none() && self.key.is_none(),
            None => false,
        }
    }

    /// Keeps what this word was found to hold.
    #[inline(always)]
    pub fn keep(&mut self, part: SettledPart, told: u64)
        ensures { self.new ≡ read_with self.old part told }
    {
        match part {
            SettledPart::Head => self.head = Some(Head::of(told)),
            SettledPart::More => self.more = Some(told),
            SettledPart::Key(_) => self.key = Some(told),
            SettledPart::Value(_) => self.low = Some(told),
            SettledPart::High(slot) => {
                let (key, low) = (self.key.unwrap_or(0), self.low.unwrap_or(0));
                self.key = None;
                self.low = None;
                self.keep_pair(slot, key, low, told);
            }
        }
    }

    /// Keeps what the three words of the pair in this slot of a leaf were found to hold, when none
    /// is kept yet; returns the slot of the pair that is read next, none after the last.
    #[inline(always)]
    pub fn keep_pair(&mut self, slot: Slot, key: u64, low: u64, high: u64) -> Option<Slot>
        requires none { (self.old.key ≡ None) × (self.old.low ≡ None) }
        ensures kept { self.new ≡ pair_read_with self.old slot key low high }
        ensures next { result ≡ self.new.slot }
    {
        let next = slot_behind(self.more.unwrap_or(0), slot);
        self.slot = next;
        let value = wide_value(low, high);
        self.pairs.push(slot, Pair { key, value });
        next
    }
}

/// The word that is read next of the pair in this slot, where its key and the value without the
/// high half are read, or not.
#[inline(always)]
fn next_in_pair(slot: Option<Slot>, key: Option<u64>, low: Option<u64>) -> Option<SettledPart>
    ensures { result ≡ next_in_pair slot key low }
{
    let Some(slot) = slot else {
        return None;
    };
    Some(match (key, low) {
        (None, _) => SettledPart::Key(slot),
        (Some(_), None) => SettledPart::Value(slot),
        (Some(_), Some(_)) => SettledPart::High(slot),
    })
}
