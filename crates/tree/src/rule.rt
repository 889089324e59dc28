//! Goals and rules of edits: as values, and as types, so that one that is known when the program is
//! built costs nothing.
ghost use Rattle.std.specs.Prelude.{◌≡◌, Bool, true, false};
ghost use Rattle.arena.specs.declared.word.Side.TheVariants.{Left, Right};
ghost use Rattle.ordered_map.specs.OrderedMap.{applies, leaves};
ghost use Rattle.ordered_map.specs.declared.rule.Goal.{Goal as GoalOf};
ghost use Rattle.ordered_map.specs.declared.rule.Goal.TheVariants as goals;
ghost use Rattle.ordered_map.specs.declared.rule.Rule.{Rule as RuleOf};
ghost use Rattle.ordered_map.specs.declared.rule.Rule.TheVariants as rules;

use arena::Side;
use ordered_map::{Goal, Rule};
use template::Balance;

/// Where an edit goes.
pub trait EditGoal: Copy {
    /// As a value.
    ghost goal: { Self → GoalOf };

    /// Whether that is in a trie.
    ghost trie: { Self → Bool };

    /// As a value.
    fn goal(&self) -> Goal
        ensures { result ≡ goal self.now };

    /// Whether that is in a trie.
    fn in_trie(&self) -> bool
        ensures { result ≡ trie self.now };
}

/// To the same in a tree or in a trie, as its balance says.
#[derive(Clone, Copy, Debug, PartialEq, Eq)]
pub struct GoalIn<G, B> {
    pub goal: G,
    pub balance: B,
}

impl<G: EditGoal, B: Balance> EditGoal for GoalIn<G, B> {
    ghost goal = { λ g. G.goal g.goal };

    ghost trie = { λ g. B.trie g.balance };

    #[inline(always)]
    fn goal(&self) -> Goal {
        self.goal.goal()
    }

    #[inline(always)]
    fn in_trie(&self) -> bool {
        self.balance.in_trie()
    }
}

impl EditGoal for Goal {
    ghost goal = { λ g. g };

    ghost trie = { λ g. false };

    fn goal(&self) -> Goal {
        *self
    }

    fn in_trie(&self) -> bool {
        false
    }
}

/// To this key.
#[derive(Clone, Copy, Debug, PartialEq, Eq)]
pub struct AtKey(pub u64);

impl EditGoal for AtKey {
    ghost goal = { λ g. goals.Key g.0 };

    ghost trie = { λ g. false };

    #[inline(always)]
    fn in_trie(&self) -> bool {
        false
    }

    #[inline(always)]
    fn goal(&self) -> Goal {
        Goal::Key(self.0)
    }
}

/// To the pair with the least key.
#[derive(Clone, Copy, Debug, PartialEq, Eq)]
pub struct AtLeast;

impl EditGoal for AtLeast {
    ghost goal = { λ g. goals.End Left };

    ghost trie = { λ g. false };

    #[inline(always)]
    fn in_trie(&self) -> bool {
        false
    }

    #[inline(always)]
    fn goal(&self) -> Goal {
        Goal::End(Side::Left)
    }
}

/// To the pair with the greatest key.
#[derive(Clone, Copy, Debug, PartialEq, Eq)]
pub struct AtGreatest;

impl EditGoal for AtGreatest {
    ghost goal = { λ g. goals.End Right };

    ghost trie = { λ g. false };

    #[inline(always)]
    fn in_trie(&self) -> bool {
        false
    }

    #[inline(always)]
    fn goal(&self) -> Goal {
        Goal::End(Side::Right)
    }
}

/// What an edit makes of what it finds.
pub trait EditRule: Copy {
    /// As a value.
    ghost rule: { Self → RuleOf };

    /// Whether it changes anything where it finds this.
    fn applies(&self, found: Option<u128>) -> bool
        ensures { result ≡ applies (rule self.now) found };

    /// The value that it leaves then, if it leaves one.
    fn leaves(&self) -> Option<u128>
        ensures { result ≡ leaves (rule self.now) };
}

impl EditRule for Rule {
    ghost rule = { λ r. r };

    fn applies(&self, found: Option<u128>) -> bool {
        Rule::applies(self, found)
    }

    fn leaves(&self) -> Option<u128> {
        Rule::leaves(self)
    }
}

/// Puts this value in, whatever it finds.
#[derive(Clone, Copy, Debug, PartialEq, Eq)]
pub struct PutRule(pub u128);

impl EditRule for PutRule {
    ghost rule = { λ r. rules.Put r.0 };

    #[inline(always)]
    fn applies(&self, found: Option<u128>) -> bool {
        true
    }

    #[inline(always)]
    fn leaves(&self) -> Option<u128> {
        Some(self.0)
    }
}

/// Takes out what it finds.
#[derive(Clone, Copy, Debug, PartialEq, Eq)]
pub struct TakeRule;

impl EditRule for TakeRule {
    ghost rule = { λ r. rules.Take };

    #[inline(always)]
    fn applies(&self, found: Option<u128>) -> bool {
        found.is_some()
    }

    #[inline(always)]
    fn leaves(&self) -> Option<u128> {
        None
    }
}

/// Puts the value in the place of the expected one.
#[derive(Clone, Copy, Debug, PartialEq, Eq)]
pub struct SwapRule {
    pub expected: u128,
    pub value: u128,
}

impl EditRule for SwapRule {
    ghost rule = { λ r. rules.Swap r.expected r.value };

    #[inline(always)]
    fn applies(&self, found: Option<u128>) -> bool {
        found == Some(self.expected)
    }

    #[inline(always)]
    fn leaves(&self) -> Option<u128> {
        Some(self.value)
    }
}

/// Puts this value in where there is none.
#[derive(Clone, Copy, Debug, PartialEq, Eq)]
pub struct PutNewRule(pub u128);

impl EditRule for PutNewRule {
    ghost rule = { λ r. rules.PutNew r.0 };

    #[inline(always)]
    fn applies(&self, found: Option<u128>) -> bool {
        found.is_none()
    }

    #[inline(always)]
    fn leaves(&self) -> Option<u128> {
        Some(self.0)
    }
}

/// Takes this value out.
#[derive(Clone, Copy, Debug, PartialEq, Eq)]
pub struct TakeIfRule(pub u128);

impl EditRule for TakeIfRule {
    ghost rule = { λ r. rules.TakeIf r.0 };

    #[inline(always)]
    fn applies(&self, found: Option<u128>) -> bool {
        found == Some(self.0)
    }

    #[inline(always)]
    fn leaves(&self) -> Option<u128> {
        None
    }
}
