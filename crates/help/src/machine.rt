//! The steps of HELP.
ghost use Rattle.std.specs.Prelude.{◌≡◌, ℕ, ◌+◌, ◌<◌, ◌≤◌, IfSome, ◌-◌, true, false, ◌⊎◌, MatchOption};
ghost use Rattle.help.specs.Help.Known.{HelpAsks, HasNext, IsLast, MarksNext, MarksNone, node_at, first_place, HelpIsReady, HelpWaits, HelpAnswers};
ghost use Rattle.help.specs.Help.Steps.{help_left};

use crate::state::{HelpAt, HelpRun};
use arena::{
    ABORTED, Access, COMMITTED, Kind, Machine, MemberIndex, NodeNo, NodeWord, Plan, ScxWord, Shape,
    Step, Turn, Word,
};

impl HelpRun {
    ghost use Rattle.arena.specs.ScxRecords.{raw_count, plan_finalizes, field_index_of, side_of};
    ghost use Rattle.arena.specs.MemberIndex.{member_index};

    /// Asks for a step, and is at its place.
    fn ask(&mut self, at: HelpAt, kind: Kind, word: Word, access: Access) -> Turn<bool>
        ensures { HelpAsks self.old self.new result at record { kind = kind; word = word; access = access } }
    {
        self.at = at;
        Turn::Ask(Step { kind, word, access })
    }

    /// Loads one of the settled words of the SCX-record.
    fn load(&mut self, at: HelpAt, part: ScxWord) -> Turn<bool>
        ensures { HelpAsks self.old self.new result at record { kind = Kind.LoadSettled; word = Word.Scx self.old.scx part; access = Access.Load } }
    {
        self.ask(
            at,
            Kind::LoadSettled,
            Word::Scx(self.scx, part),
            Access::Load,
        )
    }

    fn freeze(&mut self, j: MemberIndex, seen: u64) -> Turn<bool>
        ensures { HelpAsks self.old self.new result (HelpAt.Freeze j seen) record {
          kind = Kind.Freeze;
          word = Word.Node record { 0 = node_at self.old.members (member_index j) } NodeWord.Info;
          access = Access.Exchange seen self.old.scx.0;
        } }
    {
        let info = Word::Node(self.members[j.index()], NodeWord::Info);
        let new = self.scx.0;
        let access = Access::Exchange {
            expected: seen,
            new,
        };
        self.ask(HelpAt::Freeze { j, seen }, Kind::Freeze, info, access)
    }

    /// Continues with the next node once the j-th is frozen.
    fn after_freeze(&mut self, j: MemberIndex) -> Turn<bool>
        ensures scx { self.new.scx ≡ self.old.scx }
        ensures nearer { help_left self.new.at < help_left (HelpAt.Freeze j 0) }
        ensures turn { HasNext self.old self.new result j ⊎ IsLast self.old self.new result j }
    {
        match self.plan.member_behind(j) {
            Some(j) => self.load(HelpAt::Member { j }, ScxWord::Member(j.number())),
            None => {
                let allfrozen = Word::Scx(self.scx, ScxWord::AllFrozen);
                self.ask(
                    HelpAt::SetFrozen,
                    Kind::SetFrozen,
                    allfrozen,
                    Access::Store(1),
                )
            }
        }
    }

    /// Looks whether `allfrozen` is set, where the info of the j-th node was not to be had.
    fn load_all_frozen(&mut self, j: MemberIndex, found: u64) -> Turn<bool>
        ensures { HelpAsks self.old self.new result (HelpAt.AllFrozen j found) record {
          kind = Kind.LoadAllFrozen;
          word = Word.Scx self.old.scx ScxWord.AllFrozen;
          access = Access.Load;
        } }
    {
        let allfrozen = Word::Scx(self.scx, ScxWord::AllFrozen);
        let at = HelpAt::AllFrozen { j, found };
        self.ask(at, Kind::LoadAllFrozen, allfrozen, Access::Load)
    }

    /// Marks the next node to be finalized, from this one on, or continues with the update.
    fn mark_from(&mut self, from: Option<MemberIndex>) -> Turn<bool>
        ensures scx { self.new.scx ≡ self.old.scx }
        ensures nearer { MatchOption from (help_left self.new.at < 4) (λ j. help_left self.new.at < 8 - member_index j) }
        ensures turn { MarksNext self.old self.new result (first_place from) ⊎
            MarksNone self.old self.new result (first_place from) }
    {
        match from.and_then(|j| self.plan.first_finalized_from(j)) {
            Some(j) => {
                let marked = Word::Node(self.members[j.index()], NodeWord::Marked);
                self.ask(HelpAt::Mark { j }, Kind::Mark, marked, Access::Store(1))
            }
            None => self.load(HelpAt::New, ScxWord::New),
        }
    }

    fn update(&mut self, old: u64, new: u64) -> Turn<bool>
        ensures { HelpAsks self.old self.new result HelpAt.Update record {
          kind = Kind.Update;
          word = Word.Node record { 0 = node_at self.old.members (field_index_of self.old.plan.0) } (NodeWord.Child (side_of self.old.plan.0));
          access = Access.Exchange old new;
        } }
    {
        let node = self.members[self.plan.at().index()];
        let field = Word::Node(node, NodeWord::Child(self.plan.side()));
        let access = Access::Exchange { expected: old, new };
        self.ask(HelpAt::Update, Kind::Update, field, access)
    }

    /// Stores that the SCX-record is finished.
    fn finish(&mut self, at: HelpAt, kind: Kind, state: u64) -> Turn<bool>
        ensures { HelpAsks self.old self.new result at record { kind = kind; word = Word.Scx self.old.scx ScxWord.State; access = Access.Store state } }
    {
        let word = Word::Scx(self.scx, ScxWord::State);
        self.ask(at, kind, word, Access::Store(state))
    }
}

impl<S: Shape> Machine<S> for HelpRun {
    type Answer = bool;

    ghost ready = { λ m c. HelpIsReady S.allows c.layout c.pass m };

    ghost waits = { λ m c. HelpWaits S.allows c.layout c.pass m };

    ghost answers = { λ m c. HelpAnswers c.layout c.pass m };

    ghost use Rattle.help.specs.Laws.Help.Kept.{help_keeps};
    ghost use Rattle.help.specs.Laws.Help.Made.{help_made};
    ghost use Rattle.help.specs.Laws.Help.Lawful.{help_lawful};

    ghost same = { λ old now. now.scx ≡ old.scx };

    ghost left = { λ m nodes. help_left m.at };

    ghost fits = { λ m got nodes. Unit {0} };

    ghost asks_first = { λ _. Unit {0} };

    fn next(&mut self, got: Option<u64>) -> Turn<bool> {
        let found = got.unwrap_or(0);
        match self.at {
            HelpAt::Start => self.load(HelpAt::Plan, ScxWord::Plan),
            HelpAt::Plan => {
                self.plan = Plan(found);
                let j = MemberIndex::First;
                self.load(HelpAt::Member { j }, ScxWord::Member(j.number()))
            }
            HelpAt::Member { j } => {
                self.members[j.index()] = NodeNo(found);
                self.load(HelpAt::Seen { j }, ScxWord::Seen(j.number()))
            }
            HelpAt::Seen { j } => self.freeze(j, found),
            HelpAt::Freeze { j, seen } => {
                if found == seen || found == self.scx.0 {
                    self.after_freeze(j)
                } else {
                    self.load_all_frozen(j, found)
                }
            }
            HelpAt::AllFrozen { j, found: other } => {
                if found == 0 {
                    self.finish(HelpAt::Abort { j, found: other }, Kind::Abort, ABORTED)
                } else {
                    Turn::Done(true)
                }
            }
            HelpAt::Abort { j: _, found: _ } => Turn::Done(false),
            HelpAt::SetFrozen => self.mark_from(Some(MemberIndex::First)),
            HelpAt::Mark { j } => self.mark_from(j.next()),
            HelpAt::New => self.load(HelpAt::Old { new: found }, ScxWord::Old),
            HelpAt::Old { new } => self.update(found, new),
            HelpAt::Update => self.finish(HelpAt::Commit, Kind::Commit, COMMITTED),
            HelpAt::Commit => Turn::Done(true),
        }
    }

    ghost keeps = { help_keeps S.allows };

    ghost lawful = { help_lawful S.allows };

    ghost made = { help_made S.allows };

    ghost told = { λ m c h got nodes run ready few. tt };
}
