//! The work of an update, whatever its place.
ghost use Rattle.edits.specs.Steps.{HasAsked, try_left, most_works, pieces_now};

use crate::edit::{Edit, Look, Nodes, Nth, Work};
use crate::piece::Piece;
use crate::reading::Reading;
use crate::update::{Next, Stop, UpdateRun};
use arena::{Full, NodeNo, Resource, ScxNo, SettledPart, Share, Slot};
use arrayvec::ArrayVec;
use prims::{ScxAt, ScxRun, Snap, SnapList, Snaps, Update};
use template::Found;

impl<E: Edit + Drop, A: Drop> UpdateRun<E, A> {
    ghost use Rattle.std.specs.Prelude.{◌≡◌, ℕ, ◌<◌, ◌≤◌, ◌*◌, ◌+◌, ◌-◌, length};
    ghost use Rattle.std.specs.Prelude.{◌≢◌, IfNone, IfSome, None, Some, Ok, true};
    ghost use Rattle.template.specs.FoundLeaf.{FoundBy};
    ghost use Rattle.edits.specs.Known.{HasNodesFor, HasTakenNodes, IsShort, IsFilledUpTo, CanScx};
    ghost use Rattle.edits.specs.Pieces.{fills_after, part_behind, less_a_node};
    ghost use Rattle.edits.specs.Readings.{is_at_pair, next_read, reads_left};
    ghost use Rattle.arena.specs.History.{History, value};
    ghost use Rattle.arena.specs.Machines.{Call, IsRun, begun_at};
    ghost use Rattle.prims.specs.FoundThere.{HasFoundThere};
    ghost use Rattle.prims.specs.Llx.Known.{IsSnapshot};
    ghost use Rattle.prims.specs.Shares.{share_end};
    ghost use Rattle.ordered_map.specs.TreeShape.{TreeAllows};
    ghost use Rattle.edits.specs.Edits.{all_looks, covering};
    ghost use Rattle.edits.specs.Known.{Guarded, MayBeginTry, IsUntouched, CanLook, CanWork, CanRead, Reads};
    ghost use Rattle.arena.specs.declared.word.NodeWord.{NodeWord};
    ghost use Rattle.arena.specs.declared.word.SettledPart.{SettledPart};
    ghost use Rattle.arena.specs.declared.word.Word.{Word};
    ghost use Rattle.edits.specs.Next.{IsSameUpdate, half_told, standing, update_of, UpdateGoesOn, ComesNearer, HasSpentForNext};
    ghost use Rattle.edits.specs.Tries.{IsTry, HasFilledNone};
    ghost use Rattle.prims.specs.Laws.Idle.{IsQuietSince};

    /// A run at this place, or at none, in the caller's call of this number.
    #[inline(always)]
    pub fn new(edit: E, share: Share, tries: u32, call: u64, at: A) -> UpdateRun<E, A>
        ensures place { result.at ≡ at }
        ensures share { result.share ≡ share }
        ensures edit { result.edit ≡ edit }
        ensures call { result.call ≡ call }
        ensures tries { result.tries ≡ tries - 1 }
        ensures limit { result.limit ≡ tries }
    {
        UpdateRun {
            edit,
            share,
            work: Work::none(),
            guard: Snap::default(),
            snaps: ArrayVec::new(),
            nodes: Nodes::default(),
            read: Reading::new(),
            tries: tries.saturating_sub(1),
            limit: tries,
            call,
            at,
        }
    }

    /// The same update, at this place or at none.
    #[inline(always)]
    pub fn placed_at<B>(self, at: B) -> UpdateRun<E, B>
        ensures { result ≡ standing self at }
    {
        UpdateRun {
            edit: self.edit,
            share: self.share,
            work: self.work,
            guard: self.guard,
            snaps: self.snaps,
            nodes: self.nodes,
            read: self.read,
            tries: self.tries,
            limit: self.limit,
            call: self.call,
            at,
        }
    }

    /// Gives the share back.
    #[inline(always)]
    pub fn into_share(self) -> Share
        ensures { result ≡ self.share }
    {
        self.share
    }

    /// Keeps the snapshot of its guard.
    #[inline(always)]
    pub fn guarded(&mut self, snap: Snap)
        ensures { self.new ≡ record self.old { guard = snap } }
    {
        self.guard = snap;
    }

    /// What the share lacks of the fresh nodes that are needed and an SCX-record.
    #[inline(always)]
    fn lacks(&self) -> Option<Full>
        ensures enough { 0 < self.now.work.need → IfNone result (HasNodesFor self.now.work.need self.now.share) }
        ensures short { IfSome result (λ full. IsShort self.now.work.need self.now.share full.what full.left) }
    {
        let (nodes, scx) = self.share.left();
        if nodes < self.work.need {
            let what = Resource::Nodes;
            return Some(Full { what, left: nodes });
        }
        if scx == 0 {
            let what = Resource::Scx;
            return Some(Full { what, left: scx });
        }
        None
    }

    /// What the try does after its walk, if the share has what the edit needs.
    #[inline(always)]
    pub fn test_share(&mut self, found: &Found) -> Result<Next, Stop>
        ensures turn { (c : Call) (b h : History) → IsRun TreeAllows c.layout h → IsTry c b h self.old.limit self.old.tries
            → IsUntouched c b self.old.share → MayBeginTry E.means self.old (begun_at c b) h → IsQuietSince c.layout c.pass b h
            → HasFilledNone c.pass h b
            → FoundBy (E.means.way self.old.edit) (E.means.goal self.old.edit) (begun_at c b) h found.now
            → Guarded E.means self.old.edit (begun_at c b) h self.old.guard
            (λ (k : Call). FoundBy (E.means.way self.old.edit) (E.means.goal self.old.edit) k h found.now)
            → UpdateGoesOn E.means c h self.new found.now result }
        ensures same { IsSameUpdate self.old self.new }
        ensures nearer { (nodes : ℕ) → ComesNearer E.means self.new found.now result nodes
            (self.old.tries * try_left E.means self.old.edit nodes + (64 * E.means.most_looks self.old.edit + most_works E.means self.old.edit + 39)) }
        ensures spends { HasSpentForNext E.means self.old.share self.new found.now result (self.old.tries + 1) (self.old.tries + 1) }
        ensures tries { self.new.tries ≡ self.old.tries }
    {
        self.work = self.edit.work(found);
        if self.work.need == 0 {
            return Err(Stop::Nothing);
        }
        if let Some(full) = self.lacks() {
            return Err(Stop::Full(full));
        }
        self.snaps.clear();
        self.look(found)
    }

    /// The next node that the edit names to be looked at, or what is done after the last.
    #[inline(always)]
    fn look(&mut self, found: &Found) -> Result<Next, Stop>
        ensures turn { (c : Call) (b h : History) → IsRun TreeAllows c.layout h → IsTry c b h self.old.limit self.old.tries
            → CanLook E.means self.old (begun_at c b) h found.now → UpdateGoesOn E.means c h self.new found.now result }
        ensures same { IsSameUpdate self.old self.new }
        ensures nearer { HasAsked E.means self.old found.now → (nodes : ℕ) → ComesNearer E.means self.new found.now result nodes
            (self.old.tries * try_left E.means self.old.edit nodes +
            (64 * (E.means.most_looks self.old.edit - length self.old.snaps.items) + most_works E.means self.old.edit + 39)) }
        ensures spends { HasAsked E.means self.old found.now
            → HasSpentForNext E.means self.old.share self.new found.now result (self.old.tries + 1) (self.old.tries + 1) }
        ensures tries { self.new.tries ≡ self.old.tries }
    {
        match self.edit.look(found, self.snaps.as_slice()) {
            Look::At(node) => Ok(Next::Look(node)),
            Look::Differs { node, scx } => Err(Stop::Lost { node, scx }),
            Look::Enough => Ok(self.begin_work(found)),
        }
    }

    /// Keeps a snapshot, and returns what is done next.
    #[inline(always)]
    pub fn looked(&mut self, found: &Found, snap: Snap) -> Result<Next, Stop>
        ensures turn { (c : Call) (b h : History) → IsRun TreeAllows c.layout h → IsTry c b h self.old.limit self.old.tries
            → CanLook E.means self.old (begun_at c b) h found.now
            → E.means.looks self.old.edit found.now self.old.snaps.items ≡ Look.At snap.node
            → IsSnapshot c.layout h snap.node.0 snap → HasFoundThere c.pass h b snap.node.0 snap.scx.0
            → UpdateGoesOn E.means c h self.new found.now result }
        ensures same { IsSameUpdate self.old self.new }
        ensures nearer { HasAsked E.means self.old found.now → (nodes : ℕ) → ComesNearer E.means self.new found.now result nodes
            (self.old.tries * try_left E.means self.old.edit nodes +
            (64 * (E.means.most_looks self.old.edit - 1 - length self.old.snaps.items) + most_works E.means self.old.edit + 39)) }
        ensures spends { HasAsked E.means self.old found.now
            → HasSpentForNext E.means self.old.share self.new found.now result (self.old.tries + 1) (self.old.tries + 1) }
        ensures tries { self.new.tries ≡ self.old.tries }
    {
        let _fits = self.snaps.try_push(snap);
        self.look(found)
    }

    /// Takes the fresh nodes, once all snapshots are there.
    #[inline(always)]
    fn begin_work(&mut self, found: &Found) -> Next
        ensures turn { (c : Call) (b h : History) → IsRun TreeAllows c.layout h → IsTry c b h self.old.limit self.old.tries
            → CanLook E.means self.old (begun_at c b) h found.now
            → E.means.looks self.old.edit found.now self.old.snaps.items ≡ Look.Enough
            → UpdateGoesOn E.means c h self.new found.now (Ok result) }
        ensures same { IsSameUpdate self.old self.new }
        ensures nearer { HasAsked E.means self.old found.now → (nodes : ℕ) →
            ComesNearer E.means self.new found.now (Ok result) nodes
            (self.old.tries * try_left E.means self.old.edit nodes + (most_works E.means self.old.edit + 39)) }
        ensures spends { HasAsked E.means self.old found.now
            → HasSpentForNext E.means self.old.share self.new found.now (Ok result) (self.old.tries + 1) (self.old.tries + 1) }
        ensures tries { self.new.tries ≡ self.old.tries }
    {
        self.take_nodes();
        self.begin_reading(found)
    }

    /// Takes as many as are needed.
    #[inline(always)]
    fn take_nodes(&mut self)
        ensures same { self.new ≡ record self.old { share = self.new.share; nodes = self.new.nodes } }
        ensures spent { ((most : ℕ) → 0 < most → self.old.work.need ≤ most → self.old.share.nodes ≤ self.new.share.nodes + most)
            × (self.new.share.scx ≡ self.old.share.scx) }
        ensures end { share_end self.new.share ≡ share_end self.old.share }
        ensures taken { HasNodesFor self.old.work.need self.old.share
            → HasTakenNodes self.old.work.need self.old.share self.new.share self.new.nodes }
    {
        self.nodes.first = self.take();
        if self.work.need < 2 {
            return;
        }
        self.nodes.second = self.take();
        if self.work.need < 3 {
            return;
        }
        self.nodes.third = self.take();
    }

    /// Takes a fresh node.
    #[inline(always)]
    fn take(&mut self) -> NodeNo
        ensures spent { (self.old.share.nodes ≤ self.new.share.nodes + 1) × (self.new.share.scx ≡ self.old.share.scx) }
        ensures taken { 0 < self.old.share.nodes →
            (result.0 ≡ self.old.share.next_node) × (self.new.share ≡ less_a_node self.old.share) }
        ensures end { share_end self.new.share ≡ share_end self.old.share }
        ensures same { self.new ≡ record self.old { share = self.new.share } }
        ensures tries { self.new.tries ≡ self.old.tries }
        ensures limit { self.new.limit ≡ self.old.limit }
    {
        match self.share.fresh() {
            Some(fresh) => fresh.node(),
            None => NodeNo(0),
        }
    }

    /// The first word that is read, or else the first fill.
    #[inline(always)]
    fn begin_reading(&mut self, found: &Found) -> Next
        ensures turn { (c : Call) (b h : History) → IsRun TreeAllows c.layout h → IsTry c b h self.old.limit self.old.tries
            → CanWork E.means self.old (begun_at c b) h found.now → UpdateGoesOn E.means c h self.new found.now (Ok result) }
        ensures same { IsSameUpdate self.old self.new }
        ensures nearer { HasAsked E.means self.old found.now → (nodes : ℕ) →
            ComesNearer E.means self.new found.now (Ok result) nodes
            (self.old.tries * try_left E.means self.old.edit nodes + (most_works E.means self.old.edit + 39)) }
        ensures spends { HasSpentForNext E.means self.old.share self.new found.now (Ok result) self.old.tries (self.old.tries + 1) }
        ensures tries { self.new.tries ≡ self.old.tries }
    {
        match self.edit.reads(found, self.snaps.as_slice()) {
            Some((node, known)) => {
                self.read.begin(known);
                self.read_next(found, node)
            }
            None => Next::Fill(Nth::First),
        }
    }

    /// The word of this node that is read next, or else the first fill.
    #[inline(always)]
    fn read_next(&self, found: &Found, node: NodeNo) -> Next
        ensures turn { (c : Call) (b h : History) → IsRun TreeAllows c.layout h → IsTry c b h self.now.limit self.now.tries
            → CanRead E.means self.now (begun_at c b) h found.now node → UpdateGoesOn E.means c h self.now found.now (Ok result) }
        ensures nearer { HasAsked E.means self.now found.now → (nodes : ℕ) →
            ComesNearer E.means self.now found.now (Ok result) nodes
            (self.now.tries * try_left E.means self.now.edit nodes + (reads_left self.now.read + E.means.most_fills self.now.edit + 39)) }
        ensures spends { HasSpentForNext E.means self.now.share self.now found.now (Ok result) self.now.tries (self.now.tries + 1) }
    {
        match self.read.next() {
            Some(part) => Next::Read { node, part },
            None => Next::Fill(Nth::First),
        }
    }

    /// Keeps what that load has found, and returns what is done next.
    #[inline(always)]
    pub fn read_on(&mut self, found: &Found, node: NodeNo, part: SettledPart, told: u64) -> Next
        ensures turn { (c : Call) (b h : History) → IsRun TreeAllows c.layout h → IsTry c b h self.old.limit self.old.tries
            → Reads E.means self.old (begun_at c b) h found.now node part
            → value h (Word.Node node (NodeWord.Settled part)) ≡ told → UpdateGoesOn E.means c h self.new found.now (Ok result) }
        ensures same { IsSameUpdate self.old self.new }
        ensures nearer { HasAsked E.means self.old found.now → (nodes : ℕ) → next_read self.old.read ≡ Some part
            → ComesNearer E.means self.new found.now (Ok result) nodes
            (self.old.tries * try_left E.means self.old.edit nodes + (reads_left self.old.read - 1 + E.means.most_fills self.old.edit + 39)) }
        ensures spends { HasSpentForNext E.means self.old.share self.new found.now (Ok result) self.old.tries (self.old.tries + 1) }
        ensures tries { self.new.tries ≡ self.old.tries }
    {
        self.read.keep(part, told);
        self.read_next(found, node)
    }

    /// Keeps what the loads of key, value and high half of the pair in this slot of a leaf have
    /// found, and returns what is done after the last of them, as `read_on` of each would.
    #[inline(always)]
    pub fn read_pair(
        &mut self,
        found: &Found,
        node: NodeNo,
        slot: Slot,
        key: u64,
        low: u64,
        high: u64,
    ) -> Next
        requires pair { is_at_pair self.old.read ≡ true }
        ensures turn { (c : Call) (b h : History) → IsRun TreeAllows c.layout h → IsTry c b h self.old.limit self.old.tries
            → Reads E.means (half_told self.old slot key low) (begun_at c b) h found.now node (SettledPart.High slot)
            → value h (Word.Node node (NodeWord.Settled (SettledPart.High slot))) ≡ high
            → UpdateGoesOn E.means c h self.new found.now (Ok result) }
        ensures same { IsSameUpdate self.old self.new }
        ensures nearer { HasAsked E.means self.old found.now → (nodes : ℕ) →
            next_read (half_told self.old slot key low).read ≡ Some (SettledPart.High slot)
            → ComesNearer E.means self.new found.now (Ok result) nodes
            (self.old.tries * try_left E.means self.old.edit nodes +
            (reads_left (half_told self.old slot key low).read - 1 + E.means.most_fills self.old.edit + 39)) }
        ensures spends { HasSpentForNext E.means self.old.share self.new found.now (Ok result) self.old.tries (self.old.tries + 1) }
        ensures tries { self.new.tries ≡ self.old.tries }
        ensures at_pair { is_at_pair self.new.read ≡ true }
    {
        match self.read.keep_pair(slot, key, low, high) {
            Some(slot) => {
                let part = SettledPart::Key(slot);
                Next::Read { node, part }
            }
            None => Next::Fill(Nth::First),
        }
    }

    /// What is done once the fresh node of this place is filled: with the next node, or the SCX.
    #[inline(always)]
    pub fn filled(&mut self, found: &Found, nth: Nth) -> Result<Next, Stop>
        ensures turn { (c : Call) (b h : History) (part : NodeWord) → IsRun TreeAllows c.layout h
            → IsTry c b h self.old.limit self.old.tries → IsFilledUpTo E.means self.old (begun_at c b) h found.now nth part
            → part_behind (pieces_now E.means self.old found.now nth) part ≡ None
            → UpdateGoesOn E.means c h self.new found.now result }
        ensures same { IsSameUpdate self.old self.new }
        ensures nearer { (nodes : ℕ) → ComesNearer E.means self.new found.now result nodes
            (self.old.tries * try_left E.means self.old.edit nodes +
            (fills_after self.old.work.need (pieces_now E.means self.old found.now) nth + 39)) }
        ensures spends { 0 < self.old.share.scx →
            HasSpentForNext E.means self.old.share self.new found.now result self.old.tries (self.old.tries + 1) }
        ensures tries { self.new.tries ≡ self.old.tries }
    {
        match nth.behind(self.work.need) {
            Some(after) => Ok(Next::Fill(after)),
            None => self.take_scx(found),
        }
    }

    /// Puts the snapshot of its guard behind the others, if it has one.
    #[inline(always)]
    fn cover(&mut self)
        ensures same { self.new ≡ record self.old { snaps = self.new.snaps } }
        ensures all { all_looks (E.means.guard self.old.edit) (length self.old.snaps.items) ≤ 4
            → self.new.snaps.items ≡ covering (E.means.guard self.old.edit) self.old.snaps.items self.old.guard }
    {
        if self.edit.guard() {
            let _fits = self.snaps.try_push(self.guard);
        }
    }

    /// Takes an SCX-record, once its snapshots are all there.
    #[inline(always)]
    fn take_scx(&mut self, found: &Found) -> Result<Next, Stop>
        ensures turn { (c : Call) (b h : History) → IsRun TreeAllows c.layout h → IsTry c b h self.old.limit self.old.tries
            → CanScx E.means self.old (begun_at c b) h found.now → UpdateGoesOn E.means c h self.new found.now result }
        ensures same { IsSameUpdate self.old self.new }
        ensures nearer { (nodes : ℕ) →
            ComesNearer E.means self.new found.now result nodes (self.old.tries * try_left E.means self.old.edit nodes + 39) }
        ensures spends { 0 < self.old.share.scx →
            HasSpentForNext E.means self.old.share self.new found.now result self.old.tries (self.old.tries + 1) }
        ensures tries { self.new.tries ≡ self.old.tries }
    {
        match self.share.scx() {
            Some(scx) => {
                self.cover();
                Ok(Next::Change(scx))
            }
            None => {
                let what = Resource::Scx;
                Err(Stop::Full(Full { what, left: 0 }))
            }
        }
    }

    /// What the fresh node of this place is to hold.
    #[inline(always)]
    pub fn piece(&self, found: &Found, nth: Nth) -> Piece
        ensures { result ≡ pieces_now E.means self.now found.now nth }
    {
        let snaps = self.snaps.as_slice();
        self.edit.piece(found, snaps, &self.nodes, &self.read, nth)
    }

    /// What the field of its SCX holds until then, as the snapshot of its node shows it.
    #[inline(always)]
    pub fn old(&self) -> NodeNo
        ensures { result ≡ (update_of self.now).old }
    {
        let plan = self.work.plan;
        let snaps = self.snaps.as_slice();
        SnapList::get(&snaps, plan.at().index()).child(plan.side())
    }

    /// What that field gets: the last fresh node.
    #[inline(always)]
    pub fn fresh(&self) -> NodeNo
        ensures { result ≡ (update_of self.now).fresh }
    {
        self.nodes.last(self.work.need)
    }

    /// What its SCX is to do.
    fn update(&self) -> Update
        ensures { result ≡ update_of self.now }
    {
        Update {
            snaps: Snaps::new(self.snaps.as_slice()),
            plan: self.work.plan,
            old: self.old(),
            fresh: self.fresh(),
        }
    }

    /// Its SCX with this SCX-record, at this place.
    pub(crate) fn scx_run(&self, scx: ScxNo, at: ScxAt) -> ScxRun
        ensures { result ≡ record { scx = scx; call = self.now.call; update = update_of self.now; at = at } }
    {
        ScxRun {
            scx,
            call: self.call,
            update: self.update(),
            at,
        }
    }
}
