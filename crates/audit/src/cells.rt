//! Calls of cells: what their entries do, and what their answers say.
ghost use Rattle.std.specs.Prelude.{◌≡◌, ℕ, ◌<◌, [], ◌∷◌, List, slice_get, true, false, Option, Some, IsSome, IfSome, IfNone, IsTrue};
ghost use Rattle.record.specs.Common.{Call as CallOf, cells_of, IsAsSnapped, IsInTheWay, IsEntryFor, IsPlaced, next_command, linked, AreLinked, IsFirstUnlinked, IsLastLook, begin, start};
ghost use Rattle.histories.specs.Common.{Layout, Row as StepRow, Freeze, Records, Side as SideOf, HasFailed, History, value, IsWin, log, last, has, is_final, entry as entered, plan as plan_of, member as member_of, new as new_of, side_of, field_index, plan_finalizes, child, scx as scx_of, Kind as KindOf};
ghost use Rattle.record.specs.declared.record.Line.{Line};
ghost use Rattle.record.specs.declared.record.Finished.{Finished};
ghost use Rattle.audit.specs.declared.memory.FoundInfo.{FoundInfo as LookOf};
ghost use Rattle.record.specs.Answers.{AreUnchanged, HasRoom, IsPlacedCell, IsSnapshotAt, moment_of as moment_in};
ghost use Rattle.record.specs.Rules.Llx.{LlxIsRight};
ghost use Rattle.record.specs.Rules.Scx.{ScxIsRight, IsScxEntry};
ghost use Rattle.record.specs.Rules.Set.{SetIsRight, IsSetEntry};
ghost use Rattle.record.specs.Rules.Vlx.{VlxIsRight};
ghost use Rattle.record.specs.Snapshots.{IsBehindAll};
ghost use Rattle.judge.specs.Histories.{seen_history};
ghost use Rattle.audit.specs.Asked.{IsRightAfter};
ghost use Rattle.audit.specs.After.{IsClientAfter};
ghost use Rattle.audit.specs.CellCalls.{AreSameAt, IsCallSeen, IsLookAt, IsOwnLook, IsAsLooked, IsOverCells, IsFreshWith};
ghost use Rattle.audit.specs.Remembered.{AreStepsOf, AreRemembered, AreSnapshotsOf, IsLookOf};

use crate::client::ClientState;
use crate::leaves::node_word;
use crate::memory::{FoundInfo, Memory};
use crate::steps::Steps;
use arena::{
    MemberIndex, NodeNo, NodeWord, PassNo, Plan, ScxNo, ScxWord, SettledPart, Side, Slot, Word,
};
use judge::{Judge, is_own_node};
use record::{Answer, Finished};
use script::{Cell, CellList, CellUpdate, Command};

/// Whether an entry of this SCX-record is one that the client's call of cells makes.
pub(crate) fn is_entry_for(
    steps: &Steps,
    client: &ClientState,
    command: &Command,
    scx: ScxNo,
) -> bool
    requires { client.now.pass.0 < steps.now.judge.layout.passes }
    ensures { (lay : Layout) (calls : List CallOf) (lines : List Line) →
        AreRemembered lay calls lines steps.now →
        client.now.begun ≡ begin lines client.now.pass.0 → (row : StepRow) (n : ℕ) (side : SideOf) →
        IsWin (seen_history steps.now.judge) row scx.0 → row.word ≡ child n side → IsTrue result →
        IsEntryFor lay client.now.pass.0 (seen_history steps.now.judge)
        (start lay.mode lines client.now.pass.0)
        (linked calls lay.mode lines client.now.pass.0)
        (entered lay (seen_history steps.now.judge) scx.0 n side row.after) command.now }
{
    match command {
        Command::Scx(update) => is_scx_entry(steps, client, update, scx),
        Command::Set { field, value } => is_set_entry(steps, client, field, *value, scx),
        _ => false,
    }
}

/// Whether it is one that an SCX with this update makes.
fn is_scx_entry(steps: &Steps, client: &ClientState, update: &CellUpdate, scx: ScxNo) -> bool
    requires { client.now.pass.0 < steps.now.judge.layout.passes }
    ensures { (lay : Layout) (calls : List CallOf) (lines : List Line) →
        AreRemembered lay calls lines steps.now →
        (row : StepRow) (n : ℕ) (side : SideOf) → IsWin (seen_history steps.now.judge) row scx.0 →
        row.word ≡ child n side →
        IsTrue result → IsScxEntry update.now lay client.now.pass.0 (seen_history steps.now.judge)
        (start lay.mode lines client.now.pass.0) (linked calls lay.mode lines client.now.pass.0)
        (entered lay (seen_history steps.now.judge) scx.0 n side row.after) }
{
    let (judge, memory) = (&steps.judge, steps.memory(client.pass));
    is_over(judge, scx, update.cells(), update.finalize())
        && is_into(judge, scx, &update.field())
        && is_fresh(judge, client.pass, scx, update.value())
        && are_unchanged(judge, &memory, update.cells())
}

/// Whether it is one that a `set` of this field makes.
fn is_set_entry(
    steps: &Steps,
    client: &ClientState,
    field: &(Cell, Side),
    value: u64,
    scx: ScxNo,
) -> bool
    requires { client.now.pass.0 < steps.now.judge.layout.passes }
    ensures { (lay : Layout) (calls : List CallOf) (lines : List Line) →
        AreRemembered lay calls lines steps.now →
        client.now.begun ≡ begin lines client.now.pass.0 → (row : StepRow) (n : ℕ) (side : SideOf) →
        IsWin (seen_history steps.now.judge) row scx.0 → row.word ≡ child n side → IsTrue result →
        IsSetEntry field.now value lay client.now.pass.0 (seen_history steps.now.judge)
        (start lay.mode lines client.now.pass.0)
        (linked calls lay.mode lines client.now.pass.0)
        (entered lay (seen_history steps.now.judge) scx.0 n side row.after) }
{
    let (judge, memory) = (&steps.judge, steps.memory(client.pass));
    let cell = CellList::one(field.0);
    is_over(judge, scx, cell.as_slice(), &[])
        && is_into(judge, scx, field)
        && is_fresh(judge, client.pass, scx, value)
        && client.begun.is_some()
        && is_as_looked(judge, &memory, field.0.node())
}

fn scx_word(judge: &Judge, scx: ScxNo, part: ScxWord) -> u64
    ensures { result ≡ value (seen_history judge.now) (scx_of scx.0 part) }
{
    judge.get(Word::Scx(scx, part))
}

/// What an SCX-record covers, finalizes and changes.
fn plan(judge: &Judge, scx: ScxNo) -> Plan
    ensures { result.0 ≡ plan_of (seen_history judge.now) scx.0 }
{
    Plan(scx_word(judge, scx, ScxWord::Plan))
}

/// Whether an SCX-record covers just these cells in this order, and finalizes those of them that
/// are in the second list.
fn is_over(judge: &Judge, scx: ScxNo, cells: &[Cell], finalized: &[Cell]) -> bool
    requires { (n : ℕ) → has finalized.now n ≡ true → has cells.now n ≡ true }
    ensures { IsTrue result → IsOverCells (seen_history judge.now) scx.0 cells.now finalized.now }
{
    let plan = plan(judge, scx);
    if usize::from(plan.count()) != cells.len() {
        return false;
    }
    for place in 0..plan.count() {
        let cell = cells[usize::from(place)];
        if scx_word(judge, scx, ScxWord::Member(place)) != cell.node().0
            || finalizes(plan, place) != is_among(finalized, cell.node())
        {
            return false;
        }
    }
    true
}

fn finalizes(plan: Plan, place: u8) -> bool
    requires { place < 4 }
    ensures { result ≡ plan_finalizes plan.0 place }
{
    match MemberIndex::new(place.into()) {
        Some(index) => plan.finalizes(index),
        None => false,
    }
}

/// Whether an SCX-record changes this field.
fn is_into(judge: &Judge, scx: ScxNo, field: &(Cell, Side)) -> bool
    ensures node { IsTrue result →
        member_of (seen_history judge.now) scx.0
        (field_index (seen_history judge.now) scx.0) ≡ field.now.0 }
    ensures side { IsTrue result → side_of (plan_of (seen_history judge.now) scx.0) ≡ field.now.1 }
{
    let plan = plan(judge, scx);
    let node = scx_word(judge, scx, ScxWord::Member(plan.at().number()));
    node == field.0.node().0 && plan.side() == field.1
}

/// Whether the new node of an SCX-record is of the client's share and has this value, and its
/// fields are 0.
fn is_fresh(judge: &Judge, pass: PassNo, scx: ScxNo, value: u64) -> bool
    requires { pass.0 < judge.now.layout.passes }
    ensures { IsTrue result →
        IsFreshWith judge.now.layout pass.0 (seen_history judge.now)
        (new_of (seen_history judge.now) scx.0) value }
{
    let new = scx_word(judge, scx, ScxWord::New);
    is_own_node(judge.layout(), pass, new)
        && node_word(
            judge,
            new,
            NodeWord::Settled(SettledPart::Value(Slot::First)),
        ) == value
        && node_word(judge, new, NodeWord::Child(Side::Left)) == 0
        && node_word(judge, new, NodeWord::Child(Side::Right)) == 0
}

/// Whether a cell is under no entry later than this one, and not final.
fn is_unchanged(judge: &Judge, cell: NodeNo, entry: u64) -> bool
    ensures last { IsTrue result →
        last (log judge.now.layout (seen_history judge.now)) cell.0 ≡ entry }
    ensures not_final { IsTrue result →
        is_final (log judge.now.layout (seen_history judge.now)) cell.0 ≡ false }
{
    judge.last(cell) == entry && !judge.is_final(cell)
}

/// Whether a cell is as the client's snapshot says.
fn is_as_snapped(judge: &Judge, memory: &Memory, cell: NodeNo) -> bool
    ensures { (linked : ℕ → Option History) →
        AreSnapshotsOf judge.now.layout (seen_history judge.now) memory.now linked → IsTrue result →
        IsAsSnapped judge.now.layout (seen_history judge.now) linked cell.0 }
{
    match memory.snapshot(cell) {
        Some(kept) => is_unchanged(judge, cell, kept.last),
        None => false,
    }
}

fn are_unchanged(judge: &Judge, memory: &Memory, cells: &[Cell]) -> bool
    ensures { (linked : ℕ → Option History) →
        AreSnapshotsOf judge.now.layout (seen_history judge.now) memory.now linked → IsTrue result →
        AreUnchanged judge.now.layout (seen_history judge.now) linked cells.now }
{
    for cell in cells {
        if !is_as_snapped(judge, memory, cell.node()) {
            return false;
        }
    }
    true
}

/// The last look of the call's own LLX, if it was at this cell.
fn own_look(memory: &Memory, cell: NodeNo) -> Option<FoundInfo>
    ensures { IfSome result (λ look. IsOwnLook memory.now cell.0 look) }
{
    match memory.look {
        Some(look) if memory.begun < look.steps && look.node == cell => Some(look),
        _ => None,
    }
}

/// Whether a cell is as the last look of the call's own LLX has found it.
fn is_as_looked(judge: &Judge, memory: &Memory, cell: NodeNo) -> bool
    ensures { (c : ℕ) (start : History) (linked : ℕ → Option History) →
        IsCallSeen judge.now.layout c
        (seen_history judge.now) start linked memory.now → IsTrue result →
        IsAsLooked judge.now.layout c (seen_history judge.now) start cell.0 }
{
    match own_look(memory, cell) {
        Some(look) => is_unchanged(judge, cell, look.last),
        None => false,
    }
}

/// Of each of the cells of a `vlx`: whether it is as the client's snapshot says.
pub(crate) fn same_cells(judge: &Judge, memory: &Memory, cells: &[Cell]) -> [bool; 4]
    ensures { (linked : ℕ → Option History) →
        AreSnapshotsOf judge.now.layout (seen_history judge.now) memory.now linked →
        AreSameAt judge.now.layout (seen_history judge.now) linked cells.now result }
{
    [
        is_same(judge, memory, cells, 0),
        is_same(judge, memory, cells, 1),
        is_same(judge, memory, cells, 2),
        is_same(judge, memory, cells, 3),
    ]
}

/// Whether the cell at a place is, if there is one.
fn is_same(judge: &Judge, memory: &Memory, cells: &[Cell], place: usize) -> bool
    ensures { (linked : ℕ → Option History) →
        AreSnapshotsOf judge.now.layout (seen_history judge.now) memory.now linked → IsTrue result →
        (n : ℕ) → slice_get cells.now place ≡ Some n →
        IsAsSnapped judge.now.layout (seen_history judge.now) linked n }
{
    match cells.get(place) {
        Some(cell) => is_as_snapped(judge, memory, cell.node()),
        None => false,
    }
}

/// Whether the answer of a call of cells is right, and took place where the reply says.
pub(crate) fn is_right(
    steps: &Steps,
    client: &ClientState,
    command: &Command,
    reply: &Finished,
) -> bool
    requires pass { client.now.pass.0 < steps.now.judge.layout.passes }
    requires cells { steps.now.judge.layout.mode ≡ Records }
    ensures right { (lay : Layout) (tries : ℕ) (calls : List CallOf) (lines : List Line) →
        AreRemembered lay calls lines steps.now →
        IsSome (begin lines client.now.pass.0) →
        next_command calls lines client.now.pass.0 ≡ Some command.now → IsTrue result →
        IsRightAfter lay tries calls lines client.now.pass.0 command.now reply.now.answer }
    ensures placed { (lay : Layout) (calls : List CallOf) (lines : List Line) →
        IsClientAfter lay calls lines reply.now.client.0 client.now → IsTrue result →
        IsPlaced lay calls lines reply.now command.now }
{
    reply.moment == moment_of(client, reply) && is_true(steps, client.pass, command, &reply.answer)
}

/// Where an answered call of cells took place: an LLX that says something in its last turn, a VLX
/// that found its cells as they were in its first, an SCX that is done in the turn of its entry.
fn moment_of(client: &ClientState, reply: &Finished) -> Option<u64>
    ensures { result ≡ moment_in reply.now.answer reply.now.begin reply.now.end client.now.won }
{
    match &reply.answer {
        Answer::Snapshot { .. } | Answer::Finalized => Some(reply.end),
        Answer::Same => Some(reply.begin),
        Answer::Done => client.won,
        _ => None,
    }
}

/// Whether an answer is true of the steps of the call.
fn is_true(steps: &Steps, pass: PassNo, command: &Command, answer: &Answer) -> bool
    requires pass { pass.0 < steps.now.judge.layout.passes }
    requires cells { steps.now.judge.layout.mode ≡ Records }
    ensures right { (lay : Layout) (tries : ℕ) (calls : List CallOf) (lines : List Line) →
        AreRemembered lay calls lines steps.now →
        IsSome (begin lines pass.0) →
        next_command calls lines pass.0 ≡ Some command.now → IsTrue result →
        IsRightAfter lay tries calls lines pass.0 command.now answer.now }
    ensures placed { (lay : Layout) (calls : List CallOf) (lines : List Line)
        (reply : Finished) → IsTrue result →
        IsPlacedCell lay lines reply → IsPlaced lay calls lines reply command.now }
{
    let memory = steps.memory(pass);
    match command {
        Command::Llx { cell } => is_true_of_llx(steps, pass, &memory, *cell, answer),
        Command::Scx(update) => is_true_of_scx(steps, pass, &memory, update, answer),
        Command::Vlx { cells } => is_true_of_vlx(steps, pass, &memory, cells, answer),
        Command::Set { field, value: _ } => is_true_of_set(steps, pass, &memory, field.0, answer),
        _ => false,
    }
}

fn is_true_of_llx(steps: &Steps, pass: PassNo, memory: &Memory, cell: Cell, answer: &Answer) -> bool
    requires { steps.now.judge.layout.mode ≡ Records }
    ensures { (start : History) (linked : ℕ → Option History) →
        AreStepsOf steps.now.judge.layout (seen_history steps.now.judge) steps.now →
        IsCallSeen steps.now.judge.layout pass.0
        (seen_history steps.now.judge) start linked memory.now → IsTrue result →
        LlxIsRight cell steps.now.judge.layout pass.0
        (seen_history steps.now.judge) start linked answer.now }
{
    match answer {
        Answer::Snapshot { left, right } => is_snapshot(&steps.judge, cell.node(), (*left, *right)),
        Answer::Finalized => steps.judge.is_final(cell.node()),
        Answer::Fail { node, scx } => {
            *node == cell.node() && has_failed(steps, pass, memory, cell, *scx)
        }
        _ => false,
    }
}

/// Whether these are the fields of a cell, which is not final.
fn is_snapshot(judge: &Judge, cell: NodeNo, fields: (NodeNo, NodeNo)) -> bool
    ensures { IsTrue result →
        IsSnapshotAt judge.now.layout (seen_history judge.now) cell.0 fields.0.0 fields.1.0 }
{
    judge.laws_hold();
    !judge.is_final(cell)
        && node_word(judge, cell.0, NodeWord::Child(Side::Left)) == fields.0.0
        && node_word(judge, cell.0, NodeWord::Child(Side::Right)) == fields.1.0
}

/// Whether an LLX of a cell was right to fail: its last look at the cell's info has found the
/// SCX-record, which is another's, was in progress over the cell since the call's start and is
/// finished; and the cell was not final at the start.
fn has_failed(steps: &Steps, pass: PassNo, memory: &Memory, cell: Cell, scx: ScxNo) -> bool
    requires { steps.now.judge.layout.mode ≡ Records }
    ensures { (start : History) (linked : ℕ → Option History) →
        AreStepsOf steps.now.judge.layout (seen_history steps.now.judge) steps.now →
        IsCallSeen steps.now.judge.layout pass.0
        (seen_history steps.now.judge) start linked memory.now → IsTrue result →
        HasFailed steps.now.judge.layout pass.0 (seen_history steps.now.judge) start cell scx.0 }
{
    let blamed = (cell.node(), scx);
    has_found(memory.look, blamed, memory.begun)
        && steps.was_in_the_way(pass, blamed, memory.begun)
        && scx_word(&steps.judge, scx, ScxWord::State) != 0
        && !steps.was_final(blamed.0, memory.begun)
}

/// Whether the last look of a kind was made after the first `after` steps, at a node where it found
/// an SCX-record.
fn has_found(look: Option<FoundInfo>, blamed: (NodeNo, ScxNo), after: u64) -> bool
    ensures { IsTrue result → IsLookAt look blamed.0.0 blamed.1.0 after }
{
    match look {
        Some(look) => after < look.steps && look.node == blamed.0 && look.found == blamed.1.0,
        None => false,
    }
}

fn had_room(memory: &Memory) -> bool
    ensures { (lay : Layout) (c : ℕ) (h start : History) (linked : ℕ → Option History) →
        IsCallSeen lay c h start linked memory.now →
        IsTrue result → HasRoom lay c start }
{
    memory.nodes > 0 && memory.scx > 0
}

fn is_true_of_scx(
    steps: &Steps,
    pass: PassNo,
    memory: &Memory,
    update: &CellUpdate,
    answer: &Answer,
) -> bool
    requires { pass.0 < steps.now.judge.layout.passes }
    ensures { (start : History) (linked : ℕ → Option History) →
        AreStepsOf steps.now.judge.layout (seen_history steps.now.judge) steps.now →
        IsCallSeen steps.now.judge.layout pass.0
        (seen_history steps.now.judge) start linked memory.now → IsTrue result →
        ScxIsRight update.now steps.now.judge.layout pass.0
        (seen_history steps.now.judge) start linked answer.now }
{
    let cells = update.cells();
    match answer {
        Answer::Unlinked { node } => first_unlinked(memory, cells) == Some(*node),
        Answer::Full { what, left } => {
            are_linked(memory, cells) && steps.has_too_few(pass, 1, (*what, *left))
        }
        Answer::Lost { node, scx } => {
            had_room(memory)
                && are_linked(memory, cells)
                && has_come(steps, pass, memory, memory.freeze, cells, (*node, *scx))
        }
        Answer::Done => had_room(memory),
        _ => false,
    }
}

fn is_true_of_vlx(
    steps: &Steps,
    pass: PassNo,
    memory: &Memory,
    cells: &CellList,
    answer: &Answer,
) -> bool
    ensures { (start : History) (linked : ℕ → Option History) →
        AreStepsOf steps.now.judge.layout (seen_history steps.now.judge) steps.now →
        IsCallSeen steps.now.judge.layout pass.0
        (seen_history steps.now.judge) start linked memory.now →
        AreSameAt steps.now.judge.layout start linked
        (cells_of cells.now) memory.now.same → IsTrue result →
        VlxIsRight cells.now steps.now.judge.layout pass.0
        (seen_history steps.now.judge) start linked answer.now }
{
    let cells = cells.as_slice();
    match answer {
        Answer::Unlinked { node } => first_unlinked(memory, cells) == Some(*node),
        Answer::Same => are_all_like(memory.same, cells),
        Answer::Changed { node, scx } => {
            are_linked(memory, cells)
                && is_behind_all_like(memory.same, cells, *node)
                && has_come(steps, pass, memory, memory.look, cells, (*node, *scx))
        }
        _ => false,
    }
}

fn is_true_of_set(steps: &Steps, pass: PassNo, memory: &Memory, cell: Cell, answer: &Answer) -> bool
    requires pass { pass.0 < steps.now.judge.layout.passes }
    requires cells { steps.now.judge.layout.mode ≡ Records }
    ensures { (start : History) (linked : ℕ → Option History) (side : SideOf) (x : ℕ) →
        AreStepsOf steps.now.judge.layout (seen_history steps.now.judge) steps.now →
        IsCallSeen steps.now.judge.layout pass.0
        (seen_history steps.now.judge) start linked memory.now → IsTrue result →
        SetIsRight (cell, side) x steps.now.judge.layout pass.0
        (seen_history steps.now.judge) start linked answer.now }
{
    match answer {
        Answer::Finalized => steps.judge.is_final(cell.node()),
        Answer::Fail { node, scx } => {
            *node == cell.node() && has_failed(steps, pass, memory, cell, *scx)
        }
        Answer::Full { what, left } => {
            has_just_looked(steps, memory, cell.node())
                && steps.has_too_few(pass, 1, (*what, *left))
        }
        Answer::Lost { node, scx } => {
            had_room(memory) && *node == cell.node() && has_lost(steps, pass, memory, cell, *scx)
        }
        Answer::Done => had_room(memory),
        _ => false,
    }
}

/// Whether the last step of all is the client's look at a cell's info, in this call, and the cell
/// is not final.
fn has_just_looked(steps: &Steps, memory: &Memory, cell: NodeNo) -> bool
    ensures look { (c : ℕ) (start : History) (linked : ℕ → Option History) →
        AreStepsOf steps.now.judge.layout (seen_history steps.now.judge) steps.now →
        IsCallSeen steps.now.judge.layout c
        (seen_history steps.now.judge) start linked memory.now → IsTrue result →
        IsLastLook c (seen_history steps.now.judge) start (seen_history steps.now.judge) cell.0 }
    ensures not_final { IsTrue result →
        is_final (log steps.now.judge.layout (seen_history steps.now.judge)) cell.0 ≡ false }
{
    match own_look(memory, cell) {
        Some(look) => look.steps == steps.count && !steps.judge.is_final(cell),
        None => false,
    }
}

/// Whether the SCX of a `set` was lost to another: its last freeze has found it in the cell's info,
/// and it was in progress over the cell since the last look of the call's LLX, at which the cell
/// was not final.
fn has_lost(steps: &Steps, pass: PassNo, memory: &Memory, cell: Cell, scx: ScxNo) -> bool
    requires { steps.now.judge.layout.mode ≡ Records }
    ensures { (start : History) (linked : ℕ → Option History) →
        AreStepsOf steps.now.judge.layout (seen_history steps.now.judge) steps.now →
        IsCallSeen steps.now.judge.layout pass.0
        (seen_history steps.now.judge) start linked memory.now → IsTrue result →
        IsInTheWay steps.now.judge.layout pass.0 (seen_history steps.now.judge) start Freeze
        (cell ∷ []) cell scx.0 (λ moment.
        IsLastLook pass.0 (seen_history steps.now.judge) start moment cell
        × (is_final (log steps.now.judge.layout moment) cell ≡ false)) }
{
    let blamed = (cell.node(), scx);
    match own_look(memory, blamed.0) {
        Some(look) => {
            !steps.was_final(blamed.0, look.steps)
                && has_found(memory.freeze, blamed, memory.begun)
                && steps.was_in_the_way(pass, blamed, look.steps)
        }
        None => false,
    }
}

/// Whether another's SCX-record has reached one of the cells since its snapshot, as this last look
/// of the call has found.
fn has_come(
    steps: &Steps,
    pass: PassNo,
    memory: &Memory,
    look: Option<FoundInfo>,
    cells: &[Cell],
    blamed: (NodeNo, ScxNo),
) -> bool
    ensures { (kind : KindOf) (start : History) (linked : ℕ → Option History) →
        AreStepsOf steps.now.judge.layout (seen_history steps.now.judge) steps.now →
        IsCallSeen steps.now.judge.layout pass.0
        (seen_history steps.now.judge) start linked memory.now →
        ((kept : LookOf) → look ≡ Some kept →
        IsLookOf steps.now.judge.layout (seen_history steps.now.judge) pass.0 kind kept) →
        IsTrue result →
        IsInTheWay steps.now.judge.layout pass.0
        (seen_history steps.now.judge) start kind cells.now blamed.0.0 blamed.1.0
        (λ moment. linked blamed.0.0 ≡ Some moment) }
{
    match memory.snapshot(blamed.0) {
        Some(snapshot) => {
            is_among(cells, blamed.0)
                && has_found(look, blamed, memory.begun)
                && steps.was_in_the_way(pass, blamed, snapshot.steps)
        }
        None => false,
    }
}

fn is_among(cells: &[Cell], node: NodeNo) -> bool
    ensures { result ≡ has cells.now node.0 }
{
    for cell in cells {
        if cell.node() == node {
            return true;
        }
    }
    false
}

fn are_linked(memory: &Memory, cells: &[Cell]) -> bool
    ensures { (lay : Layout) (h : History) (linked : ℕ → Option History) →
        AreSnapshotsOf lay h memory.now linked → IsTrue result → AreLinked linked cells.now }
{
    first_unlinked(memory, cells).is_none()
}

/// The first of the cells without a kept snapshot.
fn first_unlinked(memory: &Memory, cells: &[Cell]) -> Option<NodeNo>
    ensures first { (lay : Layout) (h : History) (linked : ℕ → Option History) →
        AreSnapshotsOf lay h memory.now linked →
        IfSome result (λ n. IsFirstUnlinked linked cells.now n.0) }
    ensures none { (lay : Layout) (h : History) (linked : ℕ → Option History) →
        AreSnapshotsOf lay h memory.now linked →
        IfNone result (AreLinked linked cells.now) }
{
    for cell in cells {
        let node = cell.node();
        if memory.snapshot(node).is_none() {
            return Some(node);
        }
    }
    None
}

/// Whether all cells of a `vlx` were as their snapshots say as the call began.
fn are_all_like(same: [bool; 4], cells: &[Cell]) -> bool
    ensures { (lay : Layout) (at : History) (linked : ℕ → Option History) →
        AreSameAt lay at linked cells.now same → IsTrue result →
        AreUnchanged lay at linked cells.now }
{
    for place in 0..cells.len() {
        if !is_like(same, place) {
            return false;
        }
    }
    true
}

fn is_like(same: [bool; 4], place: usize) -> bool
    ensures { IsTrue result → slice_get same place ≡ Some true }
{
    same.as_slice().get(place) == Some(&true)
}

/// Whether all cells before this one were.
fn is_behind_all_like(same: [bool; 4], cells: &[Cell], node: NodeNo) -> bool
    ensures { (lay : Layout) (at : History) (linked : ℕ → Option History) →
        AreSameAt lay at linked cells.now same → IsTrue result →
        IsBehindAll (IsAsSnapped lay at linked) cells.now node.0 }
{
    for place in 0..cells.len() {
        if cells[place].node() == node {
            return true;
        }
        if !is_like(same, place) {
            return false;
        }
    }
    false
}
