//! Orders that are followed, whatever plays the script.
ghost use Rattle.std.specs.Prelude.{◌≡◌, ◌≢◌, ◌+◌, ◌<◌, ◌≤◌, ◌↔◌, List, All, IfErr, IfOk, IsTrue, OnErr, OnOk, is_some};
ghost use Rattle.script.specs.Orders.{IsOrder};
ghost use Rattle.script.specs.declared.call.Call.{Call};
ghost use Rattle.record.specs.Commands.{next_command};
ghost use Rattle.record.specs.Schedules.{AreOrdered, IsOrdered, IsRunOf, ordered_client};
ghost use Rattle.record.specs.declared.record.Line.{Line};
ghost use Rattle.record.specs.declared.record.TurnRow.{TurnRow};
ghost use Rattle.player.specs.Followed.{AreFollowedSoFar, HasFollowed, IsFollowedSoFar, MayTurn, counting, wanted_of};
ghost use Rattle.player.specs.Player.{PlayerView, script_view};
ghost use Rattle.player.specs.Plays.{TellsTurn};

use crate::player::Player;
use crate::plays::Plays;
use crate::turned::Turned;
use arena::{NoMemory, PassNo};
use record::Record;
use script::{Order, Schedule, Script};
use std::alloc::Global;

/// Plays the script by the schedule: the record is that of a lawful run, whose turns are those that
/// the schedule means. The only error is want of memory.
pub fn play_by(alloc: Global, script: &Script, schedule: &Schedule) -> Result<Record, NoMemory>
    requires orders { All (IsOrder script.now.layout.passes) schedule.now.orders.items }
    ensures script { IfOk result (λ r. script_view r.script ≡ script_view script.now) }
    ensures run { IfOk result (λ r. IsRunOf script.now schedule.now r.lines.items) }
{
    let mut player = Player::new(alloc, script)?;
    follow(&mut player, schedule.orders.as_slice(), &mut ())?;
    Ok(player.record())
}

impl Player {
    /// Makes the turns that an order means. Turns that were made before a refusal stay made.
    pub fn obey(&mut self, order: Order) -> Result<(), NoMemory>
        requires { ordered_client order < self.old.script.layout.passes }
        ensures script { self.new.script ≡ self.old.script }
        ensures ordered { OnOk result (IsOrdered self.old.script.calls order self.old.lines self.new.lines) }
        ensures stopped { OnErr result (IsFollowedSoFar self.old.script.calls order self.old.lines self.new.lines) }
    {
        obey(self, order, &mut ())
    }
}

/// Makes the turns that the orders mean, one order after another, up to a fault.
pub fn follow<To, P: Plays<To>>(
    player: &mut P,
    orders: &[Order],
    to: &mut To,
) -> Result<(), P::Fault>
    requires { All (IsOrder (P.passes player.old)) orders.now }
    ensures followed { (start : To) (p : PlayerView) → P.behind start player.old to.old p →
        OnOk result (HasFollowed p (AreOrdered p.script.calls orders.now p.lines) (P.behind start player.new to.new)) }
    ensures stopped { (start : To) (p : PlayerView) → P.behind start player.old to.old p →
        IfErr result (λ fault. HasFollowed p (AreFollowedSoFar p.script.calls orders.now p.lines) (P.broken start player.new to.new fault)) }
{
    for order in orders {
        obey(player, *order, to)?;
    }
    Ok(())
}

/// Makes the turns that an order means, up to a fault.
fn obey<To, P: Plays<To>>(player: &mut P, order: Order, to: &mut To) -> Result<(), P::Fault>
    requires { ordered_client order < P.passes player.old }
    ensures passes { P.passes player.new ≡ P.passes player.old }
    ensures obeyed { (start : To) (p : PlayerView) → P.behind start player.old to.old p →
        OnOk result (HasFollowed p (IsOrdered p.script.calls order p.lines) (P.behind start player.new to.new)) }
    ensures stopped { (start : To) (p : PlayerView) → P.behind start player.old to.old p →
        IfErr result (λ fault. HasFollowed p (IsFollowedSoFar p.script.calls order p.lines) (P.broken start player.new to.new fault)) }
{
    let client = client_of(order);
    let mut left = wanted_by(order);
    while asks(order, left, player.has_call(client)) {
        left -= counted(order, player.turn(client, to)?);
    }
    Ok(())
}

/// The client whose turns an order asks for.
fn client_of(order: Order) -> PassNo
    ensures { result.0 ≡ ordered_client order }
{
    match order {
        Order::Step { client, .. } => client,
        Order::Call { client } => client,
        Order::Until { client, .. } => client,
        Order::Finish { client } => client,
    }
}

/// How much has to come until an order is obeyed: turns, replies or steps of a kind. Where its
/// client has to have no call left, it is 1, and nothing counts.
fn wanted_by(order: Order) -> u32
    ensures { result ≡ wanted_of order }
{
    match order {
        Order::Step { turns, .. } => turns,
        Order::Until { times, .. } => times,
        Order::Call { .. } | Order::Finish { .. } => 1,
    }
}

/// Whether an order with this much left asks for a turn.
fn asks(order: Order, left: u32, has_call: bool) -> bool
    ensures some { IsTrue result → 0 < left }
    ensures asks { (calls : List Call) (lines : List Line) →
        has_call ≡ is_some (next_command calls lines (ordered_client order)) →
        IsTrue result ↔ ((0 < left) × MayTurn calls order lines) }
{
    left > 0 && (has_call || matches!(order, Order::Step { .. }))
}

/// How much a turn counts.
fn counted(order: Order, turned: Turned) -> u32
    ensures few { result ≤ 1 }
    ensures more { (p later : PlayerView) (row : TurnRow) → TellsTurn p later (ordered_client order) row turned →
        counting order later.lines ≡ counting order p.lines + result }
{
    match order {
        Order::Step { .. } => 1,
        Order::Call { .. } => u32::from(turned.ended),
        Order::Until { kind, .. } => u32::from(turned.kind == Some(kind)),
        Order::Finish { .. } => 0,
    }
}
