//! Schedules of turns.
ghost use Rattle.texts.specs.declared.fault.TextFault.{TextFault};
ghost use Rattle.std.specs.Prelude.{◌≡◌, ◌≢◌, ◌≤◌, ◌<◌, ◌^◌, ◌-◌, ℕ, [], ◌∷◌, decimal, IfOk, IfSome, IfNone, OnOk, OnErr, IfErr, IsErrOf, All, Some, List, refl, length, vec_len};
ghost use Rattle.script.specs.declared.schedule.OrderKind.{OrderKind};
ghost use Rattle.script.specs.Grammars.{IsScheduleFault, SayOrders, order_grammar};
ghost use Rattle.script.specs.Orders.{IsNoOrder, IsOrder, IsUnfit, NamesTimes, order_row};
ghost use Rattle.texts.specs.Texts.{IfBad};
ghost use Rattle.script.specs.OrderKind.{order_kind_text};
ghost use Rattle.csv.specs.Records.{fields_of};

use crate::client::client_of;
use crate::fault::{ScheduleCause, ScheduleFault};
use crate::kind::kind_of;
use crate::script::Script;
use arena::{Kind, PassNo};
use csv::StringRecord;
use std::alloc::Global;
use std::io::Read;
use texts::{Format, Metered, Rows, by_failure_count, field, small_number_of};

/// What one row of a schedule orders.
#[derive(Clone, Copy, Debug, PartialEq, Eq)]
pub enum Order {
    /// `times` turns of the client.
    Step {
        client: PassNo,
        turns: u32,
    },
    /// Turns until the client has one more reply; none if it has no call left.
    Call {
        client: PassNo,
    },
    /// Turns until the client has made `times` more steps of the kind, or has no call left.
    Until {
        client: PassNo,
        kind: Kind,
        times: u32,
    },
    /// Turns until the client has no call left.
    Finish {
        client: PassNo,
    },
}

/// The orders by which a script's clients make their turns, one after another.
#[derive(Debug, Drop)]
pub struct Schedule {
    pub orders: Vec<Order>,
    ghost few: { vec_len orders ≤ 65536 },
}

/// Reads a schedule for the clients of a script: its orders, and the end row that counts them.
/// Nothing is kept of a text that is refused.
pub fn read_schedule<R: Read>(
    alloc: Global,
    script: &Script,
    from: &mut Metered<R>,
) -> Result<Schedule, ScheduleFault>
    ensures orders { IfOk result (λ schedule. All (IsOrder script.now.layout.passes) schedule.orders.items) }

    // Of a reader whose bytes are known: the schedule is what they say, and a fault is their first.
    ensures says { (bytes : List ℕ) → R.remaining from.old.inner ≡ Some bytes → IfOk result
        (λ schedule. SayOrders script.now.layout.passes bytes schedule.orders.items) }
    ensures fault { (bytes : List ℕ) → R.remaining from.old.inner ≡ Some bytes →
        IfErr result (IfBad (IsScheduleFault script.now.layout.passes bytes)) }

    // Whether a read failed follows from the failure count, as long as it can rise.
    ensures ok { OnOk result (from.new.failures ≡ from.old.failures) }
    ensures read { IsErrOf result TextFault.Read → from.old.failures < 2 ^ 64 - 1 →
        from.new.failures ≢ from.old.failures }
    ensures failed { from.new.failures ≢ from.old.failures → IsErrOf result TextFault.Read }
{
    let before = from.failures;
    let schedule = schedule_of(alloc, script.layout.passes, from);
    by_failure_count(schedule, before, from.failures)
}

fn schedule_of<R: Read>(
    alloc: Global,
    passes: u32,
    from: &mut Metered<R>,
) -> Result<Schedule, ScheduleFault>
    ensures orders { IfOk result (λ schedule. All (IsOrder passes) schedule.orders.items) }
    ensures says { (bytes : List ℕ) → R.remaining from.old.inner ≡ Some bytes →
        IfOk result (λ schedule. SayOrders passes bytes schedule.orders.items) }
    ensures fault { (bytes : List ℕ) → R.remaining from.old.inner ≡ Some bytes →
        IfErr result (IfBad (IsScheduleFault passes bytes)) }
{
    let orders = Rows::new(alloc, from).entries(alloc, &OrderRows { passes })?;
    Ok(Schedule { orders })
}

/// Rows `what,client,kind,n` of a schedule.
#[derive(Clone, Copy)]
struct OrderRows {
    passes: u32,
}

/// What a row of a schedule orders.
#[derive(Clone, Copy)]
enum OrderKind {
    Step,
    Call,
    Until,
    Finish,
}

impl Format for OrderRows {
    type Entry = Order;

    type Cause = ScheduleCause;

    const WIDTH: usize = 4;

    ghost WIDTH = { 4 };

    ghost grammar = { λ rows. order_grammar rows.passes };

    fn entry(&self, row: &StringRecord) -> Result<Order, ScheduleCause>
        ensures accepted { IfOk result (IsOrder self.now.passes) }
        ensures row { IfOk result (λ order. length (fields_of row.now) ≡ 4 →
            fields_of row.now ≡ order_row order) }
        ensures cause { IfErr result (IsNoOrder self.now.passes (fields_of row.now)) }
    {
        let what = order_kind_of(field(row, 0)).ok_or(ScheduleCause::Command)?;
        let client = client_of(field(row, 1), self.passes).ok_or(ScheduleCause::Client)?;
        order_of(what, client, field(row, 2), field(row, 3))
    }

    ghost use Rattle.std.proofs.Common.{lit≤};

    ghost width = { λ _. (refl, lit≤ tt) };

    ghost causes = { λ _. (refl, refl, refl) };
}

fn order_kind_of(text: &str) -> Option<OrderKind>
    ensures some { IfSome result (λ what. text.now ≡ order_kind_text what) }
    ensures none { IfNone result ((what : OrderKind) → text.now ≢ order_kind_text what) }
{
    match text {
        "step" => Some(OrderKind::Step),
        "call" => Some(OrderKind::Call),
        "until" => Some(OrderKind::Until),
        "finish" => Some(OrderKind::Finish),
        _ => None,
    }
}

/// The order of a row with these last fields.
fn order_of(
    what: OrderKind,
    client: PassNo,
    kind: &str,
    number: &str,
) -> Result<Order, ScheduleCause>
    ensures order { (passes : ℕ) → client.0 < passes → IfOk result (IsOrder passes) }
    ensures row { IfOk result (λ order. order_row order ≡ order_kind_text what ∷ decimal client.0 ∷ kind.now ∷ number.now ∷ []) }
    ensures cause { IfErr result (IsUnfit what kind.now number.now) }
{
    match what {
        OrderKind::Step => {
            leave_empty(kind, ScheduleCause::Kind)?;
            let turns = times_of(number)?;
            Ok(Order::Step { client, turns })
        }
        OrderKind::Call => {
            leave_empty(kind, ScheduleCause::Kind)?;
            leave_empty(number, ScheduleCause::Number)?;
            Ok(Order::Call { client })
        }
        OrderKind::Until => {
            let kind = kind_of(kind).ok_or(ScheduleCause::Kind)?;
            let times = times_of(number)?;
            Ok(Order::Until {
                client,
                kind,
                times,
            })
        }
        OrderKind::Finish => {
            leave_empty(kind, ScheduleCause::Kind)?;
            leave_empty(number, ScheduleCause::Number)?;
            Ok(Order::Finish { client })
        }
    }
}

/// An empty field, as it has to be; another is refused for this cause.
fn leave_empty(text: &str, cause: ScheduleCause) -> Result<(), ScheduleCause>
    ensures ok { OnOk result (text.now ≡ []) }
    ensures err { IfErr result (λ why. (why ≡ cause) × (text.now ≢ [])) }
{
    if text.is_empty() { Ok(()) } else { Err(cause) }
}

/// How many turns, or steps of a kind: 1 to 1,000,000.
#[tactic(auto, using(texts::proofs::Lemmas::same_number))]
fn times_of(text: &str) -> Result<u32, ScheduleCause>
    ensures ok { IfOk result (λ n. (1 ≤ n) × (n ≤ 1000000) × (text.now ≡ decimal n)) }
    ensures err { OnErr result (¬ (NamesTimes text.now)) }
    ensures cause { IfErr result (λ cause. cause ≡ ScheduleCause.Number) }
{
    match small_number_of(text) {
        Some(times) if 1 <= times && times <= 1000000 => Ok(times),
        _ => Err(ScheduleCause::Number),
    }
}
