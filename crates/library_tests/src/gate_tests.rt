//! When calls wait for one another.
ghost use Rattle.std.specs.Prelude.{◌≡◌, IfOk};
ghost use Rattle.arena.specs.declared.limits.Mode.TheVariants.{Tree};

use self::Told::{Answered, Began, Made};
use crate::same::same;
use arena::{Kind, Mode, PassNo};
use program::run_at;
use runner::{Alternate, Freeze, Gate, GateName, Hold, Open, run};
use script::{Metered, Script, read_script};
use std::alloc::Global;
use std::array::from_fn;
use std::process::Abort;
use std::sync::Wait;
use std::sync::atomic::{AtomicBool, AtomicU64, Ordering};
use std::test::Fail;
use std::thread::{Threads, yield_now};

/// A get of each of two clients.
const TWO: &str = "limits,2,20,20,3\n0,get,1,,\n1,get,2,,\nend,2,,,\n";

/// How often a call looks for the other one.
const MOST_LOOKS: u64 = 1_000_000_000;

fn script_of(alloc: Global, text: &str) -> Result<Script, Fail>
    ensures { IfOk result (λ script. script.layout.mode ≡ Tree) }
{
    let mut from = text.as_bytes();
    match read_script(alloc, Mode::Tree, &mut Metered::new(&mut from)) {
        Ok(script) => Ok(script),
        Err(_) => Err(Fail::from("bad script")),
    }
}

/// The first call of each of two clients waits until the other's has begun.
#[derive(Drop)]
struct Meet {
    first: AtomicBool,
    second: AtomicBool,
    missed: AtomicBool,
}

impl Meet {
    fn new() -> Meet {
        Meet {
            first: AtomicBool::new(false),
            second: AtomicBool::new(false),
            missed: AtomicBool::new(false),
        }
    }

    fn wait(&self, other: &AtomicBool) {
        if !has_come(other) {
            self.missed.store(true, Ordering::SeqCst);
        }
    }
}

/// Waits until this is so, and returns whether it was at last.
fn has_come(awaited: &AtomicBool) -> bool {
    for _look in 0..MOST_LOOKS {
        if awaited.load(Ordering::SeqCst) {
            return true;
        }
        yield_now();
    }
    false
}

impl Gate for Meet {
    fn began(&self, client: PassNo, _call: u64) {
        if client == PassNo(0) {
            self.first.store(true, Ordering::SeqCst);
            self.wait(&self.second);
        } else {
            self.second.store(true, Ordering::SeqCst);
            self.wait(&self.first);
        }
    }

    fn made(&self, _client: PassNo, _call: u64, _kind: Kind) {}

    fn answered(&self, _client: PassNo, _call: u64) {}

    fn missed(&self) -> bool {
        self.missed.load(Ordering::SeqCst)
    }
}

/// A run under a gate leaves these pairs.
fn leaves<R: Threads + Wait + Sync + Abort, G: Gate>(
    rt: &R,
    alloc: Global,
    script: &Script,
    gate: &G,
    pairs: &[(u64, u128)],
) -> Result<(), Fail>
    requires { script.now.layout.mode ≡ Tree }
{
    let outcome = run(rt, alloc, script, gate)?;
    same(rt, outcome.pairs.as_slice(), pairs);
    Ok(())
}

#[test]
fn two_clients_are_there_at_once(rt: HostRuntime) -> Result<(), Fail> {
    let script = script_of(rt.alloc(), TWO)?;
    let gate = Meet::new();
    leaves(&rt, rt.alloc(), &script, &gate, &[])?;
    same(&rt, gate.missed(), false);
    Ok(())
}

/// The calls of a client alone.
const ALONE: &str = "\
limits,1,10,10,3
0,insert,5,50,
0,get,5,,
0,replace_if,5,50,51
0,delete,5,,
0,pop_first,,,
0,get,5,,
0,range,1,9,0
end,7,,,
";

/// How many they are.
const CALLS: usize = 7;

/// Counts the steps of a client alone, and keeps how many there were as each of its calls began,
/// and as it was answered.
#[derive(Drop)]
struct Steps {
    made: AtomicU64,
    freezes: AtomicU64,
    began: [AtomicU64; CALLS],
    answered: [AtomicU64; CALLS],
}

impl Steps {
    fn new() -> Steps {
        Steps {
            made: AtomicU64::new(0),
            freezes: AtomicU64::new(0),
            began: from_fn(|_| AtomicU64::new(0)),
            answered: from_fn(|_| AtomicU64::new(0)),
        }
    }

    /// Adds how many there are now, so that what is reported twice is counted twice.
    fn note(&self, counts: &[AtomicU64; CALLS], call: u64) {
        if let Some(count) = counts.get(call as usize) {
            count.fetch_add(self.made.load(Ordering::SeqCst), Ordering::SeqCst);
        }
    }
}

impl Gate for Steps {
    fn began(&self, _client: PassNo, call: u64) {
        self.note(&self.began, call);
    }

    fn made(&self, _client: PassNo, _call: u64, kind: Kind) {
        self.made.fetch_add(1, Ordering::SeqCst);
        if kind == Kind::Freeze {
            self.freezes.fetch_add(1, Ordering::SeqCst);
        }
    }

    fn answered(&self, _client: PassNo, call: u64) {
        self.note(&self.answered, call);
    }

    fn missed(&self) -> bool {
        false
    }
}

/// How many steps there were as each call began.
const BEGAN: [u64; CALLS] = [0, 48, 57, 107, 181, 184, 187];

const ANSWERED: [u64; CALLS] = [48, 57, 107, 181, 184, 187, 187];

/// The counts of all calls are these.
fn are(rt: &impl Abort, counts: &[AtomicU64; CALLS], want: [u64; CALLS]) {
    for (count, want) in counts.iter().zip(want) {
        same(rt, count.load(Ordering::SeqCst), want);
    }
}

/// An insert makes 48 steps, a get 9, a replacement 50, a delete 74, a pop and a get of the empty
/// map 3, and a range of no pairs none; the insert and the replacement freeze two nodes each, the
/// delete four. Each call begins where the one before it was answered.
#[test]
fn a_gate_is_told_of_each_step(rt: HostRuntime) -> Result<(), Fail> {
    let script = script_of(rt.alloc(), ALONE)?;
    let gate = Steps::new();
    leaves(&rt, rt.alloc(), &script, &gate, &[])?;
    are(&rt, &gate.began, BEGAN);
    are(&rt, &gate.answered, ANSWERED);
    same(&rt, gate.made.load(Ordering::SeqCst), 187);
    same(&rt, gate.freezes.load(Ordering::SeqCst), 8);
    Ok(())
}

/// Client 1's first call waits until client 0 has made a step of kind `freeze`, after which the
/// gate of that name holds client 0 back.
#[derive(Drop)]
struct Frozen {
    gate: Freeze,
    has_frozen: AtomicBool,
    /// How many such steps client 0 has made.
    freezes: AtomicU64,
    /// How many it had made as client 1's first call was answered.
    before: AtomicU64,
}

impl Gate for Frozen {
    fn began(&self, client: PassNo, _call: u64) {
        if client == PassNo(1) {
            has_come(&self.has_frozen);
        }
    }

    fn made(&self, client: PassNo, call: u64, kind: Kind) {
        if client == PassNo(0) && kind == Kind::Freeze {
            self.freezes.fetch_add(1, Ordering::SeqCst);
            self.has_frozen.store(true, Ordering::SeqCst);
        }
        self.gate.made(client, call, kind);
    }

    fn answered(&self, client: PassNo, call: u64) {
        if client == PassNo(1) {
            let freezes = self.freezes.load(Ordering::SeqCst);
            self.before.store(freezes, Ordering::SeqCst);
        }
        self.gate.answered(client, call);
    }

    fn missed(&self) -> bool {
        self.gate.missed()
    }
}

impl Frozen {
    fn new(script: &Script) -> Frozen {
        Frozen {
            gate: Freeze::new(script),
            has_frozen: AtomicBool::new(false),
            freezes: AtomicU64::new(0),
            before: AtomicU64::new(0),
        }
    }
}

/// It has frozen one of the two nodes of its insert; client 1, which helps it, needs no other step
/// of it. Then it freezes the second, as it would have.
#[test]
fn a_frozen_client_waits_for_its_helper(rt: HostRuntime) -> Result<(), Fail> {
    let text = "limits,2,20,20,3\n0,insert,5,50,\n1,insert,7,70,\nend,2,,,\n";
    let script = script_of(rt.alloc(), text)?;
    let gate = Frozen::new(&script);
    leaves(&rt, rt.alloc(), &script, &gate, &[(5, 50), (7, 70)])?;
    same(&rt, gate.missed(), false);
    same(&rt, gate.before.load(Ordering::SeqCst), 1);
    same(&rt, gate.freezes.load(Ordering::SeqCst), 2);
    Ok(())
}

/// What is reported to a gate of a call of a client.
#[derive(Clone, Copy)]
enum Told {
    Began(u32, u64),
    Made(u32, u64, Kind),
    Answered(u32, u64),
}

/// The place of the first of these after which a gate is missed, if there is one: they are reported
/// to it one after another.
fn missed_at<G: Gate>(gate: &G, told: &[Told]) -> Option<usize> {
    for (place, one) in told.iter().enumerate() {
        match *one {
            Began(client, call) => gate.began(PassNo(client), call),
            Made(client, call, kind) => gate.made(PassNo(client), call, kind),
            Answered(client, call) => gate.answered(PassNo(client), call),
        }
        if gate.missed() {
            return Some(place);
        }
    }
    None
}

/// A get of each of three clients.
const THREE: &str = "limits,3,20,20,3\n0,get,1,,\n1,get,2,,\n2,get,3,,\nend,3,,,\n";

/// A call of these that waits for what does not happen has waited too long after this many looks.
const IN_VAIN: [(GateName, &[Told], Option<usize>); 7] = [
    (GateName::Hold, &[Began(1, 0), Began(2, 0)], None),
    (GateName::Hold, &[Began(0, 0)], Some(0)),
    (GateName::Alternate, &[Began(1, 0)], Some(0)),
    // client 2 waits for client 1, and client 0's next call for client 2
    (GateName::Alternate, &[Began(2, 0)], Some(0)),
    (GateName::Alternate, &[Answered(0, 0), Began(2, 0)], Some(1)),
    (GateName::Alternate, &[Answered(1, 0), Began(0, 1)], Some(1)),
    // a freeze of client 0's first call waits, and no other step
    (
        GateName::Freeze,
        &[
            Began(0, 0),
            Made(0, 0, Kind::Fill),
            Made(1, 0, Kind::Freeze),
            Made(2, 0, Kind::Freeze),
            Made(0, 1, Kind::Freeze),
            Made(0, 0, Kind::Freeze),
        ],
        Some(5),
    ),
];

/// The same of the gate of this name, at which a call makes three looks.
fn missed_soon(script: &Script, name: GateName, told: &[Told]) -> Option<usize> {
    match name {
        GateName::Open => missed_at(&Open::new(script), told),
        GateName::Alternate => missed_at(&Alternate::with_looks(script, 3), told),
        GateName::Hold => missed_at(&Hold::with_looks(script, 3), told),
        GateName::Freeze => missed_at(&Freeze::with_looks(script, 3), told),
    }
}

#[test]
fn what_does_not_come_is_missed(rt: HostRuntime) -> Result<(), Fail> {
    let script = script_of(rt.alloc(), THREE)?;
    for (place, (name, told, missed)) in IN_VAIN.iter().enumerate() {
        let found = missed_soon(&script, *name, told);
        same(&rt, (place, found), (place, *missed));
    }
    Ok(())
}

/// Two gets of client 0; client 1 has no call.
const ONE: &str = "limits,2,20,20,3\n0,get,1,,\n0,get,1,,\nend,2,,,\n";

/// What is answered is waited for no more, and a client that has no such call is not waited for.
const NO_WAIT: [(&str, GateName, &[Told]); 9] = [
    (ONE, GateName::Hold, &[Began(0, 0)]),
    (ONE, GateName::Freeze, &[Made(0, 0, Kind::Freeze)]),
    (ONE, GateName::Alternate, &[Began(0, 1), Began(1, 5)]),
    (TWO, GateName::Hold, &[Answered(1, 0), Began(0, 0)]),
    (
        TWO,
        GateName::Freeze,
        &[Answered(1, 0), Made(0, 0, Kind::Freeze)],
    ),
    (
        TWO,
        GateName::Alternate,
        &[Began(0, 0), Answered(0, 0), Began(1, 0)],
    ),
    (THREE, GateName::Alternate, &[Answered(1, 0), Began(2, 0)]),
    (THREE, GateName::Alternate, &[Answered(2, 0), Began(0, 1)]),
    (TWO, GateName::Open, &[Began(0, 0)]),
];

/// The same of the gate of this name, at which a call looks as often as in the program.
fn missed_late(script: &Script, name: GateName, told: &[Told]) -> Option<usize> {
    match name {
        GateName::Open => missed_at(&Open::new(script), told),
        GateName::Alternate => missed_at(&Alternate::new(script), told),
        GateName::Hold => missed_at(&Hold::new(script), told),
        GateName::Freeze => missed_at(&Freeze::new(script), told),
    }
}

#[test]
fn what_is_answered_is_not_waited_for(rt: HostRuntime) -> Result<(), Fail> {
    for (place, (text, name, told)) in NO_WAIT.iter().enumerate() {
        let script = script_of(rt.alloc(), text)?;
        let found = missed_late(&script, *name, told);
        same(&rt, (place, found), (place, None));
    }
    Ok(())
}

/// After the gate's row, that of a run of `TWO`.
const OUTCOME_OF_TWO: &str = "reply,0,0,none\nreply,1,0,none\nend,2,0,\n";

/// Once a call has waited too long no call waits, and the outcome says so.
#[test]
fn a_missed_gate_is_told(rt: HostRuntime) -> Result<(), Fail> {
    let script = script_of(rt.alloc(), TWO)?;
    let met = Alternate::new(&script);
    let missed = Alternate::with_looks(&script, 3);
    same(&rt, missed_at(&missed, &[Began(1, 0)]), Some(0));
    for (gate, row) in [(&met, "gate,met,,"), (&missed, "gate,missed,,")] {
        let mut out = Metered::new(Vec::new(rt.alloc()));
        run_at(&rt, rt.alloc(), &script, gate, &mut out)?;
        let text = format!(in rt.alloc(); "outcome,1,,\n{row}\n{OUTCOME_OF_TWO}")?;
        same(&rt, out.inner.as_slice(), text.as_bytes());
    }
    Ok(())
}
