//! What an ordered read has that no other disturbs.
ghost use Rattle.std.specs.Prelude.{◌≡◌, ℕ, List, Option, Result, Vec};
ghost use Rattle.std.specs.Global.{Global};
ghost use Rattle.arena.specs.History.{History, value};
ghost use Rattle.arena.specs.Machines.{Call, MatchTurn};
ghost use Rattle.arena.specs.Undisturbed.{IsUndisturbed};
ghost use Rattle.arena.specs.declared.machine.Turn.{Turn};
ghost use Rattle.ordered_map.specs.declared.pair.Pair.{Pair};
ghost use Rattle.ordered_map.specs.Runs.{IsMapRun};
ghost use Rattle.ordered_map.specs.Spelled.{Spells};
ghost use Rattle.order.specs.Known.{IsSameRead, ReadIsReady, ReadTurn};
ghost use Rattle.order.specs.Range.{range_means};
ghost use Rattle.order.specs.Replies.{KeepsTries};
ghost use Rattle.order.specs.Steps.{ReadIsNearer, phase_left, read_left};
ghost use Rattle.order.specs.Neighbour.{neighbour_means};
ghost use Rattle.order.specs.Undisturbed.{HasLeftAll, HasLessOfTry, TellsNext, TellsRange};
ghost use Rattle.order.specs.declared.range.Range.{Range};
ghost use Rattle.order.specs.declared.refused.Refused.{Refused};
ghost use Rattle.order.specs.declared.run.ReadRun.{ReadRun};
ghost use Rattle.order.specs.declared.neighbour.Neighbour.{Neighbour};
ghost use Rattle.template.specs.Blame.{IsContended};

/// What a turn of an ordered read says of a call by itself: nothing was in progress as it began,
/// and no other pass makes a row while it runs. The log and the map are what they were as the call
/// began, and its answer is what that map gives. It is never contended, and gives up no try: each
/// turn leaves fewer steps of the first. Nor is any read contended where there is one pass alone.
/// It does nothing; a caller learns the laws from its contract.
pub fn alone_holds()
    ensures neighbour { (old now : ReadRun Neighbour) (turn : Turn (Result (Option Pair) Refused)) (c : Call) (h : History)
        (got : Option ℕ) (map : List Pair) → IsUndisturbed c h → Spells c.layout (value c.start) map
        → ReadIsReady neighbour_means old c h got → IsSameRead neighbour_means old now → ReadTurn neighbour_means c h now turn
        → HasLeftAll c h map × MatchTurn turn (λ _. Unit {0}) (TellsNext old.read.side map old.read.key) }
    ensures range { (old now : ReadRun Range) (turn : Turn (Result (Vec Pair Global) Refused)) (c : Call) (h : History)
        (got : Option ℕ) (map : List Pair) → IsUndisturbed c h → Spells c.layout (value c.start) map
        → ReadIsReady range_means old c h got → IsSameRead range_means old now → ReadTurn range_means c h now turn
        → HasLeftAll c h map × MatchTurn turn (λ _. Unit {0}) (TellsRange map old.read.low old.read.high old.read.most) }
    ensures neighbour_try { (old now : ReadRun Neighbour) (turn : Turn (Result (Option Pair) Refused)) (c : Call) (h : History)
        (nodes : ℕ) → IsMapRun c.layout h → IsUndisturbed c h → IsSameRead neighbour_means old now
        → KeepsTries c h old.tries now.tries turn
        → ReadIsNearer neighbour_means now nodes turn (read_left neighbour_means old nodes)
        → (now.tries ≡ old.tries)
        × HasLessOfTry turn (phase_left neighbour_means now nodes now.at) (phase_left neighbour_means old nodes old.at) }
    ensures range_try { (old now : ReadRun Range) (turn : Turn (Result (Vec Pair Global) Refused)) (c : Call) (h : History)
        (nodes : ℕ) → IsMapRun c.layout h → IsUndisturbed c h → IsSameRead range_means old now
        → KeepsTries c h old.tries now.tries turn
        → ReadIsNearer range_means now nodes turn (read_left range_means old nodes)
        → (now.tries ≡ old.tries)
        × HasLessOfTry turn (phase_left range_means now nodes now.at) (phase_left range_means old nodes old.at) }
    ensures undisturbed { (c : Call) (h : History) (n s : ℕ) → IsMapRun c.layout h →
        IsUndisturbed c h → ¬ IsContended c h n s }
    ensures one_pass { (c : Call) (h : History) (n s : ℕ) → c.layout.passes ≡ 1 →
        ¬ IsContended c h n s }
{}
