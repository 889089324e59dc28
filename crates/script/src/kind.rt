//! The names of the kinds of step.
ghost use Rattle.std.specs.Prelude.{◌≡◌, ◌≢◌, IfSome, IfNone};
ghost use Rattle.arena.specs.declared.step.Kind.{Kind};
ghost use Rattle.script.specs.Kinds.{kind_text};

use arena::Kind;

/// The name that schedules and reports have for a kind of step.
pub fn kind_name(kind: Kind) -> &'static str
    ensures { result.now ≡ kind_text kind }
{
    match kind {
        Kind::Fill => "fill",
        Kind::LoadSettled => "settled",
        Kind::LoadInfo => "info",
        Kind::LoadState => "state",
        Kind::LoadMarked => "marked",
        Kind::LoadAllFrozen => "allfrozen",
        Kind::LoadChild => "child",
        Kind::Freeze => "freeze",
        Kind::SetFrozen => "frozen",
        Kind::Mark => "mark",
        Kind::Update => "update",
        Kind::Commit => "commit",
        Kind::Abort => "abort",
    }
}

/// The kind of step that has this name.
pub fn kind_of(name: &str) -> Option<Kind>
    ensures some { IfSome result (λ kind. kind_text kind ≡ name.now) }
    ensures none { IfNone result ((kind : Kind) → kind_text kind ≢ name.now) }
{
    match name {
        "fill" => Some(Kind::Fill),
        "settled" => Some(Kind::LoadSettled),
        "info" => Some(Kind::LoadInfo),
        "state" => Some(Kind::LoadState),
        "marked" => Some(Kind::LoadMarked),
        "allfrozen" => Some(Kind::LoadAllFrozen),
        "child" => Some(Kind::LoadChild),
        "freeze" => Some(Kind::Freeze),
        "frozen" => Some(Kind::SetFrozen),
        "mark" => Some(Kind::Mark),
        "update" => Some(Kind::Update),
        "commit" => Some(Kind::Commit),
        "abort" => Some(Kind::Abort),
        _ => None,
    }
}
