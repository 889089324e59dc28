//! The first two rows of a report.
ghost use Rattle.std.specs.Prelude.{◌≡◌, ◌≢◌, IfNone, IfSome, MatchOption};
ghost use Rattle.arena.specs.Limits.{IsAccepted, IsLayoutOf};
ghost use Rattle.arena.specs.declared.limits.Limits.{Limits as LimitsOf};
ghost use Rattle.arena.specs.declared.limits.Mode.{Mode as ModeOf};
ghost use Rattle.script.specs.Rows.{limits_row};
ghost use Rattle.script.specs.Commands.{texts};
ghost use Rattle.report.specs.Report.{mode_text, title_in, seven};
ghost use Rattle.report.specs.declared.version.Version.{Version as VersionOf};

use crate::version::Version;
use arena::{Layout, Limits, Mode};
use texts::small_number_of;

/// The version and the mode that the first row names.
pub fn title_of(fields: [&str; 7]) -> Option<(Version, Mode)>
    ensures { MatchOption result ((version : VersionOf) (mode : ModeOf) → texts fields.entry ≢ seven (title_in version mode))
        (λ title. texts fields.entry ≡ seven (title_in title.0 title.1)) }
{
    let ["report", version, mode, "", "", "", ""] = fields else {
        return None;
    };
    Some((Version::named(version)?, mode_of(mode)?))
}

/// The mode of this name.
fn mode_of(name: &str) -> Option<Mode>
    ensures { MatchOption result ((mode : ModeOf) →
        name.now ≢ mode_text mode) (λ mode. name.now ≡ mode_text mode) }
{
    match name {
        "tree" => Some(Mode::Tree),
        "trie" => Some(Mode::Trie),
        "records" => Some(Mode::Records),
        _ => None,
    }
}

/// The limits that the second row says, which are in range, and the layout within them.
pub fn limits_of(fields: [&str; 7], mode: Mode) -> Option<(Limits, Layout)>
    ensures accepted { IfSome result (λ told. IsAccepted told.0) }
    ensures layout { IfSome result (λ told. IsLayoutOf told.0 mode told.1) }
    ensures row { IfSome result (λ told. texts fields.entry ≡ seven (limits_row told.0)) }
    ensures none { IfNone result ((limits : LimitsOf) → IsAccepted limits →
        texts fields.entry ≢ seven (limits_row limits)) }
{
    let ["limits", passes, nodes, scx, tries, "", ""] = fields else {
        return None;
    };
    let limits = Limits {
        passes: small_number_of(passes)?,
        nodes: small_number_of(nodes)?,
        scx: small_number_of(scx)?,
        tries: small_number_of(tries)?,
    };
    let layout = limits.check(mode).ok()?;
    Some((limits, layout))
}
