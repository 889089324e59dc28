//! The versions of a report's format.
ghost use Rattle.std.specs.Prelude.{◌≡◌, ◌≢◌, ◌<◌, ◌^◌, ◌↔◌, ℕ, IsTrue, MatchOption, decimal};
ghost use Rattle.report.specs.Versions.{HasCommand, HasPart, HasRequest, value_limit, version_text};

use arena::{NodeWord, SettledPart};
use ordered_map::Request;
use script::Command;
use texts::number_of;

/// A version of the format of a report. Both are read, and the second is written.
#[derive(Clone, Copy, Debug, PartialEq, Eq)]
pub enum Version {
    /// Values have one word.
    One,
    /// Values have two words.
    Two,
}

impl Version {
    ghost use Rattle.report.specs.declared.version.Version.{Version};

    /// The version of this name.
    pub fn named(name: &str) -> Option<Version>
        ensures { MatchOption result ((version : Version) →
            name.now ≢ version_text version) (λ version. name.now ≡ version_text version) }
    {
        match name {
            "1" => Some(Version::One),
            "2" => Some(Version::Two),
            _ => None,
        }
    }

    /// The name of the version.
    pub fn name(self) -> &'static str
        ensures { result.now ≡ version_text self }
    {
        match self {
            Version::One => "1",
            Version::Two => "2",
        }
    }

    /// The value of the version that a text spells.
    pub fn value_of(self, text: &str) -> Option<u128>
        ensures { MatchOption result ((n : ℕ) → n < value_limit self → text.now ≢ decimal n)
            (λ n. (n < value_limit self) × (text.now ≡ decimal n)) }
    {
        match self {
            Version::One => Some(u128::from(number_of::<u64>(text)?)),
            Version::Two => number_of(text),
        }
    }

    /// This word of a node, if the version has it.
    pub fn part(self, part: NodeWord) -> Option<NodeWord>
        ensures { MatchOption result (¬ (HasPart self part)) (λ same. (same ≡ part) ×
            HasPart self part) }
    {
        match (self, part) {
            (Version::One, NodeWord::Settled(SettledPart::High(_))) => None,
            _ => Some(part),
        }
    }

    /// This command, if it is one of the version.
    pub fn command(self, command: Command) -> Option<Command>
        ensures { MatchOption result (¬ (HasCommand self command)) (λ same. (same ≡ command) ×
            HasCommand self command) }
    {
        if self.has_command(&command) {
            Some(command)
        } else {
            None
        }
    }

    /// Whether a command is one of the version.
    fn has_command(self, command: &Command) -> bool
        ensures { IsTrue result ↔ HasCommand self command.now }
    {
        match (self, command) {
            (Version::One, Command::Map(request)) => is_in_first(request),
            _ => true,
        }
    }
}

/// Whether the first version has a call of the map, with these values.
fn is_in_first(request: &Request<u64, u128>) -> bool
    ensures { IsTrue result ↔ HasRequest Version.One request.now }
{
    match request {
        Request::Insert { key: _, value } => has_one_word(*value),
        Request::ReplaceIf {
            key: _,
            expected,
            value,
        } => has_one_word(*expected) && has_one_word(*value),
        Request::Delete { .. } | Request::PopFirst | Request::Get { .. } => true,
        Request::Successor { .. } | Request::Range { .. } => true,
        _ => false,
    }
}

/// Whether a value has one word.
fn has_one_word(value: u128) -> bool
    ensures { IsTrue result ↔ (value < 2 ^ 64) }
{
    u64::try_from(value).is_ok()
}
