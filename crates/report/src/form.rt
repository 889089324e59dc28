//! The forms of answers that have one text.
ghost use Rattle.std.specs.Prelude.{◌≡◌};
ghost use Rattle.report.specs.Answers.{IsInForm, answer_text, cells_answer, fitted_to, map_answer, reply_text, reply_to};
ghost use Rattle.report.specs.Spellings.{IsSpelledAnswer, IsSpelledReply};
ghost use Rattle.report.specs.declared.version.Version.{Version};

use arena::Full;
use ordered_map::{Reply, Request};
use record::Answer;
use script::Command;

/// The answer with the same text in the form that answers a command; without one, as it is.
pub fn fitted_to(command: Option<Command>, answer: Answer) -> Answer
    ensures form { result ≡ fitted_to command answer }
    ensures fits { IsInForm command result }
    ensures text { answer_text result ≡ answer_text answer }
    ensures spelled { (version : Version) → IsSpelledAnswer version answer →
        IsSpelledAnswer version result }
{
    match command {
        Some(Command::Map(request)) => map_answer(&request, answer),
        Some(_) => cells_answer(answer),
        None => answer,
    }
}

/// The answer of the map with the same text that answers a request, if there is one.
fn map_answer(request: &Request<u64, u128>, answer: Answer) -> Answer
    ensures form { result ≡ map_answer request.now answer }
    ensures text { answer_text result ≡ answer_text answer }
    ensures spelled { (version : Version) → IsSpelledAnswer version answer →
        IsSpelledAnswer version result }
{
    match answer {
        Answer::Full { what, left } => Answer::Map(Reply::Full(Full { what, left })),
        Answer::Map(reply) => Answer::Map(reply_to(request, reply)),
        _ => answer,
    }
}

/// The answer of cells with the same text, if there is one.
fn cells_answer(answer: Answer) -> Answer
    ensures form { result ≡ cells_answer answer }
    ensures text { answer_text result ≡ answer_text answer }
    ensures spelled { (version : Version) → IsSpelledAnswer version answer →
        IsSpelledAnswer version result }
{
    match answer {
        Answer::Map(Reply::Full(full)) => Answer::Full {
            what: full.what,
            left: full.left,
        },
        _ => answer,
    }
}

/// The reply with the same text that answers a request.
fn reply_to(request: &Request<u64, u128>, reply: Reply<u64, u128>) -> Reply<u64, u128>
    ensures form { result ≡ reply_to request.now reply }
    ensures text { reply_text result ≡ reply_text reply }
    ensures spelled { (version : Version) → IsSpelledReply version reply →
        IsSpelledReply version result }
{
    match request {
        Request::Successor { .. }
        | Request::Predecessor { .. }
        | Request::PopFirst
        | Request::PopLast => match reply {
            Reply::Value(None) => Reply::Pair(None),
            _ => reply,
        },
        _ => match reply {
            Reply::Pair(None) => Reply::Value(None),
            _ => reply,
        },
    }
}
