//! A list of requests, one after the other.
ghost use Rattle.std.specs.Prelude.{◌≡◌, map, MatchResult};
ghost use Rattle.env_requests.specs.Headline.{Headline};
ghost use Rattle.env_requests.specs.Views.{asked, told};
ghost use Rattle.hush_run.specs.Runs.{rules};

use crate::obedience::obey;
use crate::reply::Reply;
use crate::request::Request;
use env_session::Session;
use envvars_core::Memory;
use hush_run::{Limits, Stubs};
use std::alloc::Global;

/// Does what each of these requests asks for, in order, and gives their replies: specs/Headline.antt says what they are,
/// what is left, and what every undo among them that answers Ok has brought back.
///
/// # Errors
///
/// `Memory`: there is not enough for this many replies, and nothing was asked of the session.
pub fn obey_all(
    alloc: Global,
    session: &mut Session,
    requests: &[Request],
    stubs: &Stubs,
    limits: &Limits,
) -> Result<Vec<Reply>, Memory>
    ensures headline { MatchResult result
        (λ replies. Headline (rules stubs.now limits.now) session.old (map asked requests.now) (map told replies.items) session.new)
        (λ _. session.new ≡ session.old) }
{
    let mut replies = Vec::with_capacity(alloc, requests.len())?;
    for request in requests {
        let reply = obey(alloc, session, request, stubs, limits);
        let kept = replies.push(reply);
        // It tells the prover that there is room for the reply.
        prove!(kept.is_ok());
    }
    Ok(replies)
}
