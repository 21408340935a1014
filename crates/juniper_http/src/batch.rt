//! Batches.

ghost use Rattle.std.specs.Prelude.{◌≡◌, ◌++◌, ℕ, List, IfErr, IfOk, IsOkAnd, map, string_bytes};
ghost use Rattle.serde_json.specs.View.{view};
ghost use Rattle.juniper_http.specs.Batches.{IsBatchReply, PutsWithin, less};
ghost use Rattle.juniper_http.specs.Refusals.{refusal_text};

use crate::endpoint::{Endpoint, Reply};
use crate::outcome::Outcome;
use crate::refusal::Refusal;
use juniper_request::request_of;
use serde_json::Value;
use std::alloc::{AllocError, Global};

/// A text so far, or that memory was refused.
type Text = Result<String, AllocError>;

/// Puts each member of a batch to the endpoint, in turn, while their replies have at most so many bytes together; the others are refused. The
/// reply is an array of what was replied, in order. Where memory is refused each is still put.
pub fn put_each<E: Endpoint>(
    endpoint: &mut E,
    alloc: Global,
    members: &Vec<Value>,
    most: usize,
) -> Reply
    ensures { IsBatchReply E.replies most (map view members.now.items) endpoint.old result endpoint.new }
{
    let mut text = String::from_str(alloc, "[");
    let mut separator = "";
    let mut left = Some(most);
    for member in members {
        text = put_member(endpoint, alloc, member, joined(text, separator), &mut left);
        separator = ",";
    }
    reply_of(alloc, joined(text, "]"))
}

/// Puts a member of a batch to the endpoint while bytes of replies are left, and writes the reply behind a text. A member that is no request,
/// or for whose reply none are left, is not put, and its error is written.
fn put_member<E: Endpoint>(
    endpoint: &mut E,
    alloc: Global,
    member: &Value,
    before: Text,
    left: &mut Option<usize>,
) -> Text
    ensures { (text : List ℕ) × PutsWithin E.replies left.old (view member.now) endpoint.old text endpoint.new left.new
        × IfOk result (λ made. IsOkAnd before (λ b. string_bytes made ≡ string_bytes b ++ text)) }
{
    let Some(bytes) = *left else {
        return refused(alloc, before, Refusal::LongAnswer);
    };
    match request_of(member) {
        Ok(request) => {
            let reply = endpoint.reply(alloc, &request, true);
            let text = reply.text();
            *left = less(bytes, text.len());
            joined(before, text)
        }
        Err(error) => refused(alloc, before, Refusal::NotARequest(error)),
    }
}

/// How many bytes are left behind so many more; `None` if there are more.
#[tactic(auto, unfolding(crate::specs::Batches::less))]
fn less(left: usize, spent: usize) -> Option<usize>
    ensures { result ≡ less left spent }
{
    if spent <= left {
        Some(left - spent)
    } else {
        None
    }
}

/// A refusal behind a text.
fn refused(alloc: Global, before: Text, refusal: Refusal) -> Text
    ensures { IfOk result (λ made. IsOkAnd before (λ b. string_bytes made ≡ string_bytes b ++ refusal_text refusal)) }
{
    let text = refusal.text(alloc)?;
    joined(before, text.as_str())
}

/// A text behind another.
fn joined(before: Text, text: &str) -> Text
    ensures { IfOk result (λ made. IsOkAnd before (λ b. string_bytes made ≡ string_bytes b ++ text.now)) }
{
    let mut made = before?;
    made.push_str(text)?;
    Ok(made)
}

/// The reply that a text is.
fn reply_of(alloc: Global, text: Text) -> Reply
    ensures { (IfOk text (λ made. (result.outcome ≡ Outcome.Executed) × (result.line ≡ made))) × (IfErr text (λ _. result.outcome ≡ Outcome.OutOfMemory)) }
{
    match text {
        Ok(line) => Reply {
            outcome: Outcome::Executed,
            line,
        },
        Err(_) => Reply {
            outcome: Outcome::OutOfMemory,
            line: String::new(alloc),
        },
    }
}
