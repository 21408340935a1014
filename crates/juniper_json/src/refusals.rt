//! Requests that have no answer, as lines of JSON (sections 7.1 and 7.1.2 of the Specification).

ghost use Rattle.std.specs.Prelude.{◌≡◌, ◌+◌, IfOk, OnOk, map, option_map, string_bytes};
ghost use Rattle.serde_json.specs.Data.{array};
ghost use Rattle.serde_json.specs.Events.{SendsMembers, SendsValue, members_len};
ghost use Rattle.juniper_json.specs.AnswerText.{items_data};
ghost use Rattle.juniper_json.specs.RefusalText.{members_behind, number_members, refusal_data, refusals_data, refusals_text, rule_data, rule_members};
ghost use Rattle.juniper_json.specs.RefusalText.{view_refusal, view_rule};

use crate::line::send_locations;
use juniper_syntax::SourcePosition;
use serde::{Described, Serialize, Serializer};
use std::alloc::{AllocError, Global};

/// What is broken, as the extensions of an error tell it: `{"rule":"Unknown field","number":13}`.
#[derive(Debug, Drop)]
pub struct BrokenRule {
    /// The text of the error that is listed of it.
    pub text: String,
    /// Its number, where it has one.
    pub number: Option<usize>,
}

/// Why a request has no answer, or what explains that: an error of a response without data.
#[derive(Debug, Drop)]
pub struct Refusal {
    /// The message.
    pub message: String,
    /// The place in the text, where there is one.
    pub place: Option<SourcePosition>,
    /// What is broken, where that is told: the extensions.
    pub rule: Option<BrokenRule>,
}

/// The errors that a response without data shows.
#[derive(Drop)]
struct Refused<'a> {
    refusals: &'a [Refusal],
}

/// The line of a response without data: its errors (7.1). An error where memory is refused.
pub(crate) fn refusal_line(alloc: Global, refusals: &[Refusal]) -> Result<String, AllocError>
    ensures { IfOk result (λ line. string_bytes line ≡ refusals_text (map view_refusal refusals.now)) }
{
    match serde_json::to_string(alloc, &Refused { refusals }) {
        Ok(line) => Ok(line),
        Err(_) => Err(AllocError),
    }
}

impl Described for Refused<'_> {
    ghost writes = { λ s. SendsValue (refusals_data (map view_refusal s.refusals.now)) };
}

impl Serialize for Refused<'_> {
    #[tactic(auto, unfolding(crate::specs::RefusalText::refusals_data))]
    fn serialize<W: Serializer>(&self, out: &mut W) -> Result<(), W::Error> {
        out.begin_map(Some(1))?;
        out.key("errors")?;
        send_refusals(self.refusals, out)?;
        out.end_map()
    }
}

#[tactic(auto, unfolding(crate::specs::AnswerText::items_data))]
fn send_refusals<W: Serializer>(refusals: &[Refusal], out: &mut W) -> Result<(), W::Error>
    ensures { OnOk result (SendsValue (array (items_data refusal_data (map view_refusal refusals.now))) (W.written out.old) (W.written out.new)) }
{
    out.begin_seq(Some(refusals.len()))?;
    for refusal in refusals {
        send_refusal(refusal, out)?;
    }
    out.end_seq()
}

/// Sends an error with its place in the text and with what is broken, where it has them (7.1.2).
fn send_refusal<W: Serializer>(refusal: &Refusal, out: &mut W) -> Result<(), W::Error>
    ensures { OnOk result (SendsValue (refusal_data (view_refusal refusal.now)) (W.written out.old) (W.written out.new)) }
{
    out.begin_map(Some(refusal_members(refusal)))?;
    out.key("message")?;
    out.str(refusal.message.as_str())?;
    end_with_place(refusal, out)
}

/// How many members an error has: its message, its place where it has one, and its extensions where something is told to be broken.
#[tactic(auto, unfolding(crate::specs::RefusalText::placed_members, crate::specs::RefusalText::rule_members))]
fn refusal_members(refusal: &Refusal) -> usize
    ensures { result ≡ 1 + members_len (members_behind (view_refusal refusal.now)) }
{
    match &refusal.place {
        None => match &refusal.rule {
            None => 1,
            Some(_) => 2,
        },
        Some(_) => match &refusal.rule {
            None => 2,
            Some(_) => 3,
        },
    }
}

/// Sends what stands behind the message of an error, and the end.
#[tactic(auto, unfolding(crate::specs::RefusalText::placed_members))]
fn end_with_place<W: Serializer>(refusal: &Refusal, out: &mut W) -> Result<(), W::Error>
    ensures { OnOk result (SendsMembers (members_behind (view_refusal refusal.now)) (W.written out.old) (W.written out.new)) }
{
    match &refusal.place {
        None => end_with_rule(&refusal.rule, out),
        Some(place) => {
            out.key("locations")?;
            send_locations(place, out)?;
            end_with_rule(&refusal.rule, out)
        },
    }
}

/// Sends the extensions of an error, where something is told to be broken, and the end.
#[tactic(auto, unfolding(crate::specs::RefusalText::rule_members))]
fn end_with_rule<W: Serializer>(rule: &Option<BrokenRule>, out: &mut W) -> Result<(), W::Error>
    ensures { OnOk result (SendsMembers (rule_members (option_map view_rule rule.now)) (W.written out.old) (W.written out.new)) }
{
    match rule {
        None => out.end_map(),
        Some(broken) => {
            out.key("extensions")?;
            send_rule(broken, out)?;
            out.end_map()
        },
    }
}

/// Sends what is broken: its text, and its number where it has one.
fn send_rule<W: Serializer>(rule: &BrokenRule, out: &mut W) -> Result<(), W::Error>
    ensures { OnOk result (SendsValue (rule_data (view_rule rule.now)) (W.written out.old) (W.written out.new)) }
{
    out.begin_map(Some(told_members(rule)))?;
    out.key("rule")?;
    out.str(rule.text.as_str())?;
    end_with_number(rule, out)
}

/// How many members tell what is broken.
#[tactic(auto, unfolding(crate::specs::RefusalText::number_members))]
fn told_members(rule: &BrokenRule) -> usize
    ensures { result ≡ 1 + members_len (number_members (view_rule rule.now).number) }
{
    match &rule.number {
        None => 1,
        Some(_) => 2,
    }
}

/// Sends the number of what is broken, where it has one, and the end.
#[tactic(auto, unfolding(crate::specs::RefusalText::number_members))]
fn end_with_number<W: Serializer>(rule: &BrokenRule, out: &mut W) -> Result<(), W::Error>
    ensures { OnOk result (SendsMembers (number_members (view_rule rule.now).number) (W.written out.old) (W.written out.new)) }
{
    match &rule.number {
        None => out.end_map(),
        Some(number) => {
            out.key("number")?;
            out.u128(*number as u128)?;
            out.end_map()
        },
    }
}
