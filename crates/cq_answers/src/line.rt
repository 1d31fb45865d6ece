//! The lines that tell answers and refusals.
ghost use Rattle.std.specs.Prelude.{◌≡◌, IfOk, OnOk};
ghost use Rattle.serde_json.specs.Events.{SendsValue};
ghost use Rattle.cq_answers.specs.Answers.{answer_data, answer_text, query_data, refused_data, refused_text, reply_data, request_data};

use crate::member::{write_number, write_text};
use crate::reply::write_reply;
use cq_base::NoMemory;
use cq_chain::Answer;
use serde::{Described, Serialize, Serializer};
use std::alloc::Global;

fn write_request<S: Serializer>(
    alloc: Global,
    out: &mut S,
    line: u64,
    answer: &Answer,
) -> Result<(), S::Error>
    ensures { OnOk result (SendsValue (request_data line answer.now (reply_data answer.now.reply)) (S.written out.old) (S.written out.new)) }
{
    out.begin_map(Some(5))?;
    write_number(out, "client", u64::from(answer.client))?;
    write_number(out, "length", answer.length)?;
    write_number(out, "line", line)?;
    write_number(out, "number", answer.number)?;
    out.key("reply")?;
    write_reply(alloc, out, &answer.reply)?;
    out.end_map()
}

fn write_query<S: Serializer>(
    alloc: Global,
    out: &mut S,
    line: u64,
    answer: &Answer,
) -> Result<(), S::Error>
    ensures { OnOk result (SendsValue (query_data line answer.now (reply_data answer.now.reply)) (S.written out.old) (S.written out.new)) }
{
    out.begin_map(Some(5))?;
    write_number(out, "client", u64::from(answer.client))?;
    write_number(out, "length", answer.length)?;
    write_number(out, "line", line)?;
    out.key("reply")?;
    write_reply(alloc, out, &answer.reply)?;
    write_number(out, "tag", answer.number)?;
    out.end_map()
}

/// An answer, given at the script's line with that number.
#[derive(Clone, Copy)]
struct Told<'a> {
    alloc: Global,
    line: u64,
    answer: &'a Answer,
}

impl<'a> Described for Told<'a> {
    ghost writes = { λ t old new. SendsValue (answer_data t.line t.answer.now) old new };
}

impl<'a> Serialize for Told<'a> {
    #[tactic(auto, unfolding(crate::specs::Answers::answer_data))]
    fn serialize<S: Serializer>(&self, out: &mut S) -> Result<(), S::Error> {
        if self.answer.is_query {
            write_query(self.alloc, out, self.line, self.answer)
        } else {
            write_request(self.alloc, out, self.line, self.answer)
        }
    }
}

/// The script's line with that number was refused, under that number and name.
#[derive(Clone, Copy)]
struct Refused<'a> {
    line: u64,
    code: u16,
    name: &'a str,
}

impl<'a> Described for Refused<'a> {
    ghost writes = { λ r old new. SendsValue (refused_data r.line r.code r.name.now) old new };
}

impl<'a> Serialize for Refused<'a> {
    #[tactic(auto, unfolding(crate::specs::Answers::refused_data))]
    fn serialize<S: Serializer>(&self, out: &mut S) -> Result<(), S::Error> {
        out.begin_map(Some(3))?;
        write_number(out, "line", self.line)?;
        write_text(out, "name", self.name)?;
        write_number(out, "refused", u64::from(self.code))?;
        out.end_map()
    }
}

/// The line that tells this answer, given at the script's line with that number, with its line feed: O(bytes of it).
pub fn answer_line(alloc: Global, line: u64, answer: &Answer) -> Result<Vec<u8>, NoMemory>
    ensures { IfOk result (λ text. text.items ≡ answer_text line answer.now) }
{
    let told = Told {
        alloc,
        line,
        answer,
    };
    let Ok(mut text) = serde_json::to_vec(alloc, &told) else {
        return Err(NoMemory);
    };
    text.push(b'\n')?;
    Ok(text)
}

/// The line that tells that the script's line with that number was refused, and why, with its line feed: O(bytes of
/// it).
pub fn refused_line(alloc: Global, line: u64, code: u16, name: &str) -> Result<Vec<u8>, NoMemory>
    ensures { IfOk result (λ text. text.items ≡ refused_text line code name.now) }
{
    let refused = Refused { line, code, name };
    let Ok(mut text) = serde_json::to_vec(alloc, &refused) else {
        return Err(NoMemory);
    };
    text.push(b'\n')?;
    Ok(text)
}
