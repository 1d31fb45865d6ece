//! Answers and refusals as lines at the end of a text.
ghost use Rattle.std.specs.Prelude.{◌≡◌, ◌++◌, OnOk, OnErr};
ghost use Rattle.serde_json.specs.Written.{compact_text};
ghost use Rattle.cq_answers.specs.Answers.{answer_data, answer_text, query_data, refused_data, refused_text, reply_data, request_data};
ghost use Rattle.cq_answers.specs.within.Told.{client_text};

use crate::row::Row;
use crate::row_reply::put_reply;
use cq_base::NoMemory;
use cq_chain::Answer;
use std::mem;

#[tactic(auto, unfolding(crate::specs::within::Told::client_text))]
fn put_client(row: &mut Row, line: u64, answer: &Answer) -> Result<(), NoMemory>
    ensures ok { OnOk result (row.new.told ≡ row.old.told ++ client_text line answer.now) }
    ensures before { row.new.before ≡ row.old.before }
{
    row.put(b"{\"client\":")?;
    row.put_number(u64::from(answer.client))?;
    row.put(b",\"length\":")?;
    row.put_number(answer.length)?;
    row.put(b",\"line\":")?;
    row.put_number(line)
}

fn put_request(row: &mut Row, line: u64, answer: &Answer) -> Result<(), NoMemory>
    ensures ok { OnOk result (row.new.told ≡ row.old.told ++ compact_text (request_data line answer.now (reply_data answer.now.reply))) }
    ensures before { row.new.before ≡ row.old.before }
{
    put_client(row, line, answer)?;
    row.put(b",\"number\":")?;
    row.put_number(answer.number)?;
    row.put(b",\"reply\":")?;
    put_reply(row, &answer.reply)?;
    row.put(b"}")
}

fn put_query(row: &mut Row, line: u64, answer: &Answer) -> Result<(), NoMemory>
    ensures ok { OnOk result (row.new.told ≡ row.old.told ++ compact_text (query_data line answer.now (reply_data answer.now.reply))) }
    ensures before { row.new.before ≡ row.old.before }
{
    put_client(row, line, answer)?;
    row.put(b",\"reply\":")?;
    put_reply(row, &answer.reply)?;
    row.put(b",\"tag\":")?;
    row.put_number(answer.number)?;
    row.put(b"}")
}

#[tactic(auto, unfolding(crate::specs::Answers::answer_data))]
fn put_told(row: &mut Row, line: u64, answer: &Answer) -> Result<(), NoMemory>
    ensures ok { OnOk result (row.new.told ≡ row.old.told ++ compact_text (answer_data line answer.now)) }
    ensures before { row.new.before ≡ row.old.before }
{
    if answer.is_query {
        put_query(row, line, answer)
    } else {
        put_request(row, line, answer)
    }
}

fn put_answer(row: &mut Row, line: u64, answer: &Answer) -> Result<(), NoMemory>
    ensures ok { OnOk result (row.new.told ≡ row.old.told ++ answer_text line answer.now) }
    ensures before { row.new.before ≡ row.old.before }
{
    put_told(row, line, answer)?;
    row.put(b"\n")
}

fn put_refusal(row: &mut Row, line: u64, code: u64, name: &str) -> Result<(), NoMemory>
    ensures ok { OnOk result (row.new.told ≡ row.old.told ++ compact_text (refused_data line code name.now)) }
    ensures before { row.new.before ≡ row.old.before }
{
    row.put(b"{\"line\":")?;
    row.put_number(line)?;
    row.put(b",\"name\":")?;
    row.put_string(name)?;
    row.put(b",\"refused\":")?;
    row.put_number(code)?;
    row.put(b"}")
}

fn put_refused(row: &mut Row, line: u64, code: u16, name: &str) -> Result<(), NoMemory>
    ensures ok { OnOk result (row.new.told ≡ row.old.told ++ refused_text line code name.now) }
    ensures before { row.new.before ≡ row.old.before }
{
    put_refusal(row, line, u64::from(code), name)?;
    row.put(b"\n")
}

/// Writes the line that tells this answer, given at the script's line with that number, with its line feed, at the end
/// of the text: O(bytes of it). It takes no memory but what the text grows by. After `NoMemory` the text is as before.
pub fn write_answer(text: &mut Vec<u8>, line: u64, answer: &Answer) -> Result<(), NoMemory>
    ensures ok { OnOk result (text.new.items ≡ text.old.items ++ answer_text line answer.now) }
    ensures err { OnErr result (text.new.items ≡ text.old.items) }
{
    let empty = Vec::new(*text.allocator());
    let mut row = Row::after(mem::replace(text, empty));
    if put_answer(&mut row, line, answer).is_err() {
        *text = row.undone();
        return Err(NoMemory);
    }
    *text = row.whole();
    Ok(())
}

/// Writes the line that tells that the script's line with that number was refused, and why, with its line feed, at the
/// end of the text: O(bytes of it). It takes memory as `write_answer` does. After `NoMemory` the text is as before.
pub fn write_refused(text: &mut Vec<u8>, line: u64, code: u16, name: &str) -> Result<(), NoMemory>
    ensures ok { OnOk result (text.new.items ≡ text.old.items ++ refused_text line code name.now) }
    ensures err { OnErr result (text.new.items ≡ text.old.items) }
{
    let empty = Vec::new(*text.allocator());
    let mut row = Row::after(mem::replace(text, empty));
    if put_refused(&mut row, line, code, name).is_err() {
        *text = row.undone();
        return Err(NoMemory);
    }
    *text = row.whole();
    Ok(())
}
