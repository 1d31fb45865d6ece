//! The part of help that all commands have.

/// What stands at the end of each help text.
pub(crate) const GUIDE: &str =
    r#"A script is lines of JSON, each of them one event. These two lines make a queue on one server:

  {"op":"arrive","at":1,"clock":1000,"client":1,"number":1,"ask":{"kind":"create","queue":"q.fifo","visibility":30}}
  {"op":"put","from":1,"to":"clients"}

A request arrives and is answered, and the put gives the answer to its client, as a line of output:

  {"client":1,"length":1,"line":2,"number":1,"reply":{"incarnation":1,"kind":"created"}}

Operations, with the keys that stand beside "op":
  arrive  at, clock, client, number, ask  a request reaches server "at", whose clock shows "clock"
  ask     at, client, tag, queue          a query asks server "at" how many messages the queue has
  put     from, to                        the first message that "from" has for "to" is sent
  take    from, to                        "to" takes the first message on its way from "from"
  crash   server                          the server is down for good
  detect  server                          the master learns that the server is down
  join    server                          a new server with this number joins at the end of the chain

The first servers are numbered from 1. Beside a server, "from" and "to" may be "master" or "clients".
Requests arrive at the first server of the chain, queries at the last one, and this one answers both.

Kinds of "ask" in an arrive, with the keys that stand beside "kind"; those in brackets may be missing:
  create   queue, [visibility],         makes the queue; a timeout of so many seconds, 30 if missing;
           [content_dedup]              true: a send without "dedup" has an id made of its body
  remove   queue                        ends the queue and its messages
  send     queue, group, [dedup], body  adds a message to the end of its group
  receive  queue, [size], [visibility]  hands out up to "size" messages, 1 if missing
  delete   queue, receipt               deletes the message that was handed out with this receipt
  change   queue, receipt, visibility   gives it another timeout, in seconds from now

An event that can't happen changes nothing, and is told by a line such as
{"line":5,"name":"ServerDown","refused":32}.

A live script, for "cq live", has one step a line, such as

  {"op":"client","client":1,"ask":{"kind":"create","queue":"q.fifo"}}

Steps, with the keys that stand beside "op":
  client  client, ask    the next ask of client 1 or 2, of one of the kinds above
  crash   server, after  the server crashes once it holds "after" requests
  join    server, after  a new server joins, up to number 8, from the master's turn "after" on

Commands, and when to use which:
  replay   for a script: it ends at its first fault, as at a line that says no event
  session  for a program at the other end of a pipe, or a person at a terminal: there is no limit to
           the lines, and a bad one is told by a line such as {"line":3,"name":"BadLine","refused":61},
           and the session goes on. With --journal FILE its lines are kept in this file before they
           are answered, and a later session with it goes on behind them: it begins with a line such as
           {"clients":2,"kind":"ready","lines":7,"queriers":0}. Where the file has no room, a line is
           refused by one such as {"line":8,"name":"NoRoom","refused":70}, and isn't kept
  watch    as session, without a journal, for who wants to see the chain, too: the line {"op":"show"} is
           answered by what it holds, as {"chain":[1],"joins":null,"kind":"show","ready":true,..},
           with its servers and with what is on its way between them
  verify   for the file of such a session: how many regions, records, bytes and lines it has, as
           {"bytes":4096,"kind":"journal","lines":7,"records":3,"regions":1}; where a store stands for
           its first lines, how many these are
  copy     to keep a copy of that file; TO is there once all of it is on the disk
  dump     to see its lines; where a store stands for the first ones, the store comes first, in lines
           such as {"chunk":"0100..","kind":"store"}. A session may run on a file that is verified,
           copied or dumped: nothing is written to it. Of the file of a server the store of all its
           entries is told, and how many these are
  live     to see a chain at work: servers, a master and two clients run side by side, each on a thread
           of its own; once the clients have their answers, all that the servers and the master did is
           put into one order and checked. It tells how many sends were accepted, and that the audit
           is fine
  explain  for lines that replay or session calls bad or refuses: it tells what is wrong with each, by a
           sentence such as: line 3, "op": "tak" is none of arrive, ask, put, take, crash, detect, join.
           With --live, for lines of a live script
  server   to keep one server of a chain whose servers are processes: it is told commands on standard
           input, and tells what comes of them on standard output, as frames of bytes. Another program
           carries messages from one to the other. The only server of a chain may have --journal FILE:
           its entries are kept in this file before anything is told of them, and a later one begins
           behind them
  master   to keep the master of such a chain

Examples:
  cq replay --servers 3 < SCRIPT
  cq session
  cq watch --servers 3
  cq session --journal queues.journal --journal-size 1024
  cq copy queues.journal monday.journal
  cq live --servers 5 --turns 1000000 < LIVE_SCRIPT
  cq explain --servers 3 < SCRIPT
  cq server --id 1 --first 3
  cq server --id 4 --joining
  cq server --id 1 --first 1 --journal queue.journal
  cq master --servers 3

Exit statuses:
  0  the script, the session or the live run came to its end, or the journal was told or copied, or
     the input of a server or a master ended
  1  the audit of a live run found no order of what was done: 72 AuditRefused
  2  a usage fault, a line that was explained, or a fault of the script: 61 BadLine, 62 LineTooLong, 63 TooManyLines, 74 BadScript
  3  the reader or the writer failed, or memory ran out: 64 ReadFailed, 65 WriteFailed, 20 NoMemory;
     a live run had no turns left, or no thread: 71 TurnLimit, 73 SpawnFailed; a piece of a message
     was too long for a frame: 75 Unanswered
  4  the journal of a session or a server: 66 JournalFailed, as where a write or a sync of it failed,
     or where a copy is there already, 67 JournalDamaged, 68 JournalBusy, as another one has it, 69
     NotAJournal, or 79 OtherJournal, as one of a server where one of a session is wanted, or one of
     a session on another number of servers
  5  a server that was to begin with a store was told none: 78 NotLoaded
A fault is told by one line on standard error, such as "cq: 61 BadLine line 3"."#;
