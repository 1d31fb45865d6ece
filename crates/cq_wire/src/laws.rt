//! Laws of the layout. A function here does nothing: its contract is a law, which is proved with it.
ghost use Rattle.cq_wire.specs.Laws.{AreReadBack, Differ};
ghost use Rattle.cq_wire.specs.Layout.{entry, query, reply, request};
ghost use Rattle.cq_wire.specs.Limits.{IsEntry, IsQuery, IsReply, IsRequest};
ghost use Rattle.cq_wire.specs.Reading.{entry_at, query_at, reply_at, request_at};

/// What is written of a value is read as that value.
pub fn what_is_written_is_read()
    ensures entries { AreReadBack entry entry_at IsEntry }
    ensures requests { AreReadBack request request_at IsRequest }
    ensures queries { AreReadBack query query_at IsQuery }
    ensures replies { AreReadBack reply reply_at IsReply }
{}

/// No two values have the same bytes.
pub fn two_values_differ()
    ensures entries { Differ entry IsEntry }
    ensures requests { Differ request IsRequest }
    ensures queries { Differ query IsQuery }
    ensures replies { Differ reply IsReply }
{}
