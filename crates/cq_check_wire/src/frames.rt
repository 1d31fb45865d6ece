//! Commands and responses made by a seed, and as words.
use crate::dump::{add_hex, add_query, add_request};
use crate::made::{Draws, moment, query, request, server};
use crate::stop;
use cq_base::Party;
use cq_frames::{Command, Piece, PieceNumber, Response, Standing};
use std::alloc::Global;
use std::fmt::Write;
use std::io;

fn party(draws: &mut Draws) -> io::Result<Party> {
    Ok(match draws.below(3) {
        0 => Party::Master,
        1 => Party::Clients,
        _ => Party::Server(server(draws)?),
    })
}

/// Up to 11 bytes.
fn piece(alloc: Global, draws: &mut Draws) -> io::Result<Piece> {
    let mut bytes = Vec::new(alloc);
    for _ in 0..draws.below(12) {
        bytes.push(draws.small(256)).map_err(|_| stop("no memory"))?;
    }
    Piece::new(bytes).ok_or(stop("no piece"))
}

fn piece_number(draws: &mut Draws) -> PieceNumber {
    PieceNumber {
        message: draws.number(),
        index: draws.number(),
    }
}

/// What a process is told of a link.
fn passing(alloc: Global, draws: &mut Draws) -> io::Result<Command> {
    Ok(match draws.below(3) {
        0 => Command::Take {
            from: party(draws)?,
            number: piece_number(draws),
            piece: piece(alloc, draws)?,
        },
        1 => Command::More { to: party(draws)? },
        _ => Command::Gone {
            server: server(draws)?,
        },
    })
}

pub fn command(alloc: Global, draws: &mut Draws) -> io::Result<Command> {
    Ok(match draws.below(7) {
        0 => Command::Arrive {
            stream: draws.number(),
            clock: moment(draws)?,
            request: request(alloc, draws)?,
        },
        1 => Command::Ask {
            query: query(alloc, draws)?,
        },
        2 => Command::Detect {
            server: server(draws)?,
        },
        3 => Command::Join {
            server: server(draws)?,
        },
        4 => Command::Save,
        5 => Command::Load {
            chunk: piece(alloc, draws)?,
        },
        _ => passing(alloc, draws)?,
    })
}

fn standing(draws: &mut Draws) -> io::Result<Standing> {
    Ok(Standing {
        count: draws.number(),
        acked: draws.number(),
        last: moment(draws)?,
        is_head: draws.below(2) == 0,
        is_acting: draws.below(2) == 0,
        is_full: draws.below(2) == 0,
    })
}

pub fn response(alloc: Global, draws: &mut Draws) -> io::Result<Response> {
    Ok(match draws.below(7) {
        0 => Response::Put {
            to: party(draws)?,
            number: piece_number(draws),
            piece: piece(alloc, draws)?,
        },
        1 => Response::Refused {
            code: draws.number32(),
        },
        2 => Response::Unread {
            code: draws.number32(),
        },
        3 => Response::Waiting { to: party(draws)? },
        4 => Response::Saved {
            count: draws.number(),
            chunk: piece(alloc, draws)?,
        },
        5 => Response::Done {
            standing: standing(draws)?,
        },
        _ => Response::Heard,
    })
}

fn add_party(text: &mut String, party: Party) -> io::Result<()> {
    match party {
        Party::Master => text.push_str(" master")?,
        Party::Clients => text.push_str(" clients")?,
        Party::Server(id) => write!(text, " server {}", id.get())?,
    }
    Ok(())
}

/// The hex digits of a piece; one without bytes is `-`.
fn add_piece(text: &mut String, piece: &Piece) -> io::Result<()> {
    let bytes = piece.as_bytes();
    text.push(' ')?;
    if bytes.is_empty() {
        text.push('-')?;
        return Ok(());
    }
    add_hex(text, bytes)
}

/// Adds the words of a command.
pub fn add_command(text: &mut String, command: &Command) -> io::Result<()> {
    match command {
        Command::Arrive {
            stream,
            clock,
            request,
        } => {
            write!(text, " arrive {stream} {}", clock.get())?;
            add_request(text, request)
        }
        Command::Ask { query } => {
            text.push_str(" ask")?;
            add_query(text, query)
        }
        Command::Take {
            from,
            number,
            piece,
        } => {
            text.push_str(" take")?;
            add_party(text, *from)?;
            write!(text, " {} {}", number.message, number.index)?;
            add_piece(text, piece)
        }
        Command::Detect { server } => {
            write!(text, " detect {}", server.get())?;
            Ok(())
        }
        Command::Join { server } => {
            write!(text, " join {}", server.get())?;
            Ok(())
        }
        Command::More { to } => {
            text.push_str(" more")?;
            add_party(text, *to)
        }
        Command::Gone { server } => {
            write!(text, " gone {}", server.get())?;
            Ok(())
        }
        Command::Save => {
            text.push_str(" save")?;
            Ok(())
        }
        Command::Load { chunk } => {
            text.push_str(" load")?;
            add_piece(text, chunk)
        }
    }
}

fn add_standing(text: &mut String, standing: &Standing) -> io::Result<()> {
    write!(
        text,
        " {} {} {} {} {} {}",
        standing.count,
        standing.acked,
        standing.last.get(),
        standing.is_head,
        standing.is_acting,
        standing.is_full
    )?;
    Ok(())
}

/// Adds the words of a response.
pub fn add_response(text: &mut String, response: &Response) -> io::Result<()> {
    match response {
        Response::Put { to, number, piece } => {
            text.push_str(" put")?;
            add_party(text, *to)?;
            write!(text, " {} {}", number.message, number.index)?;
            add_piece(text, piece)
        }
        Response::Refused { code } => {
            write!(text, " refused {code}")?;
            Ok(())
        }
        Response::Unread { code } => {
            write!(text, " unread {code}")?;
            Ok(())
        }
        Response::Waiting { to } => {
            text.push_str(" waiting")?;
            add_party(text, *to)
        }
        Response::Saved { count, chunk } => {
            write!(text, " saved {count}")?;
            add_piece(text, chunk)
        }
        Response::Done { standing } => {
            text.push_str(" done")?;
            add_standing(text, standing)
        }
        Response::Heard => {
            text.push_str(" heard")?;
            Ok(())
        }
    }
}
