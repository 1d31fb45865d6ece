//! Sessions that go on behind what was kept of them.
use crate::scripts::{FIRST_PATH, FIRST_PATH_TEXT};
use cq_base::ChainSize;
use cq_script::{Checked, ResumedSession, session};
use std::alloc::Global;
use std::test::Fail;

fn session_text(alloc: Global, lines: &[u8]) -> Vec<u8> {
    let mut text = Vec::new(alloc);
    let _ = session(
        alloc,
        ChainSize::one(),
        &mut Checked::new(lines),
        &mut Checked::new(&mut text),
    );
    text
}

/// A session is cut short at each byte. Its lines that had ended were answered; another one answers the rest, of which half
/// comes as one chunk.
#[test]
fn a_resumed_session_answers_the_rest(rt: HostRuntime) -> Result<(), Fail> {
    for place in 0..=FIRST_PATH.len() {
        let (kept, later) = FIRST_PATH.as_bytes().split_at(place);
        let ended = kept
            .iter()
            .rposition(|byte| *byte == b'\n')
            .map_or(0, |at| at + 1);
        let mut text = session_text(rt.alloc(), &kept[..ended]);
        let mut resumed = ResumedSession::new(rt.alloc(), ChainSize::one())?;
        let (first, second) = kept.split_at(place / 2);
        resumed.restore(first)?;
        resumed.restore(second)?;
        let (third, last) = later.split_at(later.len() / 2);
        resumed.feed(third, &mut Checked::new(&mut text))?;
        let answer = resumed.go_on(&mut Checked::new(last), &mut Checked::new(&mut text));
        assert_eq!(rt; answer, Ok(()));
        assert_eq!(rt;
            text.as_slice(),
            FIRST_PATH_TEXT.as_bytes(),
            "cut at {place}"
        );
    }
    Ok(())
}
