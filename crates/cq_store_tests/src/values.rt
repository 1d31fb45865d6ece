//! Made ids beside those of another program: that they are hashes is proved of what the library calls a hash.
use cq_base::{Body, DedupId};
use std::alloc::{AllocError, Global};
use std::test::Fail;

/// So many letters.
fn letters(alloc: Global, count: usize) -> Result<String, AllocError> {
    let mut text = String::with_capacity(alloc, count)?;
    for _ in 0..count {
        text.push('a')?;
    }
    Ok(text)
}

/// The id that is made of a body of that text.
fn made(alloc: Global, text: &str) -> Result<DedupId, Fail> {
    Ok(DedupId::of_body(&Body::new(alloc, text)?)?)
}

#[test]
fn ids_are_made_as_sha256sum_makes_them(rt: HostRuntime) -> Result<(), Fail> {
    let alloc = rt.alloc();
    let longest = letters(alloc, 262_144)?;
    for (text, id) in [
        (
            "abc",
            "ba7816bf8f01cfea414140de5dae2223b00361a396177a9cb410ff61f20015ad",
        ),
        (
            "hello",
            "2cf24dba5fb0a30e26e83b2ac5b9e29e1b161e5c1fa7425e73043362938b9824",
        ),
        (
            " ",
            "36a9e7f1c95b82ffb99743e0c5c4ce95d83c9a430aac59f84ef3cbfab6145068",
        ),
        (
            longest.as_str(),
            "dd3dde87623d9a6b354c68c943d189c89c63652d945e7bbdf0986cae91a49521",
        ),
        (
            "ä€𝄞",
            "8119dd09487f1de241b90065fcb5b9f07e04d877b9593da1a9eff9688d9093aa",
        ),
    ] {
        assert_eq!(rt; made(alloc, text)?.as_str(), id);
    }
    Ok(())
}
