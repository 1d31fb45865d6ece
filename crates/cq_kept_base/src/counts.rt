//! How much a store has.

use cq_store::Store;

/// How many messages the queue of the name at that place has.
fn messages_at(store: &Store, index: usize) -> u64 {
    match store.name(index) {
        Some((_, kept)) => match kept.living() {
            Some(queue) => queue.messages().len(),
            None => 0,
        },
        None => 0,
    }
}

/// How many messages a store has: O(names).
pub fn message_count(store: &Store) -> u64 {
    let mut count: u64 = 0;
    for index in 0..store.name_count() {
        count = count.saturating_add(messages_at(store, index));
    }
    count
}
