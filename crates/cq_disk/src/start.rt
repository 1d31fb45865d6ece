//! What is supposed of the bytes as a device is opened.
ghost use Rattle.std.specs.Prelude.{ℕ, List, []};

/// The bytes that a device begins with. What is generic over `S: Start` is proved for all of them, and no code can
/// read them.
pub trait Start: Drop {
    /// What a read gives.
    ghost shown: { List ℕ };

    /// What the medium may hold instead, until a sync has ended well: a process that was killed, or a sync of it
    /// that failed, may have left reads other than the medium.
    ghost beneath: { List ℕ → Type 0 };
}

/// For `main` to name. A clause says nothing at this type alone, but what is called at it is proved for all starts.
#[derive(Drop)]
pub struct Unknown;

impl Start for Unknown {
    ghost shown = { [] };

    ghost beneath = { λ c. ⊥ };
}
