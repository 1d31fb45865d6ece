//! The keys of the objects that lines have.
ghost use Rattle.std.specs.Prelude.{◌≡◌, IfSome};
ghost use Rattle.std.specs.Str.{bytes_eq};
ghost use Rattle.cq_json.specs.Keys.{key_number, key_text};

/// A key of an object that says an event or an ask.
#[derive(Clone, Copy)]
pub enum Key {
    /// `op`
    Op,
    /// `at`
    At,
    /// `clock`
    Clock,
    /// `client`
    Client,
    /// `number`
    Number,
    /// `ask`
    Ask,
    /// `tag`
    Tag,
    /// `queue`
    Queue,
    /// `from`
    From,
    /// `to`
    To,
    /// `server`
    Server,
    /// `kind`
    Kind,
    /// `visibility`
    Visibility,
    /// `content_dedup`
    ContentDedup,
    /// `group`
    Group,
    /// `dedup`
    Dedup,
    /// `body`
    Body,
    /// `size`
    Size,
    /// `receipt`
    Receipt,
}

/// The only key that a name of that length and that first byte can be.
fn likely(len: usize, first: u8) -> Option<Key> {
    let key = match (len, first) {
        (2, b'o') => Key::Op,
        (2, b'a') => Key::At,
        (5, b'c') => Key::Clock,
        (6, b'c') => Key::Client,
        (6, b'n') => Key::Number,
        (3, b'a') => Key::Ask,
        (3, b't') => Key::Tag,
        (5, b'q') => Key::Queue,
        (4, b'f') => Key::From,
        (2, b't') => Key::To,
        (6, b's') => Key::Server,
        (4, b'k') => Key::Kind,
        (10, b'v') => Key::Visibility,
        (13, b'c') => Key::ContentDedup,
        (5, b'g') => Key::Group,
        (5, b'd') => Key::Dedup,
        (4, b'b') => Key::Body,
        (4, b's') => Key::Size,
        (7, b'r') => Key::Receipt,
        _ => return None,
    };
    Some(key)
}

impl Key {
    fn number(self) -> u8
        ensures { result ≡ key_number self }
    {
        match self {
            Key::Op => 0,
            Key::At => 1,
            Key::Clock => 2,
            Key::Client => 3,
            Key::Number => 4,
            Key::Ask => 5,
            Key::Tag => 6,
            Key::Queue => 7,
            Key::From => 8,
            Key::To => 9,
            Key::Server => 10,
            Key::Kind => 11,
            Key::Visibility => 12,
            Key::ContentDedup => 13,
            Key::Group => 14,
            Key::Dedup => 15,
            Key::Body => 16,
            Key::Size => 17,
            Key::Receipt => 18,
        }
    }

    /// Whether both are the same key.
    #[tactic(auto, using(crate::proofs::Keys::same_key))]
    pub(crate) fn is(self, other: Key) -> bool
        ensures { result ≡ bytes_eq (key_text self) (key_text other) }
    {
        self.number() == other.number()
    }

    /// Its name.
    fn name(self) -> &'static str
        ensures { result.now ≡ key_text self }
    {
        match self {
            Key::Op => "op",
            Key::At => "at",
            Key::Clock => "clock",
            Key::Client => "client",
            Key::Number => "number",
            Key::Ask => "ask",
            Key::Tag => "tag",
            Key::Queue => "queue",
            Key::From => "from",
            Key::To => "to",
            Key::Server => "server",
            Key::Kind => "kind",
            Key::Visibility => "visibility",
            Key::ContentDedup => "content_dedup",
            Key::Group => "group",
            Key::Dedup => "dedup",
            Key::Body => "body",
            Key::Size => "size",
            Key::Receipt => "receipt",
        }
    }

    /// The key of that name, if there is one: O(bytes of the longest key).
    pub(crate) fn named(name: &str) -> Option<Key>
        ensures { IfSome result (λ key. name.now ≡ key_text key) }
    {
        let key = likely(name.len(), *name.as_bytes().first()?)?;
        if name == key.name() { Some(key) } else { None }
    }
}
