// What the octets of a message show: its numbers and identifiers, and where its strings and maps stand.
use items::types::Span;

/// The message id.
#[derive(Clone, Copy)]
pub struct Mid {
    pub epoch: u64,
    pub counter: u64,
    pub sid: [u8; 16],
    pub exp: Option<u64>,
}

/// The command, its arguments not yet examined.
#[derive(Clone, Copy)]
pub struct Cmd {
    pub kind: u64,
    /// The whole map of the arguments, its head included.
    pub args: Span,
    /// What the byte string holds.
    pub duo: Option<Span>,
}

/// The authentication.
#[derive(Clone, Copy)]
pub struct Auth {
    /// Where its head stands.
    pub place: usize,
    pub alg: u8,
    pub kid: [u8; 16],
    /// Where the signature's entry starts, with its key.
    pub entry: usize,
    /// What the signature holds; its entry ends with it.
    pub signature: Span,
    /// What the byte string holds.
    pub ctx: Option<Span>,
}

/// The map of metadata.
#[derive(Clone, Copy)]
pub struct Meta {
    /// The whole map, its head included.
    pub span: Span,
    /// What the byte string holds.
    pub echo: Option<Span>,
}

/// What a message shows.
#[derive(Clone, Copy)]
pub struct View {
    pub profile: u64,
    pub mid: Mid,
    pub cmd: Cmd,
    pub auth: Auth,
    pub meta: Option<Meta>,
    /// The whole map, its head included.
    pub ext: Option<Span>,
}
