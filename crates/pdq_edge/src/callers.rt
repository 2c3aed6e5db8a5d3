ghost use Rattle.std.specs.Prelude.{◌≡◌, vec_len};

/// A client to be served: where its bytes come from, where the replies go, and the 48 stores for what overflows.
#[derive(Drop)]
pub struct Caller<So, Si, Sp> {
    pub source: So,
    pub sink: Si,
    pub stores: Vec<Sp>,
    pub ghost all_stores: { vec_len stores ≡ 48 },
}

/// What a door answers about the next client.
#[derive(Drop)]
pub enum Knock<C> {
    /// A caller came.
    Came(C),
    /// A caller came for whom memory was wanting; it was closed.
    Lost,
    /// No caller is there now.
    Quiet,
    /// None will come again.
    Closed,
}
