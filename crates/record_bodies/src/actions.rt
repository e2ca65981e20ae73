//! What re-enciphering does to a store.

/// What is done to each label of a store.
#[derive(Clone, Copy, Debug, PartialEq, Eq)]
pub enum StoreAction {
    /// A key under the old master key comes under the current one.
    Renew,
    /// A key under the current master key is sealed under the new one besides.
    Ahead,
    /// The second token is taken away again.
    Drop,
}
