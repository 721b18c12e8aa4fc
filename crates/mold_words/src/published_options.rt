//! The options of `mold publish` and `mold feed` about the session that they publish.

ghost use Rattle.std.specs.Prelude.{◌≡◌, ◌≤◌, true};
ghost use Rattle.std.specs.List.{list_all};
ghost use Rattle.mold_words.specs.Values.{is_character};
ghost use Rattle.mold_wire.specs.declared.limits.TheConstants.{MAX_LIMIT, MIN_LIMIT};

/// The session that is published, as the fields of `PublishOrder` and `FeedOrder` with these names.
#[derive(Clone, Copy)]
pub(crate) struct PublishedOptions {
    pub session: [u8; 10],
    pub limit: usize,
    pub beats: u32,
    pub ends: u32,
    ghost named: { list_all is_character session ≡ true },
    ghost limited: { (MIN_LIMIT ≤ limit) × (limit ≤ MAX_LIMIT) },
    ghost beating: { beats ≤ 1000 },
    ghost ending: { ends ≤ 1000 },
}
