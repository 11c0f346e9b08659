//! What the two texts say. No call is made: the clauses speak of the definitions.

ghost use Rattle.std.specs.Prelude.{◌≡◌, ◌↔◌, ◌<◌, ◌^◌, ℕ, List, All};
ghost use Rattle.broker_model.specs.Tables.{OffsetRow, TopicRow, offset_in, queues_in};
ghost use Rattle.config_store.specs.Texts.{IsOffset, IsKeptTopic, offsets_text_of, topics_text_of};

/// Rows of offsets have one text exactly where they say the same of each group and queue. So what was written reads back, and the
/// order in which a table gives its rows doesn't show.
pub fn offsets_have_one_text()
    ensures { (rows others : List OffsetRow) → All IsOffset rows → All IsOffset others
        → (offsets_text_of rows ≡ offsets_text_of others)
        ↔ ((group topic : List ℕ) (queue : ℕ) → offset_in rows group topic queue ≡ offset_in others group topic queue) }
{}

/// The same of topics.
pub fn topics_have_one_text()
    ensures { (rows others : List TopicRow) → All IsKeptTopic rows → All IsKeptTopic others
        → (topics_text_of rows ≡ topics_text_of others) ↔ ((topic : List ℕ) → queues_in rows topic ≡ queues_in others topic) }
{}
