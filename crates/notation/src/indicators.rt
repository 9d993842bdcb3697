// Indicators of dora as they are said: the tiles that are shown, in the order of the words. Each is counted, up to 255; ten are kept, and of more the
// scoring of a win refuses the count.
ghost use Rattle.std.specs.Prelude.{◌≡◌};
ghost use Rattle.tile_words.specs.Words.{tiles_of};
ghost use Rattle.notation.specs.Shown.{with_indicator, with_indicators};

// None is shown.
pub fn none() -> context::Indicators {
    context::Indicators {
        count: 0,
        tiles: [0; 10],
    }
}

// The indicators with one more.
fn with_one(k: context::Indicators, t: u8) -> context::Indicators
    ensures { result ≡ with_indicator k t }
{
    let mut tiles = k.tiles;
    call_words::put(&mut tiles, usize::from(k.count), t);
    context::Indicators {
        count: k.count.saturating_add(1),
        tiles,
    }
}

// The indicators with the tiles of a word.
pub fn with_word(k: context::Indicators, word: &[u8]) -> context::Indicators
    ensures { result ≡ with_indicators k (tiles_of word.now) }
{
    let mut all = k;
    for i in 0..word.len() {
        if let Some(t) = tile_words::tile_at(word, i) {
            all = with_one(all, t);
        }
    }
    all
}
