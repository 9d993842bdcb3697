// The words that the program `score` knows, beside tiles and calls, and what each of them says.
#![tactic(auto)]

// What a word asks the next one to say.
#[derive(Clone, Copy, PartialEq, Eq)]
pub enum Asked {
    // the tiles of a call
    Chi,
    Pon,
    Kan,
    ClosedKan,
    AddedKan,
    // the winning tile
    Ron,
    Tsumo,
    // a wind
    Round,
    Seat,
    // riichi, behind double
    Riichi,
    // the indicators that are shown
    Dora,
    Ura,
}

// A flag of the win, in the order of its fields.
#[derive(Clone, Copy, PartialEq, Eq)]
pub enum Flag {
    Riichi,
    DoubleRiichi,
    Ippatsu,
    Rinshan,
    Chankan,
    LastTile,
    Tenhou,
    Chiihou,
}

impl Flag {
    // All of them, in their order.
    pub const ALL: [Flag; 8] = [
        Flag::Riichi,
        Flag::DoubleRiichi,
        Flag::Ippatsu,
        Flag::Rinshan,
        Flag::Chankan,
        Flag::LastTile,
        Flag::Tenhou,
        Flag::Chiihou,
    ];
}

// Whom a call came from, by how many seats onward that player sits.
#[derive(Clone, Copy, PartialEq, Eq)]
pub enum Source {
    Right = 1,
    Across = 2,
    Left = 3,
}

// A wind, in the order of the tiles.
#[derive(Clone, Copy, PartialEq, Eq)]
pub enum Wind {
    East,
    South,
    West,
    North,
}

// What a word says.
#[derive(Clone, Copy, PartialEq, Eq)]
pub enum Word {
    // another word belongs behind it
    Asks(Asked),
    Flags(Flag),
    // the winner is the dealer
    Dealer,
    // the last tile, drawn or discarded
    Haitei,
    Houtei,
    // the room's fu for a pair that is both round and seat wind
    DoubleWindTwo,
    DoubleWindFour,
    // how the program is used
    Help,
    // nothing: the program itself writes it before a hand
    Nothing,
    CallFrom(Source),
    // the game, by its players
    ThreePlayers,
    FourPlayers,
}

// Each known word in small letters. Where several say the same, the first is the one that the program writes.
static WORDS: [(&[u8], Word); 45] = [
    (b"chi", Word::Asks(Asked::Chi)),
    (b"pon", Word::Asks(Asked::Pon)),
    (b"kan", Word::Asks(Asked::Kan)),
    (b"daiminkan", Word::Asks(Asked::Kan)),
    (b"ankan", Word::Asks(Asked::ClosedKan)),
    (b"kakan", Word::Asks(Asked::AddedKan)),
    (b"shouminkan", Word::Asks(Asked::AddedKan)),
    (b"ron", Word::Asks(Asked::Ron)),
    (b"tsumo", Word::Asks(Asked::Tsumo)),
    (b"round", Word::Asks(Asked::Round)),
    (b"seat", Word::Asks(Asked::Seat)),
    (b"double", Word::Asks(Asked::Riichi)),
    (b"dora", Word::Asks(Asked::Dora)),
    (b"ura", Word::Asks(Asked::Ura)),
    (b"riichi", Word::Flags(Flag::Riichi)),
    (b"double-riichi", Word::Flags(Flag::DoubleRiichi)),
    (b"ippatsu", Word::Flags(Flag::Ippatsu)),
    (b"rinshan", Word::Flags(Flag::Rinshan)),
    (b"chankan", Word::Flags(Flag::Chankan)),
    (b"last-tile", Word::Flags(Flag::LastTile)),
    (b"tenhou", Word::Flags(Flag::Tenhou)),
    (b"chiihou", Word::Flags(Flag::Chiihou)),
    (b"dealer", Word::Dealer),
    (b"haitei", Word::Haitei),
    (b"houtei", Word::Houtei),
    (b"double-wind-2", Word::DoubleWindTwo),
    (b"double-wind-4", Word::DoubleWindFour),
    (b"help", Word::Help),
    (b"-h", Word::Help),
    (b"--help", Word::Help),
    (b"hand:", Word::Nothing),
    (b"right", Word::CallFrom(Source::Right)),
    (b"shimocha", Word::CallFrom(Source::Right)),
    (b"across", Word::CallFrom(Source::Across)),
    (b"toimen", Word::CallFrom(Source::Across)),
    (b"left", Word::CallFrom(Source::Left)),
    (b"kamicha", Word::CallFrom(Source::Left)),
    (b"three", Word::ThreePlayers),
    (b"sanma", Word::ThreePlayers),
    (b"three-player", Word::ThreePlayers),
    (b"three-players", Word::ThreePlayers),
    (b"four", Word::FourPlayers),
    (b"yonma", Word::FourPlayers),
    (b"four-player", Word::FourPlayers),
    (b"four-players", Word::FourPlayers),
];

static WINDS: [(&[u8], Wind); 4] = [
    (b"east", Wind::East),
    (b"south", Wind::South),
    (b"west", Wind::West),
    (b"north", Wind::North),
];

// What a word says, in any case; nothing where it is not known.
pub fn known(word: &[u8]) -> Option<Word> {
    WORDS
        .iter()
        .find(|(text, _)| word.eq_ignore_ascii_case(text))
        .map(|(_, said)| *said)
}

// Is the word known?
pub fn is_known(word: &[u8]) -> bool {
    known(word).is_some()
}

// Is the word a name or its first letter, in any case?
fn is_name_or_initial(word: &[u8], name: &[u8]) -> bool {
    match (word, name) {
        ([letter], [initial, ..]) => letter.eq_ignore_ascii_case(initial),
        _ => word.eq_ignore_ascii_case(name),
    }
}

// The wind that a word names, by its name or its first letter.
pub fn wind_named(word: &[u8]) -> Option<Wind> {
    WINDS
        .iter()
        .find(|(name, _)| is_name_or_initial(word, name))
        .map(|(_, wind)| *wind)
}

impl Word {
    // The first of the words that say it.
    pub fn text(self) -> &'static [u8] {
        WORDS
            .iter()
            .find(|(_, said)| *said == self)
            .map_or(b"", |(text, _)| *text)
    }
}

impl Wind {
    // Its name.
    pub fn name(self) -> &'static [u8] {
        WINDS
            .iter()
            .find(|(_, wind)| *wind == self)
            .map_or(b"", |(name, _)| *name)
    }
}
