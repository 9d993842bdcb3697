// The exported operations, for a caller that has its calls by value: the first of five melds are lent to them as a slice.
#![tactic(auto)]

ghost use Rattle.std.specs.Prelude.{◌≡◌, ◌≤◌, length, take};
ghost use Rattle.unit.specs.Listing.{listing, written};
ghost use Rattle.lent.specs.Lent.{calls_of};
ghost use Rattle.answers.specs.Answers.{listing_answer};
ghost use Rattle.lending.specs.Asked.{asked};

// Lists the readings of a hand into the lent buffer; its calls are the first n of five melds.
pub fn list(
    counts: &[u8],
    melds: [meld::Meld; 5],
    n: usize,
    out: &mut [u8],
) -> answers::ListingAnswer
    requires { n ≤ 5 }
    ensures answer { result ≡ listing_answer (listing counts.now (calls_of (take n melds)) (length out.old)) }
    ensures buffer { out.new ≡ written counts.now (calls_of (take n melds)) out.old }
{
    ziwhakemo::ziwhakemo_list_readings(counts, &melds[..n], out)
}

// What the three operations on a win answer: its score, and score and waits of a reading.
#[derive(Clone, Copy)]
pub struct Asked {
    pub win: answers::ScoreValues,
    pub reading: answers::ScoreValues,
    pub waits: answers::WaitsValues,
}

// Asks all three of a win whose calls are the first n of five melds, and of reading number k.
pub fn ask(
    counts: &[u8],
    melds: [meld::Meld; 5],
    n: usize,
    w: context::GameContext,
    k: usize,
) -> Asked
    requires { n ≤ 5 }
    ensures { result ≡ asked counts.now (calls_of (take n melds)) w k }
{
    let calls = &melds[..n];
    let win = ziwhakemo::ziwhakemo_score_win(counts, calls, w);
    let reading = ziwhakemo::ziwhakemo_score_reading(counts, calls, w, k);
    let waits = ziwhakemo::ziwhakemo_name_waits(counts, calls, w, k);
    Asked {
        win: win,
        reading: reading,
        waits: waits,
    }
}
