// How the program is used.
use printed::text;
use std::io;

// Writes what a hand, its calls and its tiles look like.
fn say_tiles(rt: &impl Print) -> io::Result<()> {
    text::say(
        rt,
        b"TILES  222333444m567p88s: numbers, then m man, p pin, s sou; honors 1z to 7z East South West North\n",
    )?;
    text::say(
        rt,
        b"       White Green Red, or by letter: e s w n wh g r; several words add up\n",
    )?;
    text::say(
        rt,
        b"       the tiles not called, the winning tile included\n",
    )?;
    text::say(
        rt,
        b"CALL   chi 123m, pon 111m, kan 1111m (open), ankan 1111m (closed), kakan 1111m (added)\n",
    )?;
    text::say(
        rt,
        b"       or in brackets: '(123m)', '(111m)', '(1111m)' open, '[1111m]' closed\n",
    )?;
    text::say(
        rt,
        b"       then who the tile came from: left, across or right (kamicha, toimen, shimocha); without: left\n",
    )
}

// Writes which words there are beside them.
fn say_words(rt: &impl Print) -> io::Result<()> {
    text::say(
        rt,
        b"WIND   east south west north, or e s w n; without: round east, seat south; seat east, or the word\n",
    )?;
    text::say(rt, b"       dealer, is the dealer\n")?;
    text::say(
        rt,
        b"FLAG   riichi double-riichi ippatsu rinshan chankan last-tile (or haitei, houtei) tenhou chiihou\n",
    )?;
    text::say(
        rt,
        b"ROOM   double-wind-2: a pair that is both round and seat wind has 2 fu; double-wind-4, or neither: 4\n",
    )?;
    text::say(
        rt,
        b"GAME   three (or sanma): three players, no man 2 to 8, no chi, nobody across, no dora shown; four (or\n",
    )?;
    text::say(rt, b"       yonma), or neither: four players\n")
}

// Writes how dora is said, and what is to be known beside the words.
fn say_dora(rt: &impl Print) -> io::Result<()> {
    text::say(
        rt,
        b"DORA   dora TILES, ura TILES: the indicators, which are the tiles shown and not the dora itself, as in\n",
    )?;
    text::say(
        rt,
        b"       dora 3m4p or dora 3m dora 4p, at most ten of each; ura counts only with riichi\n\n",
    )?;
    text::say(
        rt,
        b"Words may stand in quotes together. Red fives (0m) are refused, as they are not counted: write 5m,\n",
    )?;
    text::say(rt, b"and add a han by hand for each in the hand.\n\n")
}

// Writes how to use it.
pub fn say_usage(rt: &impl Print) -> io::Result<()> {
    text::say(
        rt,
        b"score TILES.. [CALL TILES].. ron|tsumo TILE [round WIND] [seat WIND] [FLAG].. [ROOM] [GAME] [DORA]..\n",
    )?;
    text::say(
        rt,
        b"writes every reading of a finished hand, what it is worth, and which is chosen\n\n",
    )?;
    say_tiles(rt)?;
    say_words(rt)?;
    say_dora(rt)?;
    text::say(rt, b"score 222333444m567p88s ron 8s\n")?;
    text::say(
        rt,
        b"score 22m567p345s chi 234m pon 555z across tsumo 5s dealer\n",
    )?;
    text::say(
        rt,
        b"score '22m 567p 345s (234m) (555z) across tsumo 5s dealer'\n",
    )?;
    text::say(
        rt,
        b"score 123m55m456p234678s ron 8s riichi dora 4m ura 1z\n",
    )?;
    text::say(
        rt,
        b"score three 111999m567p88s pon 555z right tsumo 8s\n\n",
    )
}
