// What is written for each yaku, wait, level and refusal.
ghost use Rattle.std.specs.Prelude.{◌≡◌, cond, ◌*◌, ◌<◌, get_or};
ghost use Rattle.yaku.specs.Names.{names, han_closed, han_open, yakuhai_name};

use crate::text;
use std::io;
use yaku::names::Yaku;

// The yaku in the order of the tallies, and their names.
static YAKU: [(Yaku, &[u8]); 47] = [
    (Yaku::Riichi, b"Riichi"),
    (Yaku::Ippatsu, b"Ippatsu"),
    (Yaku::MenzenTsumo, b"Menzen Tsumo"),
    (Yaku::Tanyao, b"Tanyao"),
    (Yaku::Pinfu, b"Pinfu"),
    (Yaku::Iipeikou, b"Iipeikou"),
    (Yaku::Yakuhai(tile::Tile(27)), b"Yakuhai East"),
    (Yaku::Yakuhai(tile::Tile(28)), b"Yakuhai South"),
    (Yaku::Yakuhai(tile::Tile(29)), b"Yakuhai West"),
    (Yaku::Yakuhai(tile::Tile(30)), b"Yakuhai North"),
    (Yaku::Yakuhai(tile::Tile(31)), b"Yakuhai White"),
    (Yaku::Yakuhai(tile::Tile(32)), b"Yakuhai Green"),
    (Yaku::Yakuhai(tile::Tile(33)), b"Yakuhai Red"),
    (Yaku::RinshanKaihou, b"Rinshan Kaihou"),
    (Yaku::Chankan, b"Chankan"),
    (Yaku::HaiteiRaoyue, b"Haitei Raoyue"),
    (Yaku::HouteiRaoyui, b"Houtei Raoyui"),
    (Yaku::DoubleRiichi, b"Double Riichi"),
    (Yaku::Toitoi, b"Toitoi"),
    (Yaku::SanshokuDoujun, b"Sanshoku Doujun"),
    (Yaku::SanshokuDoukou, b"Sanshoku Doukou"),
    (Yaku::Ittsu, b"Ittsu"),
    (Yaku::Chiitoitsu, b"Chiitoitsu"),
    (Yaku::Chanta, b"Chanta"),
    (Yaku::SanAnkou, b"San Ankou"),
    (Yaku::SanKantsu, b"San Kantsu"),
    (Yaku::Honroutou, b"Honroutou"),
    (Yaku::Shousangen, b"Shousangen"),
    (Yaku::Honitsu, b"Honitsu"),
    (Yaku::Junchan, b"Junchan"),
    (Yaku::Ryanpeikou, b"Ryanpeikou"),
    (Yaku::Chinitsu, b"Chinitsu"),
    (Yaku::Tenhou, b"Tenhou"),
    (Yaku::Chiihou, b"Chiihou"),
    (Yaku::KokushiMusou, b"Kokushi Musou"),
    (Yaku::Suuankou, b"Suuankou"),
    (Yaku::Daisangen, b"Daisangen"),
    (Yaku::Shousuushii, b"Shousuushii"),
    (Yaku::Daisuushii, b"Daisuushii"),
    (Yaku::Tsuuiisou, b"Tsuuiisou"),
    (Yaku::Chinroutou, b"Chinroutou"),
    (Yaku::Ryuuiisou, b"Ryuuiisou"),
    (Yaku::ChuurenPoutou, b"Chuuren Poutou"),
    (Yaku::SuuKantsu, b"Suu Kantsu"),
    (Yaku::Kokushi13Wait, b"Kokushi 13-Wait"),
    (Yaku::SuuankouTanki, b"Suuankou Tanki"),
    (Yaku::JunseiChuurenPoutou, b"Junsei Chuuren Poutou"),
];

// The waits in the order of their tallies.
static WAITS: [&[u8]; 6] = [
    b"Ryanmen",
    b"Kanchan",
    b"Penchan",
    b"Shanpon",
    b"Tanki",
    b"Kokushi13",
];

// What each refusal means with four players, by its number.
static REFUSALS: [&[u8]; 15] = [
    b"accepted",
    b"the counts are not 34 long",
    b"more than four calls",
    b"a call's kind, tile or source is not that of a call",
    b"more than four of a tile in the hand",
    b"hand and calls together hold more than four of a kind",
    b"the hand has not the right number of tiles",
    b"the records need more bytes than were lent",
    b"win type, a wind or the room's setting out of range",
    b"the winning tile is not in the hand",
    b"the hand has no reading",
    b"no reading has a yaku",
    b"no reading has this number",
    b"basic points above 152,000",
    b"an indicator is above 33, or there are more than ten",
];

// The yaku at a place of the tallies.
fn yaku_at(i: usize) -> Yaku
    requires { i < 47 }
    ensures { result ≡ get_or names i (yakuhai_name 47) }
{
    YAKU[i].0
}

// The han that a yaku adds by its tally.
fn added_han(y: Yaku, tally: u8, opened: bool) -> u32
    ensures { result ≡ cond opened (han_open y) (han_closed y) * tally }
{
    if opened {
        return (y.han_open() as u32) * (tally as u32);
    }
    (y.han() as u32) * (tally as u32)
}

// Writes the yaku at a place of the tallies: its name, how often it counts where that is more than once, and the han that it adds.
pub fn say_yaku(rt: &impl Print, i: usize, tally: u8, opened: bool) -> io::Result<()>
    requires { i < 47 }
{
    text::say(rt, YAKU[i].1)?;
    if 1 < tally {
        text::say(rt, b" x")?;
        text::say_number(rt, tally as u64)?;
    }
    text::say(rt, b" ")?;
    text::say_number(rt, added_han(yaku_at(i), tally, opened) as u64)?;
    text::say(rt, b" han")
}

// Writes the wait at a place of the tallies, and its tally.
pub fn say_wait(rt: &impl Print, i: usize, tally: u8) -> io::Result<()>
    requires { i < 6 }
{
    text::say(rt, WAITS[i])?;
    text::say(rt, b" ")?;
    text::say_number(rt, tally as u64)
}

// Writes a level, with its count where a yakuman counts more than once.
pub fn say_level(rt: &impl Print, level: scoring::ScoreLevel) -> io::Result<()> {
    match level {
        scoring::ScoreLevel::Normal => text::say(rt, b"Normal"),
        scoring::ScoreLevel::Mangan => text::say(rt, b"Mangan"),
        scoring::ScoreLevel::Haneman => text::say(rt, b"Haneman"),
        scoring::ScoreLevel::Baiman => text::say(rt, b"Baiman"),
        scoring::ScoreLevel::Sanbaiman => text::say(rt, b"Sanbaiman"),
        scoring::ScoreLevel::Yakuman(n) => {
            text::say(rt, b"Yakuman")?;
            if 1 < n {
                text::say(rt, b" x")?;
                text::say_number(rt, n as u64)?;
            }
            Ok(())
        }
    }
}

// Writes what a refusal means with four players.
fn say_refusal_of_four(rt: &impl Print, number: u8) -> io::Result<()> {
    match REFUSALS.get(usize::from(number)) {
        Some(meaning) => text::say(rt, meaning),
        None => Ok(()),
    }
}

// Writes what a refusal means with three players: three of them are not the same.
fn say_refusal_of_three(rt: &impl Print, number: u8) -> io::Result<()> {
    match number {
        3 => text::say(rt, b"a call that is not made with three players"),
        4 => text::say(
            rt,
            b"more of a tile in the hand than there are with three players",
        ),
        14 => text::say(rt, b"with three players no indicator is shown"),
        _ => say_refusal_of_four(rt, number),
    }
}

// Writes what a refusal means in the game that is played.
pub fn say_refusal(rt: &impl Print, number: u8, v: rules::Variant) -> io::Result<()> {
    match v {
        rules::Variant::Yonma => say_refusal_of_four(rt, number),
        rules::Variant::Sanma => say_refusal_of_three(rt, number),
    }
}
