// Records read back: the reading whose record stands at a place of a buffer.
#![tactic(auto)]

ghost use Rattle.std.specs.Prelude.{◌≡◌, ◌+◌, ◌*◌, ◌≤◌};
ghost use Rattle.structure.specs.Structure.{reading_of};
ghost use Rattle.records.specs.Buffer.{byte_at, meld_at, tiles_at, reading_at, place_of};

// The byte at a place, 0 past the end.
fn byte_at(b: &[u8], i: usize) -> u8
    ensures { result ≡ byte_at b.now i }
{
    b.get(i).copied().unwrap_or(0)
}

// The meld whose tile, kind and source stand at a place. That all three are there is asked at once.
fn meld_at(b: &[u8], i: usize) -> meld::Meld
    requires { i ≤ 1000000 }
    ensures { result ≡ meld_at b.now i }
{
    if i + 2 < b.len() {
        return meld::Meld {
            tile: b[i],
            kind: b[i + 1],
            source: b[i + 2],
        };
    }
    meld::Meld {
        tile: byte_at(b, i),
        kind: byte_at(b, i + 1),
        source: byte_at(b, i + 2),
    }
}

// The seven tiles from a place on.
fn tiles_at(b: &[u8], i: usize) -> [u8; 7]
    requires { i ≤ 1000000 }
    ensures { result ≡ tiles_at b.now i }
{
    std::array::from_fn(|k| byte_at(b, i + k))
}

// The reading whose record stands at a place. The kind is a byte of the record, which C reads too: 1 seven pairs, 2 thirteen orphans.
pub fn reading_at(b: &[u8], i: usize) -> structure::HandStructure
    requires { i ≤ 900000 }
    ensures { reading_of result ≡ reading_at b.now i }
{
    let kind = byte_at(b, i + 2);
    if kind == 1 {
        return structure::HandStructure::Chiitoitsu {
            pairs: tiles_at(b, i + 4),
        };
    }
    let pair = tile::Tile(byte_at(b, i + 4));
    if kind == 2 {
        return structure::HandStructure::Kokushi { pair };
    }
    structure::HandStructure::Standard {
        pair,
        melds: std::array::from_fn(|k| meld_at(b, i + 5 + 3 * k)),
    }
}

// The length of the record at a place, its first byte.
pub fn length_at(b: &[u8], i: usize) -> usize
    ensures { (result ≡ byte_at b.now i) × (result ≤ 255) }
{
    usize::from(byte_at(b, i))
}

// The place of the record with a number, counted from 0.
pub fn place_of(b: &[u8], n: usize) -> usize
    requires { n ≤ 3000 }
    ensures { (result ≡ place_of b.now n 0) × (result ≤ 255 * n) }
{
    let mut at = 0;
    for _ in 0..n {
        at += length_at(b, at);
    }
    at
}
