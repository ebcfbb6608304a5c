// What a radio draws from a pack, by how much of the hour it talks.
ghost use Rattle.std.specs.Prelude.{◌≡◌, ◌<◌};
ghost use Rattle.house.specs.Draw.{draw};

// Minutes of talking and units drawn, both in an hour.
#[derive(Clone, Copy, PartialEq, Eq, Debug)]
pub struct Row {
    pub minutes: u64,
    pub drawn: u64,
}

pub const DRAW_SHEET: [Row; 7] = [
    Row {
        minutes: 0,
        drawn: 4,
    },
    Row {
        minutes: 10,
        drawn: 7,
    },
    Row {
        minutes: 20,
        drawn: 10,
    },
    Row {
        minutes: 30,
        drawn: 14,
    },
    Row {
        minutes: 40,
        drawn: 18,
    },
    Row {
        minutes: 50,
        drawn: 22,
    },
    Row {
        minutes: 60,
        drawn: 27,
    },
];

// The draw of the first row whose minutes reach those asked for, or of the last row.
#[tactic(auto, unfolding(crate::specs::Draw::draw))]
pub fn draw_at(minutes: u64) -> u64
    ensures draws { result ≡ draw minutes }
    ensures some { 0 < result }
{
    DRAW_SHEET
        .iter()
        .find(|row| minutes <= row.minutes)
        .map_or(DRAW_SHEET[6].drawn, |row| row.drawn)
}
