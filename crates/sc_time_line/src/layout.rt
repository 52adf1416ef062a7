//! Where turns and handlers are in a picture.

use sc_lockpass::HandlerNumber;

/// The most turns of a picture in which each has a wide bar, and the most in which each has a bar of its own.
const MOST_WIDE: usize = 60;

const MOST_SINGLE: usize = 600;

/// The most columns of a picture whose bars are joined.
const MOST_COLUMNS: usize = 1_200;

/// How high the line of a handler is.
pub const LANE: usize = 40;

/// How many pixels are above the lines of the handlers.
pub const TOP: usize = 24;

/// Where turns are in a picture.
#[derive(Clone, Copy)]
pub struct Layout {
    /// How many turns a column has.
    pub turns: usize,
    /// How many pixels wide a column is.
    pub width: usize,
    /// Whether the bars of turns of one kind are joined.
    pub is_joined: bool,
}

impl Layout {
    /// For this number of turns.
    pub fn of(turns: usize) -> Layout {
        if turns <= MOST_WIDE {
            Layout {
                turns: 1,
                width: 32,
                is_joined: false,
            }
        } else if turns <= MOST_SINGLE {
            Layout {
                turns: 1,
                width: 14,
                is_joined: false,
            }
        } else {
            Layout {
                turns: (turns / MOST_COLUMNS).saturating_add(1),
                width: 4,
                is_joined: true,
            }
        }
    }

    /// The column of a turn, which are counted from 1.
    pub fn column(self, number: usize) -> usize {
        number
            .saturating_sub(1)
            .checked_div(self.turns)
            .unwrap_or(0)
    }

    /// Where the column of a turn begins.
    pub fn left(self, number: usize) -> usize {
        self.column(number).saturating_mul(self.width)
    }

    /// Where the column of a turn ends.
    pub fn right(self, number: usize) -> usize {
        self.left(number).saturating_add(self.width)
    }
}

/// Where the line of a handler begins.
pub fn lane(handler: HandlerNumber) -> usize {
    (handler as usize).saturating_mul(LANE).saturating_add(TOP)
}
