//! Fitting lines to displays, and keeping the account.
ghost use Rattle.std.specs.Prelude.{◌≡◌};
ghost use Rattle.gauge.specs.Accounts.{fit_of, past, empty, counted};

use crate::account::Account;
use crate::measure::Measure;
use cells::refusal::Refusal;

/// The columns of the door display and of the laptop.
pub const DOOR: u128 = 40;

pub const LAPTOP: u128 = 80;

/// By how many columns a line passes a display, if it does.
pub fn excess(columns: u128, display: u128) -> Option<u128>
    ensures { result ≡ fit_of columns display }
{
    if columns > display {
        Some(columns - display)
    } else {
        None
    }
}

/// One where columns pass a display.
fn passes(columns: u128, display: u128) -> u128
    ensures { result ≡ past columns display }
{
    u128::from(excess(columns, display).is_some())
}

impl Account {
    pub fn new() -> Account
        ensures { result ≡ empty }
    {
        Account {
            lines: 0,
            cells: 0,
            columns: 0,
            widest: 0,
            door: 0,
            laptop: 0,
            refused: [0; 12],
        }
    }

    /// One line more; counts stop at the largest number.
    pub fn add(&mut self, outcome: &Result<Measure, Refusal>)
        ensures { self.new ≡ counted self.old outcome.now }
    {
        self.lines = self.lines.saturating_add(1);
        match outcome {
            Ok(m) => {
                self.cells = self.cells.saturating_add(m.cells as u128);
                self.columns = self.columns.saturating_add(m.columns);
                self.widest = self.widest.max(m.columns);
                self.door = self.door.saturating_add(passes(m.columns, DOOR));
                self.laptop = self.laptop.saturating_add(passes(m.columns, LAPTOP));
            }
            Err(why) => {
                let i = why.number() as usize - 1;
                self.refused[i] = self.refused[i].saturating_add(1);
            }
        }
    }
}
