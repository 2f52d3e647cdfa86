//! Lines that aren't UTF-8, counted while they are answered; and records of a table that aren't.
ghost use Rattle.std.specs.Prelude.{◌≡◌, OnOk};
ghost use Rattle.phone_commands.specs.Strays.{after_begin, after_line, no_strays, no_tally};
ghost use Rattle.phone_commands.specs.Strays.{next_place, strays_of, with_stray};

use phone_table::Counts;

/// Where a line stands, or a record of a table.
#[derive(Clone, Copy, PartialEq, Eq, Debug)]
pub struct LinePlace {
    /// Which input it is of: how many were begun, that one counted.
    pub input: u64,
    /// Its number in that input; of a record the header is counted as 1.
    pub line: u64,
}

/// The lines that aren't UTF-8, or the records.
#[derive(Clone, Copy, PartialEq, Eq, Debug)]
pub struct Strays {
    /// How many there are: 2^64 - 1 at most.
    pub count: u64,
    /// The first of them.
    pub first: Option<LinePlace>,
}

impl Strays {
    /// None.
    pub fn none() -> Strays
        ensures { result ≡ no_strays }
    {
        Strays {
            count: 0,
            first: None,
        }
    }

    /// The records of a table that aren't UTF-8.
    pub(crate) fn of(counts: Counts) -> Strays
        ensures { result ≡ strays_of counts }
    {
        let first = match counts.first_stray {
            Some(line) => Some(LinePlace { input: 1, line }),
            None => None,
        };
        let count = counts.strays;
        Strays { count, first }
    }

    /// These, and one more.
    fn with(self, place: LinePlace) -> Strays
        ensures { result ≡ with_stray self place }
    {
        Strays {
            count: self.count.saturating_add(1),
            first: Some(self.first.unwrap_or(place)),
        }
    }
}

/// How far lines are counted.
#[derive(Clone, Copy, PartialEq, Eq, Debug)]
pub struct Tally {
    /// How many lines are counted as if they stood before each input.
    pub skipped: u64,
    /// How many inputs were begun.
    pub begun: u64,
    /// How many lines of the last one were counted.
    pub taken: u64,
    /// Those that aren't UTF-8.
    pub strays: Strays,
}

impl Tally {
    /// Nothing was begun yet.
    pub fn new(skipped: u64) -> Tally
        ensures { result ≡ no_tally skipped }
    {
        Tally {
            skipped,
            begun: 0,
            taken: 0,
            strays: Strays::none(),
        }
    }

    /// Where the next line stands.
    fn next_place(self) -> LinePlace
        ensures { result ≡ next_place self }
    {
        let line = self.skipped.saturating_add(self.taken);
        LinePlace {
            input: self.begun,
            line: line.saturating_add(1),
        }
    }

    /// Begins an input.
    pub(crate) fn after_begin(self) -> Tally
        ensures { result ≡ after_begin self }
    {
        Tally {
            begun: self.begun.saturating_add(1),
            taken: 0,
            ..self
        }
    }

    /// Counts a line.
    pub(crate) fn after_line(self, line: &[u8]) -> Tally
        ensures { result ≡ after_line self line.now }
    {
        let taken = self.taken.saturating_add(1);
        match std::str::from_utf8(line) {
            Ok(_) => Tally { taken, ..self },
            Err(_) => Tally {
                taken,
                strays: self.strays.with(self.next_place()),
                ..self
            },
        }
    }
}
