use kinds::{Date, Kind, Level, Tick};
use links::{Link, Sort};

// The date of a few milliseconds, which are a tick.
pub(crate) fn date(value: u16) -> Date {
    Tick::try_from(u32::from(value)).map_or(Date::Never, Date::At)
}

// The level of a number from 0 to 127; a greater number gives 0.
pub(crate) fn level(value: u8) -> Level {
    Level::try_from(u32::from(value)).unwrap_or(Level::bottom())
}

pub(crate) fn place<T>(from: u8, to: u8, tokens: u8, value: T) -> Link<T> {
    Link {
        sort: Sort::Place,
        from,
        to,
        tokens,
        value,
    }
}

// An input link.
pub(crate) fn entry<T>(from: u8, to: u8, value: T) -> Link<T> {
    Link {
        sort: Sort::Input,
        from,
        to,
        tokens: 0,
        value,
    }
}

// An output link.
pub(crate) fn leaving<T>(from: u8, to: u8, value: T) -> Link<T> {
    Link {
        sort: Sort::Output,
        from,
        to,
        tokens: 0,
        value,
    }
}
