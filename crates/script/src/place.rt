// What stands at the places of a line.

/// An end of a range.
#[derive(Clone, Copy)]
pub enum RangeEnd {
    /// This number.
    At(u64),
    /// The number at an earlier place of the line, counted from 0.
    Of(usize),
}

/// A number of a line: what the form calls it, what it counts, and its range.
#[derive(Clone, Copy)]
pub struct NumberPlace {
    pub name: &'static str,
    pub held: &'static str,
    pub low: RangeEnd,
    pub high: RangeEnd,
}

/// What stands at a place of a line.
#[derive(Clone, Copy)]
pub enum WordPlace {
    /// One of these words.
    Words(&'static [&'static str]),
    /// A number.
    Number(NumberPlace),
    /// The name of a class that the line brings.
    Name,
    /// The name of a class that is known, or `unknown`.
    Class,
}
