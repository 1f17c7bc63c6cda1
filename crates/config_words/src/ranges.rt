// What code reads off a row: the range of a key, and its default.

/// The range of a key as a `Range`, which the caller has in scope. Behind the key stand the values
/// of those ends that aren't numbers in its row, or `of` and the kind whose range is meant.
#[macro_export]
macro_rules! range_of {
    ($key:ident $(, $($end:tt)+)?) => {
        $crate::key_row! { $key [$crate::range_of_row] [$($($end)+)?] }
    };
}

/// The range of a row, with the values of its ends.
#[macro_export]
macro_rules! range_of_row {
    ($ends:tt $key:ident $start:literal $held:literal $range:tt $(help $help:literal)?;) => {
        $crate::range_between! { $ends $range }
    };
}

/// The range in a row's brackets, with the values of its ends.
#[macro_export]
macro_rules! range_between {
    ([] [$low:literal to $high:literal; default $default:literal $(, $meaning:ident)?]) => {
        Range::new($low, $high, $default)
    };
    // Without it there is no bound, as with one that is never reached.
    ([] [$low:literal to $high:literal; default none, with exchanges $other:literal]) => {
        Range::new($low, $high, $high)
    };
    ([$low:ident] [$key:ident to $high:literal; default $default:literal]) => {
        Range::new($low, $high, $default)
    };
    (
        [$low:ident, $high:ident]
        [
            $key:ident to $other:ident, of fixed $least:literal to $most:literal;
            default $default:literal, of auto $first:literal
        ]
    ) => {
        Range::new($low, $high, $default)
    };
    (
        [$low:ident]
        [
            $key:ident to $high:literal;
            default $default:literal, of auto what the workers leave over
        ]
    ) => {
        Range::new($low, $high, $default)
    };
    // What the workers leave over is told once they are known: until then it is the greatest.
    (
        [of auto, $low:ident]
        [
            $key:ident to $high:literal;
            default $default:literal, of auto what the workers leave over
        ]
    ) => {
        Range::new($low, $high, $high)
    };
    (
        [of auto, $low:ident, $high:ident]
        [
            $key:ident to $other:ident, of fixed $least:literal to $most:literal;
            default $usual:literal, of auto $default:literal
        ]
    ) => {
        Range::new($low, $high, $default)
    };
    (
        [of fixed]
        [
            $key:ident to $other:ident, of fixed $low:literal to $high:literal;
            default $default:literal, of auto $first:literal
        ]
    ) => {
        Range::new($low, $high, $default)
    };
    ([$($left:tt)+] [$low:literal to what the classes before leave of $all:literal; required]) => {
        Range::required($low, $($left)+)
    };
    (
        [$left:ident]
        [
            $low:literal to what backlog and those before leave of $all:literal;
            default $default:literal
        ]
    ) => {
        Range::new($low, $left, $default)
    };
}

/// Whether the range in a row's brackets hangs on other keys: one of its ends is no number.
#[macro_export]
macro_rules! range_hangs {
    ([$low:literal to $high:literal; $($default:tt)*]) => {
        false
    };
    ([$low:tt to $($rest:tt)*]) => {
        true
    };
    ($($no_numbers:tt)*) => {
        false
    };
}

/// The default of a key that is true or false.
#[macro_export]
macro_rules! default_of {
    ($key:ident) => {
        $crate::key_row! { $key [$crate::default_of_row] }
    };
}

/// The default of a row that is true or false.
#[macro_export]
macro_rules! default_of_row {
    ($key:ident $start:literal $held:literal [true or false; default $default:literal];) => {
        $default
    };
}
