//! Counts of windows, each of which is a machine of its own.
#![tactic(auto)]

/// What a function gives on as many windows as a number says, which is one of the counts from the first to the last.
/// Its first parameter is the count; the others stand in square brackets, and its arguments behind them:
/// `on_windows!(windows, run_on [P] (alloc, progress), 4 to 10)`. A function costs its proof by its ways out, so that
/// one whose calls have much to prove takes few counts.
#[macro_export]
macro_rules! on_windows {
    ($windows:ident, $call:ident $kinds:tt $given:tt, 4 to 10) => {
        $crate::on_windows!(@ $windows, $call $kinds $given, 4 5 6 7 8 9 _ 10)
    };
    ($windows:ident, $call:ident $kinds:tt $given:tt, 11 to 17) => {
        $crate::on_windows!(@ $windows, $call $kinds $given, 11 12 13 14 15 16 _ 17)
    };
    ($windows:ident, $call:ident $kinds:tt $given:tt, 18 to 24) => {
        $crate::on_windows!(@ $windows, $call $kinds $given, 18 19 20 21 22 23 _ 24)
    };
    ($windows:ident, $call:ident $kinds:tt $given:tt, 25 to 32) => {
        $crate::on_windows!(@ $windows, $call $kinds $given, 25 26 27 28 29 30 31 _ 32)
    };
    ($windows:ident, $call:ident $kinds:tt $given:tt, 4 to 32) => {
        if $windows <= 17 {
            if $windows <= 10 {
                $crate::on_windows!($windows, $call $kinds $given, 4 to 10)
            } else {
                $crate::on_windows!($windows, $call $kinds $given, 11 to 17)
            }
        } else if $windows <= 24 {
            $crate::on_windows!($windows, $call $kinds $given, 18 to 24)
        } else {
            $crate::on_windows!($windows, $call $kinds $given, 25 to 32)
        }
    };
    (@ $windows:ident, $call:ident $kinds:tt $given:tt, $($count:literal)* _ $last:literal) => {
        match $windows {
            $($count => $crate::on_windows!(@ $count, $call $kinds $given),)*
            _ => $crate::on_windows!(@ $last, $call $kinds $given),
        }
    };
    (@ $count:literal, $call:ident [$($kind:ident)*] $given:tt) => {
        $call::<$count $(, $kind)*>$given
    };
}
