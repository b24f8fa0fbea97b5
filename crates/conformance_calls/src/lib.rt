//! What the program `conformance` is made of: the calls on challengers, permutations and hash functions.
#![tactic(auto)]

// An expression of the values as an array, whose length is part of its type.
macro_rules! with_array {
    ($values:expr, $array:ident => $result:expr) => {
        match $values {
            [] => {
                let $array = [];
                $result
            }
            [a] => {
                let $array = [*a];
                $result
            }
            [a, b] => {
                let $array = [*a, *b];
                $result
            }
            [a, b, c] => {
                let $array = [*a, *b, *c];
                $result
            }
            [a, b, c, d] => {
                let $array = [*a, *b, *c, *d];
                $result
            }
            _ => bail!("more than 4 places"),
        }
    };
}

// An expression of the challenger, or of a reference to it, as the line has it.
macro_rules! with_challenger {
    ($subject:expr, $challenger:ident => $result:expr) => {
        match $subject.way {
            Way::Direct => {
                let $challenger = &mut $subject.challenger;
                $result
            }
            Way::ByReference => {
                let mut reference = &mut $subject.challenger;
                let $challenger = &mut reference;
                $result
            }
        }
    };
}

// The first difference on a new challenger of the shape that the line has, which the macro `$new` makes: the places
// that `Turn` turns by, the width and the rate. Each shape over each field is proved by itself, so they are few.
// (Each array has to be seen to fit in memory, so no function that makes a challenger is generic over the field.)
macro_rules! difference_over {
    ($new:ident, $of:tt, $alloc:expr, $shape:expr, $steps:expr) => {
        match $shape {
            "1 2 1" => first_difference($alloc, $new!($of, 1, 2, 1), $steps),
            "2 3 2" => first_difference($alloc, $new!($of, 2, 3, 2), $steps),
            "2 5 3" => first_difference($alloc, $new!($of, 2, 5, 3), $steps),
            "9 16 8" => first_difference($alloc, $new!($of, 9, 16, 8), $steps),
            _ => bail!("an unknown shape"),
        }
    };
}

mod candidates;
pub mod challenger_call;
pub mod challengers;
mod digests;
mod duplex;
mod elements;
mod hash;
mod multi_field;
pub mod replay;
mod serializing;
mod subject;
pub mod symmetric;
mod work;
