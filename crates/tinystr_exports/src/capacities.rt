//! A capacity that is a number when the program runs, as a const parameter.

/// A capacity as a type.
pub struct At<const N: usize>;

/// A reference to the value of type `At` at one of the capacities 0 to 40 and 64; another expression at any other.
#[macro_export]
macro_rules! at_capacity {
    ($capacity:expr, else $other:expr) => {
        match $capacity {
            0 => &At::<0>,
            1 => &At::<1>,
            2 => &At::<2>,
            3 => &At::<3>,
            4 => &At::<4>,
            5 => &At::<5>,
            6 => &At::<6>,
            7 => &At::<7>,
            8 => &At::<8>,
            9 => &At::<9>,
            10 => &At::<10>,
            11 => &At::<11>,
            12 => &At::<12>,
            13 => &At::<13>,
            14 => &At::<14>,
            15 => &At::<15>,
            16 => &At::<16>,
            17 => &At::<17>,
            18 => &At::<18>,
            19 => &At::<19>,
            20 => &At::<20>,
            21 => &At::<21>,
            22 => &At::<22>,
            23 => &At::<23>,
            24 => &At::<24>,
            25 => &At::<25>,
            26 => &At::<26>,
            27 => &At::<27>,
            28 => &At::<28>,
            29 => &At::<29>,
            30 => &At::<30>,
            31 => &At::<31>,
            32 => &At::<32>,
            33 => &At::<33>,
            34 => &At::<34>,
            35 => &At::<35>,
            36 => &At::<36>,
            37 => &At::<37>,
            38 => &At::<38>,
            39 => &At::<39>,
            40 => &At::<40>,
            64 => &At::<64>,
            _ => $other,
        }
    };
}

/// Calls a function at one of a few capacities; false at any other.
#[macro_export]
macro_rules! at_few_capacities {
    ($capacity:expr, $call:ident, $($argument:expr),*) => {
        match $capacity {
            0 => $call::<0>($($argument),*),
            1 => $call::<1>($($argument),*),
            3 => $call::<3>($($argument),*),
            4 => $call::<4>($($argument),*),
            5 => $call::<5>($($argument),*),
            8 => $call::<8>($($argument),*),
            9 => $call::<9>($($argument),*),
            12 => $call::<12>($($argument),*),
            16 => $call::<16>($($argument),*),
            17 => $call::<17>($($argument),*),
            24 => $call::<24>($($argument),*),
            32 => $call::<32>($($argument),*),
            64 => $call::<64>($($argument),*),
            _ => false,
        }
    };
}

/// Calls a function from capacity `N` to one of a few; false at any other.
#[macro_export]
macro_rules! to_capacity {
    ($capacity:expr, $call:ident, $($argument:expr),*) => {
        match $capacity {
            0 => $call::<N, 0>($($argument),*),
            1 => $call::<N, 1>($($argument),*),
            3 => $call::<N, 3>($($argument),*),
            4 => $call::<N, 4>($($argument),*),
            7 => $call::<N, 7>($($argument),*),
            8 => $call::<N, 8>($($argument),*),
            12 => $call::<N, 12>($($argument),*),
            16 => $call::<N, 16>($($argument),*),
            17 => $call::<N, 17>($($argument),*),
            24 => $call::<N, 24>($($argument),*),
            32 => $call::<N, 32>($($argument),*),
            48 => $call::<N, 48>($($argument),*),
            64 => $call::<N, 64>($($argument),*),
            128 => $call::<N, 128>($($argument),*),
            _ => false,
        }
    };
}
